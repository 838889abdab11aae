//! Words that hold a number or none: the begin word of a transaction, the commit word, a position
//! of the primary index, and the pin word of a session.
ghost use Rattle.std.specs.Prelude.{◌≡◌, ◌-◌, ◌^◌};
ghost use Rattle.lst_bits.specs.Numbers.{number_word, number_of, IsBelow, IsNumberWord, NumbersArePacked};

/// The begin word of a transaction: 0 not begun, else one above its begin time.
#[inline(always)]
pub fn pack_begin(begin: Option<u64>) -> u64
    requires { IsBelow (2 ^ 64 - 1) begin }
    ensures { result ≡ number_word begin }
{
    match begin {
        None => 0,
        Some(begin) => begin + 1,
    }
}

/// The begin time that a begin word tells, if the transaction has begun.
#[inline(always)]
pub fn unpack_begin(word: u64) -> Option<u64>
    ensures begin { result ≡ number_of word }
    ensures word { number_word result ≡ word }
{
    if word == 0 { None } else { Some(word - 1) }
}

/// The pin word of a session: 0 none, else one above the epoch.
#[inline(always)]
pub fn pack_pin(epoch: Option<u64>) -> u64
    requires { IsBelow (2 ^ 64 - 1) epoch }
    ensures { result ≡ number_word epoch }
{
    match epoch {
        None => 0,
        Some(epoch) => epoch + 1,
    }
}

/// The epoch of a pin word, if the session has one pinned.
#[inline(always)]
pub fn unpack_pin(word: u64) -> Option<u64>
    ensures epoch { result ≡ number_of word }
    ensures word { number_word result ≡ word }
{
    if word == 0 { None } else { Some(word - 1) }
}

/// The commit word: 0 free, else one above the session that has the turn to commit.
#[inline(always)]
pub fn pack_turn(session: Option<u32>) -> u64
    ensures word { result ≡ number_word session }
    ensures image { IsNumberWord (2 ^ 32) result }
{
    match session {
        None => 0,
        Some(session) => session as u64 + 1,
    }
}

/// The word of a position of the primary index: 0 empty, else one above the record.
#[inline(always)]
pub fn pack_index(rec: Option<u32>) -> u64
    ensures word { result ≡ number_word rec }
    ensures image { IsNumberWord (2 ^ 32) result }
{
    match rec {
        None => 0,
        Some(rec) => rec as u64 + 1,
    }
}

/// The record at a position of the primary index, if there is one.
#[inline(always)]
pub fn unpack_index(word: u64) -> Option<u32>
    requires { IsNumberWord (2 ^ 32) word }
    ensures rec { result ≡ number_of word }
    ensures word { number_word result ≡ word }
{
    if word == 0 {
        None
    } else {
        Some((word - 1) as u32)
    }
}

/// Packing and unpacking undo one another.
pub fn numbers_are_packed()
    ensures { NumbersArePacked }
{}
