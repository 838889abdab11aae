//! The indirection word.
ghost use Rattle.std.specs.Prelude.{◌≡◌, ◌<◌, ◌^◌, true};
ghost use Rattle.lst_bits.specs.Heads.{head_word, head_of, is_latched, IsHeadWord, HeadsArePacked};

/// The indirection word of a record whose newest tail record is `head` (0 where it has none),
/// and which is latched or not.
#[inline(always)]
pub fn pack_head(head: u64, latched: bool) -> u64
    requires { head < 2 ^ 32 }
    ensures word { result ≡ head_word head latched }
    ensures image { IsHeadWord result }
{
    2 * head + latched as u64
}

/// An indirection word with its latch set, whether or not it was.
#[inline(always)]
pub fn latched(word: u64) -> u64
    ensures { result ≡ head_word (head_of word) true }
{
    2 * (word / 2) + 1
}

/// The head and the latch of an indirection word.
pub fn unpack_head(word: u64) -> (u32, bool)
    requires { IsHeadWord word }
    ensures head { result.0 ≡ head_of word }
    ensures latched { result.1 ≡ is_latched word }
    ensures word { head_word result.0 result.1 ≡ word }
{
    ((word / 2) as u32, word % 2 == 1)
}

/// Packing and unpacking undo one another.
pub fn heads_are_packed()
    ensures { HeadsArePacked }
{}
