//! The start word of a tail record.
ghost use Rattle.std.specs.Prelude.{◌≡◌};
ghost use Rattle.lst_bits.specs.Starts.{start_word, start_of, FitsStart, IsStart, IsStartWord, StartsArePacked};

/// What the start word of a tail record says.
#[derive(Clone, Copy, PartialEq, Eq, Debug)]
pub enum Start {
    /// The tail record isn't stored.
    Empty,
    /// The transaction with this number of this session wrote it.
    By { session: u32, number: u32 },
    /// It was committed at this time, which is at least 1.
    At { time: u64 },
}

/// The start word: 0, an odd word that names a transaction, or an even one that tells a time.
#[inline(always)]
pub fn pack_start(start: Start) -> u64
    requires { FitsStart start }
    ensures word { result ≡ start_word start }
    ensures image { IsStartWord result }
{
    match start {
        Start::Empty => 0,
        Start::By { session, number } => 1 + 2 * (16 * number as u64 + session as u64),
        Start::At { time } => 2 * time,
    }
}

/// What a start word says.
pub fn unpack_start(word: u64) -> Start
    requires { IsStartWord word }
    ensures start { result ≡ start_of word }
    ensures range { IsStart result }
    ensures word { start_word result ≡ word }
{
    if word % 2 == 1 {
        return Start::By {
            session: (word / 2 % 16) as u32,
            number: (word / 2 / 16) as u32,
        };
    }
    if word == 0 {
        Start::Empty
    } else {
        Start::At { time: word / 2 }
    }
}

/// Packing and unpacking undo one another.
pub fn starts_are_packed()
    ensures { StartsArePacked }
{}
