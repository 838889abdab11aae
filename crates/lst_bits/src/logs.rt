//! The word of the log.
ghost use Rattle.std.specs.Prelude.{◌≡◌};
ghost use Rattle.lst_bits.specs.Logs.{log_word, log_of, FitsLog, IsLog, IsLogWord, LogsArePacked};

/// What the log says of a time.
#[derive(Clone, Copy, PartialEq, Eq, Debug)]
pub enum Log {
    /// Nothing was committed then.
    Empty,
    /// The transaction with this number, which is at least 1, of this session was.
    By { session: u32, number: u32 },
}

/// The log's word: 0, or the name of the transaction that committed.
#[inline(always)]
pub fn pack_log(log: Log) -> u64
    requires { FitsLog log }
    ensures word { result ≡ log_word log }
    ensures image { IsLog log → IsLogWord result }
{
    match log {
        Log::Empty => 0,
        Log::By { session, number } => 16 * number as u64 + session as u64,
    }
}

/// What a word of the log says.
pub fn unpack_log(word: u64) -> Log
    requires { IsLogWord word }
    ensures log { result ≡ log_of word }
    ensures range { IsLog result }
    ensures word { log_word result ≡ word }
{
    if word == 0 {
        Log::Empty
    } else {
        Log::By {
            session: (word % 16) as u32,
            number: (word / 16) as u32,
        }
    }
}

/// Packing and unpacking undo one another.
pub fn logs_are_packed()
    ensures { LogsArePacked }
{}
