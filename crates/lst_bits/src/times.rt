//! The time word of a page's entry.
ghost use Rattle.std.specs.Prelude.{◌≡◌, ◌<◌, ◌^◌};
ghost use Rattle.lst_bits.specs.Times.{time_word, time_of, is_present, TimesArePacked};

/// The time word of an entry that was last written at `time`, and is present or deleted.
pub fn pack_time(time: u64, present: bool) -> u64
    requires { time < 2 ^ 63 }
    ensures { result ≡ time_word time present }
{
    2 * time + present as u64
}

/// The time of a time word, and whether its entry is present.
pub fn unpack_time(word: u64) -> (u64, bool)
    ensures time { result.0 ≡ time_of word }
    ensures present { result.1 ≡ is_present word }
    ensures word { time_word result.0 result.1 ≡ word }
{
    (word / 2, word % 2 == 1)
}

/// Packing and unpacking undo one another.
pub fn times_are_packed()
    ensures { TimesArePacked }
{}
