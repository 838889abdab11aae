//! Numbers as a report writes them: without leading zeros.
ghost use Rattle.std.specs.Prelude.{◌≡◌, ◌^◌};
ghost use Rattle.lst_replies.specs.Reading.{number_of, number64, number32};

/// The number that a word is, or None where it is none below 2^128, or isn't written as it would be printed.
pub(crate) fn read_number(word: &[u8]) -> Option<u128>
    ensures { result ≡ number_of (2 ^ 128) word.now }
{
    let Ok(text) = str::from_utf8(word) else {
        return None;
    };
    let Ok(number) = text.parse::<u128>() else {
        return None;
    };
    let mut buffer = itoa::Buffer::new();
    if buffer.format(number).as_bytes() == word {
        Some(number)
    } else {
        None
    }
}

/// The same of 64 bits.
pub(crate) fn read_u64(word: &[u8]) -> Option<u64>
    ensures { result ≡ number64 word.now }
{
    match u64::try_from(read_number(word)?) {
        Ok(number) => Some(number),
        Err(_) => None,
    }
}

/// The same of 32 bits.
pub(crate) fn read_u32(word: &[u8]) -> Option<u32>
    ensures { result ≡ number32 word.now }
{
    match u32::try_from(read_number(word)?) {
        Ok(number) => Some(number),
        Err(_) => None,
    }
}
