//! Packed pages: a page of one form, packed, unpacked, or read value by value, again and again.
ghost use Rattle.lst_pack.specs.Forms.{IsPacked};

use lst_pack::{get, pack, unpack};

/// What is done with the page.
pub enum Deed {
    /// Its values are packed.
    Pack,
    /// It is unpacked whole.
    Unpack,
    /// Its values are read one by one, in turn.
    Get,
}

/// What a kind of run does, and the form of its page; None where it is none of packed pages.
pub fn deed_of(kind: &str) -> Option<(Deed, &str)> {
    let (verb, form) = kind.split_once('_')?;
    let deed = match verb {
        "pack" => Deed::Pack,
        "unpack" => Deed::Unpack,
        "get" => Deed::Get,
        _ => return None,
    };
    Some((deed, form))
}

/// 256 values that a form packs in the fewest words.
pub(crate) fn values_of(form: &str) -> [u64; 256] {
    let mut values = [5; 256];
    for place in 0..256 {
        let number = place as u64;
        values[place] = match form {
            "dictionary" => (number * 7 % 16) << 40,
            "runs" => (number / 8) << 40,
            "runs_of_two" => (number / 2) << 40,
            "reference_1" => 1000 + number * 37 % 255 % 2,
            "reference_2" => 1000 + number * 37 % 255 % 4,
            "reference_4" => 1000 + number * 37 % 255 % 15,
            "reference" => 1000 + number * 37 % 251,
            "reference_16" => 1000 + number * 37 % 251 * 200,
            "reference_32" => 1000 + ((number * 37 % 251) << 23),
            "plain" => number << 40,
            _ => 5,
        };
    }
    values
}

/// Packs a page of the form, and does as often as asked what is to be done with it. Adds up one number of each turn.
pub fn packs(deed: Deed, form: &str, count: u32) -> u64 {
    let values = values_of(form);
    let mut words = [0; 257];
    let mut sum = pack(&values, &mut words) as u64;
    match deed {
        Deed::Pack => {
            for _ in 0..count {
                sum = sum.wrapping_add(pack(&values, &mut words) as u64);
            }
        }
        Deed::Unpack => sum = sum.wrapping_add(unpacked(&words, count)),
        Deed::Get => sum = sum.wrapping_add(gotten(&words, count)),
    }
    sum
}

/// Unpacks the page, and adds up one value of each turn.
fn unpacked(words: &[u64; 257], count: u32) -> u64
    requires { IsPacked words.now }
{
    let mut sum = 0u64;
    let mut values = [0; 256];
    for turn in 0..count {
        unpack(words, &mut values);
        sum = sum.wrapping_add(values[(turn % 256) as usize]);
    }
    sum
}

/// Reads one value after another, and adds them up.
fn gotten(words: &[u64; 257], count: u32) -> u64
    requires { IsPacked words.now }
{
    let mut sum = 0u64;
    for turn in 0..count {
        sum = sum.wrapping_add(get(words, (turn % 256) as usize));
    }
    sum
}
