//! Whether words begin with a packed page.
ghost use Rattle.std.specs.Prelude.{◌≡◌, ℕ, ◌+◌, ◌<◌, ◌≤◌, ◌↔◌, IsTrue, length};
ghost use Rattle.lst_pack.specs.Forms.{IsDictionary, AreRuns, IsWidth, IsReference, IsPacked};

/// Whether words begin with a page in one of the five forms, so that its values may be read. There is room for the greatest form.
pub fn is_packed(words: &[u64]) -> bool
    requires { 257 ≤ length words.now }
    ensures { IsTrue result ↔ IsPacked words.now }
{
    let number = words[0] / 8;
    match words[0] % 8 {
        0 => number == 0,
        1 => number == 0,
        2 => number <= 16 && is_dictionary(words, number as usize),
        3 => 0 < number && number <= 128 && are_runs(words, number as usize),
        4 => is_width(number) && is_reference(words, number as usize),
        _ => false,
    }
}

// Whether each code names one of the values.
fn is_dictionary(words: &[u64], size: usize) -> bool
    requires long { 257 ≤ length words.now }
    requires few { size ≤ 16 }
    ensures { IsTrue result ↔ IsDictionary words.now size }
{
    for place in 0..256 {
        let bit = place * 4;
        if (words[1 + size + bit / 64] >> (bit % 64)) % 16 >= size as u64 {
            return false;
        }
    }
    true
}

// Whether no run is empty, and the last one ends with the page.
fn are_runs(words: &[u64], runs: usize) -> bool
    requires long { 257 ≤ length words.now }
    requires some { 0 < runs }
    requires few { runs ≤ 128 }
    ensures { IsTrue result ↔ AreRuns words.now runs }
{
    let mut end = 0;
    for run in 0..runs {
        if words[2 + 2 * run] <= end {
            return false;
        }
        end = words[2 + 2 * run];
    }
    end == 256
}

fn is_width(width: u64) -> bool
    ensures { IsTrue result ↔ IsWidth width }
{
    matches!(width, 1 | 2 | 4 | 8 | 16 | 32)
}

// Whether no sum passes the greatest word.
fn is_reference(words: &[u64], width: usize) -> bool
    requires long { 257 ≤ length words.now }
    requires width { IsWidth width }
    ensures { IsTrue result ↔ IsReference words.now width }
{
    for place in 0..256 {
        let bit = place * width;
        let difference = (words[2 + bit / 64] >> (bit % 64)) % (1 << width);
        if words[1].checked_add(difference).is_none() {
            return false;
        }
    }
    true
}
