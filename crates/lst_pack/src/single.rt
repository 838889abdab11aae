//! One value of a packed page.
ghost use Rattle.std.specs.Prelude.{◌≡◌, ℕ, ◌+◌, ◌*◌, ◌/◌, ◌%◌, ◌^◌, ◌<◌, ◌≤◌, ◌⊎◌, List, length, slice_index};
ghost use Rattle.lst_pack.specs.Forms.{number_at, run_value as value_of_run, code_at, difference_at, IsDictionary, AreRuns, IsInRun, IsReference, Packs, IsPacked};

/// Words that are loaded one by one.
pub trait Words {
    // The words; no call changes them.
    ghost words: { Self → List ℕ };

    // What may become of the rest in calls.
    ghost later: { Self → Self → Type 0 };

    /// The word at this place, from 0.
    fn word(&mut self, place: u32) -> u64
        requires { place < length (words self.old) }
        ensures word { result ≡ slice_index (words self.old) place }
        ensures same { words self.new ≡ words self.old }
        ensures later { later self.old self.new };

    // Of no call, and of calls one after another.
    ghost later_same: { (one : Self) → later one one };

    ghost later_on: { (one other third : Self) → later one other → later other third → later one third };
}

// The words of a slice.
#[derive(Drop)]
struct Slice<'a> {
    words: &'a [u64],
}

impl Words for Slice<'_> {
    ghost use Rattle.std.specs.Prelude.{refl};

    ghost words = { λ s. s.words.now };

    ghost later = { λ one other. other.words ≡ one.words };

    fn word(&mut self, place: u32) -> u64 {
        self.words[place as usize]
    }

    ghost later_same = { λ one. refl };

    ghost later_on = { λ one other third a b. Prim.cc };
}

/// The value at place `i`, below 256, of the page with which `words` begin.
///
/// The words begin with a page in one of the five forms, by condition. Words past that form may hold anything.
pub fn get(words: &[u64], i: usize) -> u64
    requires place { i < 256 }
    requires packed { IsPacked words.now }
    ensures { (values : List ℕ) → Packs words.now values → result ≡ slice_index values i }
{
    get_from(&mut Slice { words }, i as u32)
}

/// What `get` gives, of words that are loaded one by one, each where it is asked for.
#[inline(always)]
pub fn get_from<W: Words>(words: &mut W, i: u32) -> u64
    requires place { i < 256 }
    requires packed { IsPacked (W.words words.old) }
    ensures value { (values : List ℕ) → Packs (W.words words.old) values → result ≡ slice_index values i }
    ensures same { W.words words.new ≡ W.words words.old }
    ensures later { W.later words.old words.new }
{
    let first = words.word(0);
    // Of the five forms a frame of reference alone has this bit.
    if first / 4 % 2 == 1 {
        referred_value(words, (first / 8) as u32, i)
    } else if first % 8 == 2 {
        named_value(words, (first / 8) as u32, i)
    } else if first == 1 {
        words.word(1)
    } else {
        other_value(words, first, i)
    }
}

// The value at place `i` of a plain page, or of runs, whose first word this is. It stands apart, so that a reader's loop has the short forms alone.
#[inline(never)]
fn other_value<W: Words>(words: &mut W, first: u64, i: u32) -> u64
    requires place { i < 256 }
    requires packed { IsPacked (W.words words.old) }
    requires first { first ≡ slice_index (W.words words.old) 0 }
    requires other { (first ≡ 0) ⊎ (first % 8 ≡ 3) }
    ensures value { (values : List ℕ) → Packs (W.words words.old) values → result ≡ slice_index values i }
    ensures same { W.words words.new ≡ W.words words.old }
    ensures later { W.later words.old words.new }
{
    if first == 0 {
        words.word(1 + i)
    } else {
        run_value(words, (first / 8) as u32, i)
    }
}

// The value that the code at place `i` names.
fn named_value<W: Words>(words: &mut W, size: u32, i: u32) -> u64
    requires place { i < 256 }
    requires long { 17 + size ≤ length (W.words words.old) }
    requires dictionary { IsDictionary (W.words words.old) size }
    ensures value { result ≡ slice_index (W.words words.old) (1 + code_at (W.words words.old) size i) }
    ensures same { W.words words.new ≡ W.words words.old }
    ensures later { W.later words.old words.new }
{
    let code = number(words, 1 + size, 4, i);
    words.word(1 + code as u32)
}

// The base and the difference at place `i`.
fn referred_value<W: Words>(words: &mut W, width: u32, i: u32) -> u64
    requires place { i < 256 }
    requires long { 2 + 4 * width ≤ length (W.words words.old) }
    requires reference { IsReference (W.words words.old) width }
    ensures value { result ≡ slice_index (W.words words.old) 1 + difference_at (W.words words.old) width i }
    ensures same { W.words words.new ≡ W.words words.old }
    ensures later { W.later words.old words.new }
{
    let difference = number(words, 2, width, i);
    words.word(1) + difference
}

// The number of `width` bits at place `i` among those that begin with word `from`.
fn number<W: Words>(words: &mut W, from: u32, width: u32, i: u32) -> u64
    requires place { i < 256 }
    requires width { width ≤ 32 }
    requires few { from < 100 }
    requires long { from + i * width / 64 < length (W.words words.old) }
    ensures number { result ≡ number_at (W.words words.old) from width i }
    ensures same { W.words words.new ≡ W.words words.old }
    ensures later { W.later words.old words.new }
{
    let bit = i * width;
    (words.word(from + bit / 64) >> (bit % 64)) % (1 << width)
}

// The value of the run in which place `i` is, by a search by halves.
fn run_value<W: Words>(words: &mut W, runs: u32, i: u32) -> u64
    requires place { i < 256 }
    requires long { 1 + 2 * runs ≤ length (W.words words.old) }
    requires runs { AreRuns (W.words words.old) runs }
    ensures value { (run : ℕ) × IsInRun (W.words words.old) runs i run × (result ≡ value_of_run (W.words words.old) run) }
    ensures same { W.words words.new ≡ W.words words.old }
    ensures later { W.later words.old words.new }
{
    let mut low = 0;
    let mut high = runs - 1;
    while low < high {
        let middle = (low + high) / 2;
        let end = words.word(2 + 2 * middle);
        if end <= i as u64 {
            low = middle + 1;
        } else {
            high = middle;
        }
    }
    words.word(1 + 2 * low)
}
