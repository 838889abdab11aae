//! The 256 numbers of some bits that words hold, each taken into a place of its own.
ghost use Rattle.std.specs.Prelude.{◌≡◌, ◌⊎◌, ℕ, ◌+◌, ◌*◌, ◌/◌, ◌<◌, ◌≤◌, length, slice_index};
ghost use Rattle.lst_pack.specs.Forms.{number_at};

/// The numbers of `WIDTH` bits in the words from word `from` on, by way of the `COUNT` bytes of these words.
pub(crate) fn read_narrow<const WIDTH: usize, const COUNT: usize>(
    words: &[u64],
    from: usize,
    numbers: &mut [u8; 256],
)
    requires width { (WIDTH ≡ 1) ⊎ ((WIDTH ≡ 2) ⊎ (WIDTH ≡ 4)) }
    requires count { COUNT ≡ 32 * WIDTH }
    requires long { from + 4 * WIDTH ≤ length words.now }
    ensures { (place : ℕ) → place < 256 → slice_index numbers.new place ≡ number_at words.now from WIDTH place }
{
    let mut bytes = [0; COUNT];
    read_bytes(words, from, &mut bytes);
    for place in 0..COUNT {
        for k in 0..8 / WIDTH {
            numbers[place * (8 / WIDTH) + k] = (bytes[place] >> (k * WIDTH)) % (1 << WIDTH);
        }
    }
}

/// The first `COUNT` numbers of 8 bits in the words from word `from` on.
pub(crate) fn read_bytes<const COUNT: usize>(words: &[u64], from: usize, bytes: &mut [u8; COUNT])
    requires whole { COUNT ≡ COUNT / 8 * 8 }
    requires long { from + COUNT / 8 ≤ length words.now }
    ensures { (place : ℕ) → place < COUNT → slice_index bytes.new place ≡ number_at words.now from 8 place }
{
    for turn in 0..COUNT / 8 {
        let word = words[from + turn];
        for k in 0..8 {
            bytes[turn * 8 + k] = ((word >> (k * 8)) % (1 << 8)) as u8;
        }
    }
}

/// The numbers of 16 bits in the words from word `from` on.
pub(crate) fn read_halves(words: &[u64], from: usize, numbers: &mut [u16; 256])
    requires long { from + 64 ≤ length words.now }
    ensures { (place : ℕ) → place < 256 → slice_index numbers.new place ≡ number_at words.now from 16 place }
{
    for turn in 0..64 {
        let word = words[from + turn];
        for k in 0..4 {
            numbers[turn * 4 + k] = ((word >> (k * 16)) % (1 << 16)) as u16;
        }
    }
}

/// The numbers of 32 bits in the words from word `from` on.
pub(crate) fn read_wide(words: &[u64], from: usize, numbers: &mut [u32; 256])
    requires long { from + 128 ≤ length words.now }
    ensures { (place : ℕ) → place < 256 → slice_index numbers.new place ≡ number_at words.now from 32 place }
{
    for turn in 0..128 {
        let word = words[from + turn];
        for k in 0..2 {
            numbers[turn * 2 + k] = ((word >> (k * 32)) % (1 << 32)) as u32;
        }
    }
}
