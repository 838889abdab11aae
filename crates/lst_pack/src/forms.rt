//! The five forms of a page of 256 values.
ghost use Rattle.std.specs.Prelude.{◌≡◌};
ghost use Rattle.lst_pack.specs.Forms.{form_word, form_words};

/// The form of a packed page. Its first word is the form's kind plus eight times the number that the form has.
#[derive(Clone, Copy, PartialEq, Eq, Debug)]
pub enum Form {
    /// Kind 1: one value, which stands at each place.
    Constant,
    /// Kind 2: `size` values, then 16 words of 16 codes of 4 bits, each the place of a value among them.
    Dictionary { size: u32 },
    /// Kind 3: for each of `runs` runs its value and the place after its end.
    Runs { runs: u32 },
    /// Kind 4, a frame of reference: a base, then differences from it of `width` bits.
    Reference { width: u32 },
    /// Kind 0: the 256 values.
    Plain,
}
