//! The word of a posting.
ghost use Rattle.std.specs.Prelude.{◌≡◌, ◌<◌};
ghost use Rattle.lst_bits.specs.Postings.{posting_word, posting_of, IsPosting, IsPostingWord, PostingsArePacked};

/// The word of a posting: 0 empty, else the identifier of the tail record, which counts those of all ranges from 1 on.
#[inline(always)]
pub fn pack_posting(tail: Option<u32>) -> u64
    ensures word { result ≡ posting_word tail }
    ensures image { IsPostingWord result }
{
    match tail {
        None => 0,
        Some(tail) => tail as u64,
    }
}

/// The identifier of a posting's tail record, if there is one.
#[inline(always)]
pub fn unpack_posting(word: u64) -> Option<u32>
    requires { IsPostingWord word }
    ensures posting { result ≡ posting_of word }
    ensures range { IsPosting result }
    ensures word { posting_word result ≡ word }
{
    if word == 0 { None } else { Some(word as u32) }
}

/// Packing and unpacking undo one another.
pub fn postings_are_packed()
    ensures { PostingsArePacked }
{}
