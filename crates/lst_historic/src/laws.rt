//! Laws of the definitions. Each function is a law: its contract holds at all values, and its body does nothing.
ghost use Rattle.std.specs.Prelude.{◌≡◌, ◌<◌, ℕ, List, ◌++◌, Some, slice_index};
ghost use Rattle.lst_model.specs.declared.commits.Commit.{Commit};
ghost use Rattle.lst_model.specs.Soundness.{IsSound};
ghost use Rattle.lst_historic.specs.Blocks.{Chain, IsBlock, AreActs, block};
ghost use Rattle.lst_historic.specs.Places.{HasBlock};
ghost use Rattle.lst_historic.specs.Tabled.{IsTabled};
ghost use Rattle.lst_historic.specs.Example.{AreBlocks};
ghost use Rattle.lst_historic.specs.Numbers.{spelled, number_at, IsShortest};

/// The spelling of a number is the one in the fewest bytes. It is read again whatever follows it, and what is read is spelled so.
pub fn number_has_one_spelling()
    ensures shortest { (number : ℕ) → IsShortest number (spelled number) }
    ensures again { (number : ℕ) (rest : List ℕ) → number_at (spelled number ++ rest) ≡ Some (number, rest) }
    ensures only { (bytes : List ℕ) (number : ℕ) (rest : List ℕ) → ((i : ℕ) → slice_index bytes i < 256) → number_at bytes ≡ Some (number, rest) → bytes ≡ spelled number ++ rest }
{}

/// The blocks of worked histories, and bytes that are none.
pub fn worked_blocks_are_read_aloud()
    ensures { AreBlocks }
{}

/// A block tells its number of columns, its built time, and each key with its versions.
pub fn block_has_one_meaning()
    ensures { (bytes : List ℕ) (columns width until built : ℕ) (chains others : List Chain) → IsBlock bytes columns until chains → IsBlock bytes width built others → (columns ≡ width) × (until ≡ built) × (chains ≡ others) }
{}

/// The rows of a table as of a time, and the sum of a column, are those that the keys' versions have.
pub fn table_is_that_of_versions()
    ensures { (history : List Commit) (time : ℕ) → IsTabled history time }
{}

/// A sound history whose rows and patches have so many columns, with numbers below 2^64, has its block.
pub fn history_has_its_block()
    ensures { (columns : ℕ) (history : List Commit) → IsSound history → AreActs columns history → HasBlock columns history (block columns history) }
{}
