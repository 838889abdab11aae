//! Laws of packed words. The function does nothing.
ghost use Rattle.lst_pack.specs.Laws.{StandsForOne, RestIsFree, ZerosAreZeros};

/// Words stand for one list of values at most; words past a page's form don't matter; and 257 words of 0 stand for 256 values of 0.
pub fn packed_words()
    ensures one { StandsForOne }
    ensures rest { RestIsFree }
    ensures zeros { ZerosAreZeros }
{}
