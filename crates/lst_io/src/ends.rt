//! The two ends of a program, each with its count of faults.
ghost use Rattle.std.specs.Prelude.{◌<◌, ℕ, List, Option, length, IfOk};
ghost use Rattle.std.specs.Io.{ReadsAtMost, WritesAtMost};
ghost use Rattle.std.specs.Io.KnownBytes.{ReadConsumes, WriteAppends};
ghost use Rattle.lst_model.specs.Faults.{HasCause};

/// A read or a write failed: it gave or took no byte.
#[derive(Clone, Copy, Debug, PartialEq, Eq)]
pub struct Failed;

/// What gives bytes.
pub trait Source {
    /// The bytes that reads give from here on, where the source tells them.
    ghost left: { Self → Option (List ℕ) };

    /// How often a read has failed. The count never falls, and one that stands at the last value of `u64` counts as risen.
    ghost faults: { Self → ℕ };

    /// Puts the next bytes at the front of `into` and answers how many: at most as many as `into` has room for, and none
    /// only at the end of the input or where there is no room. A failure takes no byte, and comes only where the count of
    /// faults has risen.
    fn read(&mut self, into: &mut [u8]) -> Result<usize, Failed>
        ensures bound { ReadsAtMost result into.new }
        ensures bytes { ReadConsumes (left self.old) (left self.new) result into.new }
        ensures cause { HasCause (faults self.old) (faults self.new) result };
}

/// What takes bytes.
pub trait Sink {
    /// The bytes that were taken so far, where the sink tells them.
    ghost taken: { Self → Option (List ℕ) };

    /// How often a write has failed. The count never falls, and one that stands at the last value of `u64` counts as risen.
    ghost faults: { Self → ℕ };

    /// Takes bytes from the front of `from` and answers how many: at least one where `from` isn't empty. A failure takes
    /// no byte, and comes only where the count of faults has risen.
    fn write(&mut self, from: &[u8]) -> Result<usize, Failed>
        ensures bound { WritesAtMost result from.now }
        ensures some { 0 < length from.now → IfOk result (λ count. 0 < count) }
        ensures bytes { WriteAppends (taken self.old) (taken self.new) result from.now }
        ensures cause { HasCause (faults self.old) (faults self.new) result };
}
