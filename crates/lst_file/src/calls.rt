//! What is asked of a file: that it keeps a record of the calls that were made on it.
ghost use Rattle.std.specs.Prelude.{◌≡◌, List, ◌∷◌, MatchResult};
ghost use Rattle.lst_file.specs.Events.{Event, measured, flushed, found, wrote, failed, synced, unsynced};

use std::io;

/// A file that is open for this process alone. Places are counted in bytes from its start.
pub trait Calls {
    /// Each call so far, the newest first.
    ghost events: { Self → List Event };

    /// The number of its bytes. A call that fails isn't noted.
    fn measure(&mut self) -> io::Result<u64>
        ensures { MatchResult result (λ n. events self.new ≡ measured n ∷ events self.old) (λ _. events self.new ≡ events self.old) };

    /// Syncs the file and its folder, so that what is read next lasts.
    fn flush(&mut self) -> io::Result<()>
        ensures { MatchResult result (λ _. events self.new ≡ flushed ∷ events self.old) (λ _. events self.new ≡ unsynced ∷ events self.old) };

    /// The bytes from a place on, as many as `into` has. A call that fails isn't noted.
    fn read(&mut self, place: u64, into: &mut [u8]) -> io::Result<()>
        ensures { MatchResult result (λ _. events self.new ≡ found place into.new ∷ events self.old) (λ _. events self.new ≡ events self.old) };

    /// Writes all of a piece from a place on.
    fn write(&mut self, place: u64, from: &[u8]) -> io::Result<()>
        ensures { MatchResult result (λ _. events self.new ≡ wrote place from.now ∷ events self.old) (λ _. events self.new ≡ failed place from.now ∷ events self.old) };

    /// Makes all that was written last.
    fn sync(&mut self) -> io::Result<()>
        ensures { MatchResult result (λ _. events self.new ≡ synced ∷ events self.old) (λ _. events self.new ≡ unsynced ∷ events self.old) };
}
