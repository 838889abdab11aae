//! A file of the system: each method makes the call that it notes.
ghost use Rattle.std.specs.Prelude.{◌≡◌, ◌<◌, [], IfOk};
ghost use Rattle.std.specs.Prelude.{pos, ◌<ℤ◌};
ghost use Rattle.std.specs.Fd.{file_raw_fd};
ghost use Rattle.lst_file.specs.Events.{Event};

use crate::calls::Calls;
use crate::record::Record;
use std::fs::File;
use std::io;
use std::os::unix::fs::FileExt;

const MEASURED: u64 = 0;

const FLUSHED: u64 = 1;

const FOUND: u64 = 2;

const WROTE: u64 = 3;

const FAILED: u64 = 4;

const SYNCED: u64 = 5;

const UNSYNCED: u64 = 6;

/// An open file of the system, and the folder that names it. The file's descriptor is none of a standard stream, so that nothing that is meant for one lands in it.
///
/// That the record tells what was done has to be read: no prover sees the file. Each method of `Calls` below makes one call of the system (`flush` two) and
/// notes it, by its outcome. A body that notes a sync and makes none would be proved as well.
#[derive(Drop)]
pub struct SystemFile {
    file: File,
    folder: File,
    calls: Record,
    ghost above: { pos 2 <ℤ file_raw_fd file },
}

impl SystemFile {
    /// Takes an open file and its folder, with no call noted.
    pub(crate) fn new(file: File, folder: File) -> SystemFile
        requires { pos 2 <ℤ file_raw_fd file }
        ensures { result.calls.events ≡ [] }
    {
        SystemFile {
            file,
            folder,
            calls: Record::new(),
        }
    }
}

/// Syncs a file and its folder.
fn settle(file: &File, folder: &File) -> io::Result<()> {
    file.sync_all()?;
    folder.sync_all()
}

impl Calls for SystemFile {
    ghost events = { λ f. f.calls.events };

    fn measure(&mut self) -> io::Result<u64> {
        let count = self.file.metadata()?.len();
        self.calls.note(&[MEASURED, count], &[]);
        Ok(count)
    }

    fn flush(&mut self) -> io::Result<()> {
        let answer = settle(&self.file, &self.folder);
        match answer {
            Ok(()) => self.calls.note(&[FLUSHED, 0], &[]),
            Err(_) => self.calls.note(&[UNSYNCED, 0], &[]),
        }
        answer
    }

    fn read(&mut self, place: u64, into: &mut [u8]) -> io::Result<()> {
        self.file.read_exact_at(into, place)?;
        self.calls.note(&[FOUND, place], into);
        Ok(())
    }

    fn write(&mut self, place: u64, from: &[u8]) -> io::Result<()> {
        let answer = self.file.write_all_at(from, place);
        match answer {
            Ok(()) => self.calls.note(&[WROTE, place], from),
            Err(_) => self.calls.note(&[FAILED, place], from),
        }
        answer
    }

    fn sync(&mut self) -> io::Result<()> {
        let answer = self.file.sync_data();
        match answer {
            Ok(()) => self.calls.note(&[SYNCED, 0], &[]),
            Err(_) => self.calls.note(&[UNSYNCED, 0], &[]),
        }
        answer
    }
}
