//! A file is found by its name, made where it is missing, and locked.
ghost use Rattle.std.specs.Prelude.{◌≡◌, [], IfOk};
ghost use Rattle.std.specs.Prelude.{pos, ◌<ℤ◌};
ghost use Rattle.std.specs.Fd.{file_raw_fd};
ghost use Rattle.lst_file.specs.Openings.{WasOpened};
ghost use Rattle.lst_file.specs.Files.{file_events, file_content, file_offset};

use crate::file_disk::FileDisk;
use crate::opening::OpenFault;
use crate::system::SystemFile;
use std::fs::{self, File, Metadata, OpenOptions, TryLockError};
use std::io;
use std::os::fd::AsRawFd;
use std::os::unix::fs::MetadataExt;

/// Opens the file at a path as a disk, as `FileDisk::open` does. Where `offset` is 0 a file that is missing is made; behind a head it isn't, since the head would be missing.
///
/// The file is locked for this open alone, until the disk is dropped; an opening that finds the lock taken is `Busy`. Only a regular file with one name is opened, and no
/// symbolic link at its name is followed. The file's descriptor is none of a standard stream. What of this no clause can say is tested.
pub fn open(
    rt: &HostRuntime,
    path: &str,
    offset: u32,
    size: u32,
) -> Result<FileDisk<SystemFile>, OpenFault>
    ensures opened { IfOk result (λ disk. WasOpened offset size [] (file_events disk) (file_content disk)) }
    ensures offset { IfOk result (λ disk. file_offset disk ≡ offset) }
{
    let file = find(rt, path, offset == 0)?;
    match FileDisk::open(rt.alloc(), file, offset, size) {
        Ok(disk) => Ok(disk),
        Err((fault, _)) => Err(fault),
    }
}

/// The file at a path, locked, with no call made on it.
fn find(rt: &HostRuntime, path: &str, is_made: bool) -> Result<SystemFile, OpenFault>
    ensures { IfOk result (λ file. file.calls.events ≡ []) }
{
    let file = above_streams(open_or_make(rt, path, is_made)?)?;
    match file.try_lock() {
        Ok(()) => {}
        Err(TryLockError::WouldBlock) => return Err(OpenFault::Busy),
        Err(TryLockError::Error(error)) => return Err(OpenFault::System { error }),
    }
    if !is_one_file(&file.metadata()?, &fs::symlink_metadata(rt, path)?) {
        return Err(OpenFault::NotOneFile);
    }
    let mut folder = fs::canonicalize(rt, path)?;
    folder.pop();
    Ok(SystemFile::new(file, File::open(rt, folder.as_str())?))
}

/// Opens what stands at a path, or makes it. `create_new` follows no link, and where the name is taken it has to be a regular file's.
fn open_or_make(rt: &HostRuntime, path: &str, is_made: bool) -> Result<File, OpenFault> {
    if is_made {
        match OpenOptions::new()
            .read(true)
            .write(true)
            .create_new(true)
            .open(rt, path)
        {
            Ok(file) => return Ok(file),
            Err(error) if error.kind() == io::ErrorKind::AlreadyExists => {}
            Err(error) => return Err(OpenFault::System { error }),
        }
    }
    if !fs::symlink_metadata(rt, path)?.is_file() {
        return Err(OpenFault::NotOneFile);
    }
    Ok(OpenOptions::new().read(true).write(true).open(rt, path)?)
}

/// The same open file by a descriptor above those of the standard streams: where one of them was closed, the next file that is opened gets its number, and what is
/// meant for that stream would be written into the file.
fn above_streams(file: File) -> Result<File, OpenFault>
    ensures { IfOk result (λ above. pos 2 <ℤ file_raw_fd above) }
{
    if file.as_raw_fd() > 2 {
        return Ok(file);
    }
    let above = file.try_clone()?;
    if above.as_raw_fd() > 2 {
        return Ok(above);
    }
    Err(OpenFault::System {
        error: io::ErrorKind::Unsupported.into(),
    })
}

/// Whether an open file is the one that its name leads to, is a regular one, and has no second name.
fn is_one_file(open: &Metadata, named: &Metadata) -> bool {
    let is_named = open.dev() == named.dev() && open.ino() == named.ino();
    is_named && open.is_file() && open.nlink() == 1
}
