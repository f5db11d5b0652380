// The files of the machine, by their paths.
ghost use Rattle.std.specs.Prelude.{◌≡◌, ◌≤◌, None, length, IfOk};
ghost use Rattle.dt_host.specs.Cause.{HasRisen};

use dt_host::{Store, StoreErr};
use std::alloc::{AllocError, Global};
use std::fs::File;
use std::io::{ErrorKind, Write};
use std::os::unix::fs::FileExt;
use std::rt::Files;
use std::{fs, io};

/// A store whose names are paths of the machine. It tells no content: what a path holds may change at any time.
#[derive(Drop)]
pub struct FolderStore<R> {
    rt: R,
    faults: u64,
}

impl<R> FolderStore<R> {
    /// A store over the files of `rt` that has had no fault yet.
    pub fn new(rt: R) -> Self
        ensures over { result.rt ≡ rt }
        ensures fresh { result.faults ≡ 0 }
    {
        FolderStore { rt, faults: 0 }
    }

    fn fail(&mut self) -> StoreErr
        ensures failed { result ≡ StoreErr.Failed }
        ensures later { self.old.faults ≤ self.new.faults }
        ensures rose { HasRisen self.old.faults self.new.faults }
    {
        self.faults = self.faults.saturating_add(1);
        StoreErr::Failed
    }
}

impl<R: AllocGlobal + Files<File = File>> Store for FolderStore<R> {
    ghost told = { λ _. None };

    ghost count = { λ store. store.faults };

    fn faults(&self) -> u64 {
        self.faults
    }

    // What stands at the path, as a folder, and is no file is a fault, and so is a path through a file.
    fn size(&mut self, name: &str) -> Result<Option<u64>, StoreErr> {
        match fs::metadata(&self.rt, name) {
            Ok(found) if found.is_file() => Ok(Some(found.len())),
            Err(error) if error.kind() == ErrorKind::NotFound => Ok(None),
            _ => Err(self.fail()),
        }
    }

    // A file that ends before the size that was told is a fault.
    fn read_at(&mut self, name: &str, off: u64, buf: &mut [u8]) -> Result<usize, StoreErr> {
        match read_piece(&self.rt, name, off, buf) {
            Ok(count) if count > 0 => Ok(count),
            _ => Err(self.fail()),
        }
    }
    // The bytes are written to a new file beside the path, which then takes its place: no path holds a part of them.
    fn put(&mut self, name: &str, bytes: &[u8]) -> Result<(), StoreErr> {
        let beside = path_beside(self.rt.alloc(), name)?;
        match put_by(&self.rt, beside.as_str(), name, bytes) {
            Ok(()) => Ok(()),
            Err(_) => Err(self.fail()),
        }
    }
}

fn read_piece<R: Files<File = File>>(
    rt: &R,
    name: &str,
    off: u64,
    buf: &mut [u8],
) -> io::Result<usize>
    ensures { IfOk result (λ count. count ≤ length buf.old) }
{
    fs::open(rt, name)?.read_at(buf, off)
}

// A path in the folder of a path whose last name no blob has: it begins with a `.`. A file has so long a name only
// where the blob's name has at most 250 bytes.
fn path_beside(alloc: Global, path: &str) -> Result<String, AllocError> {
    match path.rsplit_once('/') {
        Some((folder, name)) => format!(in alloc; "{folder}/.{name}.new"),
        None => format!(in alloc; ".{path}.new"),
    }
}

// Writes a new file and gives it the other path. Where that fails the new file goes.
fn put_by<R: Files<File = File>>(rt: &R, new: &str, path: &str, bytes: &[u8]) -> io::Result<()> {
    let put = write_new(rt, new, bytes).and_then(|()| fs::rename(rt, new, path));
    if put.is_err() {
        let _ = fs::remove_file(rt, new);
    }
    put
}

// Writes a file, in place of what a run that was killed has left there.
fn write_new<R: Files<File = File>>(rt: &R, path: &str, bytes: &[u8]) -> io::Result<()> {
    let _ = fs::remove_file(rt, path);
    File::create_new(rt, path)?.write_all(bytes)
}
