//! A new file beside the one that is to be written, whose place it takes once it is whole.

ghost use Rattle.std.specs.Prelude.{◌≤◌, IfOk, length};

use std::fs::{File, Metadata, OpenOptions, Permissions};
use std::io::{Error, ErrorKind, Write};
use std::os::unix::fs::{MetadataExt, PermissionsExt, fchown};
use std::path::{Path, PathBuf};
use std::{fs, io, process};

// How many names are tried for it.
const MOST_NAMES: u32 = 1000;

// Who may read, write and run a file, of its mode.
const RIGHTS: u32 = 0o777;

/// The new file, with its path and that of the other one.
#[derive(Drop)]
pub(crate) struct Beside {
    file: File,
    path: PathBuf,
    place: PathBuf,
}

impl Beside {
    /// A new file for a path where nothing is. A link that leads nowhere is something.
    pub(crate) fn new(rt: &HostRuntime, path: &str) -> io::Result<Beside> {
        if fs::symlink_metadata(rt, path).is_ok() {
            return Err(Error::from(ErrorKind::NotFound));
        }
        Beside::at(rt, PathBuf::from_str(rt.alloc(), path)?)
    }

    /// A new file with the rights of the old one, which this process may write; where a link leads there, in its folder.
    pub(crate) fn instead(rt: &HostRuntime, path: &str, old: &Metadata) -> io::Result<Beside> {
        OpenOptions::new().write(true).open(rt, path)?;
        let place = if fs::symlink_metadata(rt, path)?.is_symlink() {
            fs::canonicalize(rt, path)?
        } else {
            PathBuf::from_str(rt.alloc(), path)?
        };
        let beside = Beside::at(rt, place)?;
        match beside.take_rights(old) {
            Ok(()) => Ok(beside),
            Err(error) => {
                beside.remove(rt);
                Err(error)
            }
        }
    }

    // A new file in the folder of the place, under a name that nothing there has.
    fn at(rt: &HostRuntime, place: PathBuf) -> io::Result<Beside> {
        for turn in 0..MOST_NAMES {
            let path = name_beside(rt, place.as_path(), turn)?;
            match File::create_new(rt, path.as_path()) {
                Ok(file) => return Ok(Beside { file, path, place }),
                Err(error) if error.kind() == ErrorKind::AlreadyExists => {}
                Err(error) => return Err(error),
            }
        }
        Err(Error::from(ErrorKind::AlreadyExists))
    }

    // The new file belongs to who the old one belongs to, where this process may say so, and has its rights.
    fn take_rights(&self, old: &Metadata) -> io::Result<()> {
        let _taken = fchown(&self.file, Some(old.uid()), Some(old.gid()));
        self.file
            .set_permissions(Permissions::from_mode(old.mode() & RIGHTS))
    }

    /// Writes some of the bytes, and answers how many.
    pub(crate) fn write(&mut self, bytes: &[u8]) -> io::Result<usize>
        ensures { IfOk result (λ n. n ≤ length bytes.now) }
    {
        self.file.write(bytes)
    }

    /// The file takes its place.
    pub(crate) fn take_place(&mut self, rt: &HostRuntime) -> io::Result<()> {
        self.file.sync_all()?;
        fs::rename(rt, self.path.as_path(), self.place.as_path())
    }

    /// Takes the file away.
    pub(crate) fn remove(&self, rt: &HostRuntime) {
        let _gone = fs::remove_file(rt, self.path.as_path());
    }
}

// A name beside the place, which no other process tries.
fn name_beside(rt: &HostRuntime, place: Path<'_>, turn: u32) -> io::Result<PathBuf> {
    let process = process::id(rt.process());
    let name = format!(in rt.alloc(); ".mulkavesh-{process}-{turn}")?;
    Ok(place.with_file_name(rt.alloc(), name.as_str())?)
}
