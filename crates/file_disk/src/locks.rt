//! The locks that keep a second run out of the same segments.

ghost use Rattle.std.specs.Prelude.{◌≡◌, None, OnErr};
ghost use Rattle.file_disk.specs.Locked.{StaysLocked, KeepsLocks, OtherLockStays, LocksNoDirectory};

use crate::paths::{PARENT, slashed_directory_of};
use disk_face::Side;
use std::fs::{File, TryLockError};
use std::io;
use std::io::ErrorKind;
use std::rt::Files;

/// `File::try_lock`, for code that is generic over `Files`.
pub trait LockFiles: Files {
    /// Takes the exclusive lock on an open file or directory, without waiting. The lock lasts as long as the file is open.
    fn try_lock(&self, file: &Self::File) -> Result<(), TryLockError>;
}

impl LockFiles for HostRuntime {
    fn try_lock(&self, file: &File) -> Result<(), TryLockError> {
        file.try_lock()
    }
}

/// The locks of a disk, each held by an open directory: on the folder in which the program runs, and on the directory of
/// each side.
///
/// Two runs at once would write segments of the same names, and neither could be told from the other's afterwards. So what
/// was locked stays locked until this is dropped. The folder is locked because either directory may be made by both runs
/// after they looked; a directory, because links in two folders may lead to one.
///
/// A directory that is not there is not locked, and is tried again at the next call. Where the file system knows no such
/// lock, the open directory is kept all the same, and keeps nobody out.
#[derive(Drop)]
pub struct Locks<F> {
    folder: Option<F>,
    primary: Option<F>,
    secondary: Option<F>,
}

impl<F: Drop> Locks<F> {
    /// Holds no lock.
    pub fn new() -> Locks<F>
        ensures folder { result.folder ≡ None }
        ensures primary { result.primary ≡ None }
        ensures secondary { result.secondary ≡ None }
    {
        Locks {
            folder: None,
            primary: None,
            secondary: None,
        }
    }

    /// Locks the folder and the directory of a side, where that was not done. Where another has the folder, the directory
    /// is left alone.
    pub fn take<R: LockFiles<File = F>>(&mut self, rt: &R, side: Side) -> io::Result<()>
        ensures keeps { KeepsLocks self.old self.new }
        ensures other { OtherLockStays side self.old self.new }
        ensures err { OnErr result (LocksNoDirectory self.old self.new) }
    {
        hold(rt, &mut self.folder, PARENT)?;
        let path = slashed_directory_of(side);
        match side {
            Side::Primary => hold(rt, &mut self.primary, path),
            Side::Secondary => hold(rt, &mut self.secondary, path),
        }
    }
}

/// Opens a directory and locks it, where that was not done.
fn hold<R: LockFiles>(rt: &R, held: &mut Option<R::File>, path: &str) -> io::Result<()>
    ensures keeps { StaysLocked held.old held.new }
    ensures err { OnErr result (held.new ≡ held.old) }
{
    if held.is_some() {
        return Ok(());
    }
    let directory = match File::open(rt, path) {
        Ok(directory) => directory,
        Err(error) if error.kind() == ErrorKind::NotFound => return Ok(()),
        Err(error) => return Err(error),
    };
    match rt.try_lock(&directory) {
        Err(TryLockError::WouldBlock) => Err(ErrorKind::WouldBlock.into()),
        Ok(()) | Err(TryLockError::Error(_)) => {
            *held = Some(directory);
            Ok(())
        }
    }
}
