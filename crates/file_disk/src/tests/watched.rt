//! The files of the system, seen at work: how many are opened, what is called in which order, and one call that is
//! refused.

use crate::LockFiles;
use crate::paths::{PARENT, UNNAMED_TABLE};
use std::alloc::{Allocator, Global};
use std::cell::Cell;
use std::fs::{Metadata, OpenFile, OpenOptions, TryLockError};
use std::io;
use std::io::{ErrorKind, Read, Seek, SeekFrom, Write};
use std::rt::Files;

/// A call that may be refused.
#[derive(Clone, Copy, PartialEq, Eq, Debug)]
pub enum Call {
    SyncParent,
    SyncDirectory,
    SyncSegment,
    SyncTable,
    Write,
    Rename,
    Remove,
    OpenFolder,
    Lock,
    Metadata,
}

/// How many calls are seen in their order.
pub const CALLS_SEEN: usize = 8;

/// What is seen, and which call is refused.
#[derive(Drop)]
pub struct Watch {
    pub opened: Cell<u32>,
    pub parent_syncs: Cell<u32>,
    pub locked: Cell<u32>,
    /// What stands in place of the folder of the program.
    pub folder: Cell<&'static str>,
    pub refused: Cell<Option<(Call, ErrorKind)>>,
    /// The first calls, in their order, with those that are refused.
    pub calls: Cell<[Option<Call>; CALLS_SEEN]>,
    /// Names that each directory tells first, each ended by a NUL.
    pub first_names: Cell<&'static [u8]>,
    /// The number of the error by which a directory fails after it told names.
    pub names_end: Cell<Option<i32>>,
}

impl Watch {
    pub fn new() -> Watch {
        Watch {
            opened: Cell::new(0),
            parent_syncs: Cell::new(0),
            locked: Cell::new(0),
            folder: Cell::new(PARENT),
            refused: Cell::new(None),
            calls: Cell::new([None; CALLS_SEEN]),
            first_names: Cell::new(b""),
            names_end: Cell::new(None),
        }
    }

    fn ask(&self, call: Call) -> io::Result<()> {
        self.see(call);
        match self.refused.get() {
            Some((refused, kind)) if refused == call => Err(kind.into()),
            _ => Ok(()),
        }
    }

    fn see(&self, call: Call) {
        let mut calls = self.calls.get();
        for seen in calls.iter_mut() {
            if seen.is_none() {
                *seen = Some(call);
                break;
            }
        }
        self.calls.set(calls);
    }
}

/// The system under a watch.
#[derive(Clone, Copy)]
pub struct Watched<'a> {
    pub system: &'a HostRuntime,
    pub watch: &'a Watch,
}

impl Alloc for Watched<'_> {
    type A = Global;

    fn alloc(&self) -> Global {
        self.system.alloc()
    }
}

/// An open file under a watch.
#[derive(Drop)]
pub struct WatchedFile<'a> {
    file: <HostRuntime as Files>::File,
    sync: Call,
    watch: &'a Watch,
}

impl Read for WatchedFile<'_> {
    fn read(&mut self, buf: &mut [u8]) -> io::Result<usize> {
        self.file.read(buf)
    }
}

impl Write for WatchedFile<'_> {
    fn write(&mut self, buf: &[u8]) -> io::Result<usize> {
        self.watch.ask(Call::Write)?;
        // The system may take a part alone.
        let some = buf.len().min(2);
        self.file.write(&buf[..some])
    }

    fn flush(&mut self) -> io::Result<()> {
        self.file.flush()
    }
}

impl Seek for WatchedFile<'_> {
    fn seek(&mut self, to: SeekFrom) -> io::Result<u64> {
        self.file.seek(to)
    }
}

impl OpenFile for WatchedFile<'_> {
    fn metadata(&self) -> io::Result<Metadata> {
        self.file.metadata()
    }

    fn set_len(&self, size: u64) -> io::Result<()> {
        self.file.set_len(size)
    }

    fn sync_all(&self) -> io::Result<()> {
        self.watch.ask(self.sync)?;
        if self.sync == Call::SyncParent {
            self.watch
                .parent_syncs
                .set(self.watch.parent_syncs.get().saturating_add(1));
        }
        self.file.sync_all()
    }

    fn sync_data(&self) -> io::Result<()> {
        self.file.sync_data()
    }
}

/// A directory under a watch.
#[derive(Drop)]
pub struct WatchedDir<'a> {
    names: <HostRuntime as Files>::Dir,
    first_names: &'static [u8],
    is_begun: bool,
    watch: &'a Watch,
}

impl Read for WatchedDir<'_> {
    fn read(&mut self, buf: &mut [u8]) -> io::Result<usize> {
        if !self.first_names.is_empty() {
            let count = self.first_names.read(buf)?;
            return Ok(count);
        }
        match self.watch.names_end.get() {
            Some(number) if self.is_begun => Err(io::Error::from_raw_os_error(number)),
            _ => {
                self.is_begun = true;
                self.names.read(buf)
            }
        }
    }
}

impl<'a> Files for Watched<'a> {
    type File = WatchedFile<'a>;

    type Dir = WatchedDir<'a>;

    fn open_file(&self, how: &OpenOptions, path: &str) -> io::Result<WatchedFile<'a>> {
        let sync = match path {
            PARENT => Call::SyncParent,
            _ if path.ends_with(".log") => Call::SyncSegment,
            UNNAMED_TABLE => Call::SyncTable,
            _ => Call::SyncDirectory,
        };
        let path = if path == PARENT {
            self.watch.ask(Call::OpenFolder)?;
            self.watch.folder.get()
        } else {
            path
        };
        self.watch
            .opened
            .set(self.watch.opened.get().saturating_add(1));
        Ok(WatchedFile {
            file: self.system.open_file(how, path)?,
            sync,
            watch: self.watch,
        })
    }

    fn open_dir(&self, path: &str) -> io::Result<Self::Dir> {
        Ok(WatchedDir {
            names: self.system.open_dir(path)?,
            first_names: self.watch.first_names.get(),
            is_begun: false,
            watch: self.watch,
        })
    }

    fn metadata(&self, path: &str) -> io::Result<Metadata> {
        if path.ends_with(".log") || path.ends_with(".tab") {
            self.watch.ask(Call::Metadata)?;
        }
        self.system.metadata(path)
    }

    fn symlink_metadata(&self, path: &str) -> io::Result<Metadata> {
        self.system.symlink_metadata(path)
    }

    fn copy(&self, from: &str, to: &str) -> io::Result<u64> {
        self.system.copy(from, to)
    }

    fn rename(&self, from: &str, to: &str) -> io::Result<()> {
        self.watch.ask(Call::Rename)?;
        self.system.rename(from, to)
    }

    fn remove_file(&self, path: &str) -> io::Result<()> {
        self.watch.ask(Call::Remove)?;
        self.system.remove_file(path)
    }

    fn create_dir(&self, path: &str) -> io::Result<()> {
        self.system.create_dir(path)
    }

    fn remove_dir(&self, path: &str) -> io::Result<()> {
        self.system.remove_dir(path)
    }

    fn remove_dir_all<B: Allocator>(&self, alloc: B, path: &str) -> io::Result<()> {
        self.system.remove_dir_all(alloc, path)
    }
}

impl LockFiles for Watched<'_> {
    fn try_lock(&self, file: &Self::File) -> Result<(), TryLockError> {
        match self.watch.ask(Call::Lock) {
            Ok(()) => {}
            Err(error) if error.kind() == ErrorKind::WouldBlock => {
                return Err(TryLockError::WouldBlock);
            }
            Err(error) => return Err(TryLockError::Error(error)),
        }
        self.watch
            .locked
            .set(self.watch.locked.get().saturating_add(1));
        self.system.try_lock(&file.file)
    }
}
