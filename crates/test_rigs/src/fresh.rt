//! A disk in memory on which nothing has happened.

ghost use Rattle.std.specs.Prelude.{◌≡◌, None};
ghost use Rattle.disk_face.specs.View.{Place, files, NothingInFlight};
ghost use Rattle.mem_disk.specs.Seen.{seen};

use mem_disk::MemDisk;
use std::alloc::Global;
use wal_base::NoMemory;

/// A disk on which nothing stands and nothing is in flight.
#[derive(Drop)]
pub struct Fresh {
    disk: MemDisk,
    ghost idle: { NothingInFlight (seen disk) },
    ghost empty: { (p : Place) → files (seen disk) p ≡ None },
}

impl Fresh {
    /// `Err` means out of memory.
    pub fn new(alloc: Global) -> Result<Fresh, NoMemory> {
        let disk = MemDisk::new(alloc)?;
        Ok(Fresh { disk })
    }

    /// The operation of that number is to fail. `Err` means out of memory.
    pub fn fail_op(&mut self, number: u64) -> Result<(), NoMemory> {
        self.disk.fail_op(number)
    }

    pub fn into_disk(self) -> MemDisk
        ensures idle { NothingInFlight (seen result) }
        ensures empty { (p : Place) → files (seen result) p ≡ None }
    {
        let Fresh { disk } = self;
        disk
    }
}
