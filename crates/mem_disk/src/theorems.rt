//! What no single call says of a crash.

ghost use Rattle.disk_face.specs.View.{files};
ghost use Rattle.mem_disk.specs.declared.memory.MemDisk.{MemDisk};
ghost use Rattle.mem_disk.specs.Picks.{EachImageHasPicks};
ghost use Rattle.mem_disk.specs.Seen.{seen};

use crate::memory::MemDisk;
use disk_face::Disk;

/// Whatever a crash may leave of a disk, if tables, and files whose removal failed, stand in it as they read, there
/// are picks that name it.
pub fn each_image_has_a_pick()
    ensures { (disk : MemDisk) → EachImageHasPicks (files (seen disk)) }
{}
