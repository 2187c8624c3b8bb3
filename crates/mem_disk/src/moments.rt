//! The files at the moments that have passed, for a disk's view. Only proofs read them.

ghost use Rattle.std.specs.Prelude.{◌≡◌, List, [], ◌∷◌, ◌++◌};
ghost use Rattle.mem_disk.specs.declared.parts.MemFile.{MemFile};

use crate::parts::MemFile;
use std::marker::Model;

/// The files at each moment that has passed, in order. It has no bytes, and its methods do nothing when
/// they run, so a moment passes also where there is no memory.
#[derive(Drop)]
pub struct Moments {
    pub ghost past: { List (List MemFile) },
}

impl Model for Moments {
    ghost use Rattle.std.specs.Borrow.{ftrue};

    ghost also_owns = { λ _. ftrue };
}

// It owns nothing.
unsafe impl Send for Moments {}

impl Moments {
    /// No moment has passed.
    pub fn new() -> Moments
        ensures { result.past ≡ [] }
    {
        Moments {}
    }

    /// These moments and one more, at which these files stood.
    pub fn and(&self, files: &Vec<MemFile>) -> Moments
        ensures { result.past ≡ self.now.past ++ files.now.items ∷ [] }
    {
        self.made(files)
    }

    // The moments that the caller's proof makes of these and of the files.
    fn made<A>(&self, _files: &A) -> Moments
        ghost past: { List (List MemFile) }
        ensures { result.past ≡ past }
    {
        Moments {}
    }
}
