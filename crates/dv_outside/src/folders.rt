ghost use Rattle.std.specs.Prelude.{◌≡◌, List, ℕ, Option};
ghost use Rattle.dv_outside.specs.declared.folders.NamedFile.{NamedFile};
ghost use Rattle.dv_outside.specs.Causes.{FolderCause};
ghost use Rattle.dv_outside.specs.Files.{ReadsFile};

use dv_text::{List, Text};
use std::alloc::Global;

/// A call of the outside failed.
#[derive(Clone, Copy, Debug, PartialEq, Eq)]
pub struct Failed;

/// Why a file was not read.
#[derive(Clone, Copy, Debug, PartialEq, Eq)]
pub enum FolderError {
    Failed,
    Absent,
    Memory,
}

/// A file: its name and its bytes.
#[derive(Debug, PartialEq, Eq, Drop)]
pub struct NamedFile {
    pub name: Text,
    pub bytes: List<u8>,
}

/// A folder whose files are read.
pub trait Folder {
    /// The files, where the folder tells them.
    ghost files: { Self → Option (List NamedFile) };

    /// How often it has failed.
    ghost faults: { Self → ℕ };

    /// The first `most` bytes of the file of this name, or all where it is shorter. `Absent` exactly
    /// where the folder has no file of the name; `Failed` only where the count of faults rose.
    fn read(&mut self, alloc: Global, name: &Text, most: u64) -> Result<List<u8>, FolderError>
        ensures bytes { ReadsFile (files self.old) name.now most result }
        ensures kept { files self.new ≡ files self.old }
        ensures cause { FolderCause (faults self.old) (faults self.new) result };
}
