// A file that a command needs.
ghost use Rattle.dv_outside.specs.Seen.{seen};
ghost use Rattle.dv_given.specs.FolderReads.{ReadsNamed};

use crate::endings::Ending;
use dv_outside::{Folder, FolderError};
use dv_text::{Duplicate, List, Text};
use std::alloc::Global;

/// The first bytes of a file, at most `most`.
pub(crate) fn read_named<F: Folder>(
    alloc: Global,
    folder: &mut F,
    name: &Text,
    most: u64,
) -> Result<List<u8>, Ending>
    ensures { ReadsNamed most name.now (seen F.files F.faults folder.old folder.new) result }
{
    let Ok(wanted) = name.copy() else {
        return Err(Ending::Memory);
    };
    match folder.read(alloc, name, most) {
        Ok(bytes) => Ok(bytes),
        Err(FolderError::Absent) => Err(Ending::Absent(wanted)),
        Err(FolderError::Failed) => Err(Ending::Unread(wanted)),
        Err(FolderError::Memory) => Err(Ending::Memory),
    }
}
