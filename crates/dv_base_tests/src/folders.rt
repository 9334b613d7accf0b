// Folders in memory.
ghost use Rattle.std.specs.Prelude.{◌≡◌, IsErrOf, []};
ghost use Rattle.dv_outside.specs.MemoryFolders.{folder_fails, folder_faults};

use dv_outside::{Folder, FolderError, MemoryFolder};
use dv_text::{List, Text};
use std::alloc::Global;

// Over a folder in memory that is to fail at no call no read fails, and the count of faults stays.
fn read_quietly(
    alloc: Global,
    folder: &mut MemoryFolder,
    name: &Text,
    most: u64,
) -> Result<List<u8>, FolderError>
    requires { folder_fails folder.old ≡ [] }
    ensures works { IsErrOf result FolderError.Failed → ⊥ }
    ensures faults { folder_faults folder.new ≡ folder_faults folder.old }
    ensures plan { folder_fails folder.new ≡ [] }
{
    folder.read(alloc, name, most)
}

#[test]
fn a_folder_without_planned_failures_does_not_fail(rt: HostRuntime) {
    let alloc = rt.alloc();
    let mut folder = MemoryFolder::new(List::new(alloc), List::new(alloc));
    let name = Text::of(alloc, b"w1").expect(&rt, "memory");
    let read = read_quietly(alloc, &mut folder, &name, 3);
    assert!(rt; matches!(read, Err(FolderError::Absent)));
}
