ghost use Rattle.std.specs.Prelude.{◌≡◌, ◌↔◌, Some, IfOk, IsErrOf, IsOkUnless, IsTrue, take, if◌then◌else◌};
ghost use Rattle.dv_outside.specs.Causes.{FolderCause};
ghost use Rattle.dv_outside.specs.Files.{ReadsFile};

use crate::calls::Calls;
use crate::folders::{Folder, FolderError, NamedFile};
use dv_text::{List, Text};
use std::alloc::Global;

/// A folder in memory. The first file of a name counts.
#[derive(Debug, Drop)]
pub struct MemoryFolder {
    files: List<NamedFile>,
    calls: Calls,
}

impl MemoryFolder {
    ghost use Rattle.dv_outside.specs.MemoryFolders.{folder_files, folder_reads, folder_fails, folder_faults};

    /// A folder of these files. The reads whose numbers, from 1, are among `fails` are to fail.
    pub fn new(files: List<NamedFile>, fails: List<u64>) -> MemoryFolder
        ensures files { folder_files result ≡ files }
        ensures reads { folder_reads result ≡ 0 }
        ensures fails { folder_fails result ≡ fails }
        ensures faults { folder_faults result ≡ 0 }
    {
        MemoryFolder {
            files,
            calls: Calls::new(fails),
        }
    }
}

fn front(alloc: Global, bytes: &[u8], most: u64) -> Result<List<u8>, FolderError>
    ensures ok { IfOk result (λ front. front ≡ take most bytes.now) }
    ensures err { IsOkUnless result FolderError.Memory }
{
    let count = most.min(bytes.len() as u64) as usize;
    match bytes[..count].to_vec(alloc) {
        Ok(front) => Ok(List::from_vec(front)),
        Err(_) => Err(FolderError::Memory),
    }
}

fn find(alloc: Global, files: &[NamedFile], name: &[u8], most: u64) -> Result<List<u8>, FolderError>
    ensures bytes { ReadsFile (Some files.now) name.now most result }
    ensures works { IsErrOf result FolderError.Failed → ⊥ }
{
    for file in files {
        if file.name.bytes() == name {
            return front(alloc, file.bytes.items(), most);
        }
    }
    Err(FolderError::Absent)
}

impl Folder for MemoryFolder {
    ghost use Rattle.std.specs.Prelude.{Some};
    ghost use Rattle.dv_outside.specs.Calls.{one_more};
    ghost use Rattle.dv_outside.specs.MemoryFolders.{folder_files, folder_reads, folder_fails, folder_faults, folder_fails_next};

    ghost files = { λ f. Some (folder_files f) };

    ghost faults = { folder_faults };

    fn read(&mut self, alloc: Global, name: &Text, most: u64) -> Result<List<u8>, FolderError>
        ensures bytes { ReadsFile (Some (folder_files self.old)) name.now most result }
        ensures kept { Some (folder_files self.new) ≡ Some (folder_files self.old) }
        ensures cause { FolderCause (folder_faults self.old) (folder_faults self.new) result }

        // A read fails exactly where it is to, and its count of faults rises exactly then.
        ensures fails { IsErrOf result FolderError.Failed ↔ IsTrue (folder_fails_next self.old) }
        ensures faults { folder_faults self.new
            ≡ (if folder_fails_next self.old then one_more (folder_faults self.old)
            else folder_faults self.old) }
        ensures reads { folder_reads self.new ≡ one_more (folder_reads self.old) }
        ensures plan { folder_fails self.new ≡ folder_fails self.old }
    {
        if self.calls.begin().is_err() {
            return Err(FolderError::Failed);
        }
        find(alloc, self.files.items(), name.bytes(), most)
    }
}
