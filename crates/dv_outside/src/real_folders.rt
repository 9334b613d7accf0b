ghost use Rattle.std.specs.Prelude.{◌≡◌, IsErrOf, IsUtf8};
ghost use Rattle.dv_outside.specs.Causes.{FolderCause};
ghost use Rattle.dv_outside.specs.Files.{ReadsFile};
ghost use Rattle.dv_outside.specs.RealFolders.{real_folder_files, real_folder_faults};

use crate::folders::{Folder, FolderError};
use dv_text::{List, Text};
use std::alloc::Global;
use std::io::{ErrorKind, Read};
use std::rt::Files;
use std::{fs, io};

/// The working folder. It tells nothing of its files, and counts its faults: each read that fails for
/// another cause than want of memory, each name that is not UTF-8, and each that is no file, such as a
/// folder, a device or a pipe.
#[derive(Drop)]
pub struct RealFolder<R> {
    rt: R,
    faults: u64,
}

impl<R> RealFolder<R> {
    /// The folder that the program works in, with no faults yet.
    pub fn new(rt: R) -> RealFolder<R>
        ensures { real_folder_faults result ≡ 0 }
    {
        RealFolder { rt, faults: 0 }
    }
}

// The first bytes of a file. What is no file is not opened: a pipe that nobody writes would never end, and a command that
// waits for it has the vault for itself.
fn read_front<R: Files>(rt: &R, alloc: Global, name: &str, most: u64) -> io::Result<Vec<u8>> {
    if !fs::metadata(rt, name)?.is_file() {
        return Err(io::Error::from(ErrorKind::InvalidInput));
    }
    let mut bytes = Vec::new(alloc);
    fs::open(rt, name)?.take(most).read_to_end(&mut bytes)?;
    Ok(bytes)
}

impl<R: Files> Folder for RealFolder<R> {
    ghost files = { real_folder_files };

    ghost faults = { real_folder_faults };

    fn read(&mut self, alloc: Global, name: &Text, most: u64) -> Result<List<u8>, FolderError>
        ensures bytes { ReadsFile (real_folder_files self.old) name.now most result }
        ensures kept { real_folder_files self.new ≡ real_folder_files self.old }
        ensures cause { FolderCause (real_folder_faults self.old) (real_folder_faults self.new) result }
        ensures name { ¬ (IsUtf8 name.now) → IsErrOf result FolderError.Failed }
    {
        let Ok(name) = str::from_utf8(name.bytes()) else {
            self.faults = self.faults.saturating_add(1);
            return Err(FolderError::Failed);
        };
        match read_front(&self.rt, alloc, name, most) {
            Ok(bytes) => Ok(List::from_vec(bytes)),
            Err(error) => match error.kind() {
                ErrorKind::NotFound => Err(FolderError::Absent),
                ErrorKind::OutOfMemory => Err(FolderError::Memory),
                _ => {
                    self.faults = self.faults.saturating_add(1);
                    Err(FolderError::Failed)
                }
            },
        }
    }
}
