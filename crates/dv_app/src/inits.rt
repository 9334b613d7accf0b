// The command `init`: the mapping's file is stored, or compared with the stored one.
ghost use Rattle.std.specs.Prelude.{◌≡◌, None, Ok};
ghost use Rattle.dv_text.specs.Told.{Told};
ghost use Rattle.dv_catalog.specs.MappingFiles.{read_mapping};
ghost use Rattle.dv_outside.specs.Seen.{seen};
ghost use Rattle.dv_app.specs.Inits.{Compares, Settled, Settles};
ghost use Rattle.dv_app.specs.Kept.{init_said};
ghost use Rattle.dv_app.specs.Lent.{Same, places};
ghost use Rattle.dv_app.specs.Words as words;
ghost use Rattle.dv_app.specs.Works.{Tells, Works};

use crate::lines::{INIT_KEPT, INIT_STORED};
use crate::replies::{Reply, done};
use crate::works::Work;
use dv_catalog::Catalog;
use dv_given::{Ending, MappingFile, read_mapping_file};
use dv_outside::{Folder, Gate};
use dv_records::{InitAnswer, Keeper, KeeperError};
use dv_restore::{StoreFault, stored_mapping};
use dv_text::{KeyDigest, Text};
use std::alloc::Global;

// Stores the file, where no mapping is stored.
fn put<K: Keeper>(alloc: Global, keeper: &mut K, file: &MappingFile) -> InitAnswer
    requires none { Told (K.store keeper.old) (λ s. s.mapping ≡ None) }
    requires reads { read_mapping file.now.bytes ≡ Ok file.now.catalog }
    ensures { Settled file.now.bytes (seen K.store K.faults keeper.old keeper.new) result }
{
    let Ok(text) = Text::of(alloc, file.bytes.items()) else {
        return InitAnswer::Memory;
    };
    match keeper.put_mapping(alloc, &text) {
        Ok(()) => InitAnswer::Stored,
        Err(KeeperError::Failed) => InitAnswer::KeeperFault,
        Err(KeeperError::Memory) => InitAnswer::Memory,
    }
}

// Compares the file with the stored mapping.
fn compare(stored: &Catalog, file: &MappingFile) -> InitAnswer
    ensures { Compares stored.now file.now.catalog result }
{
    // As they read, and not their texts: other comments or another order of keys make no other mapping.
    if !stored.same(&file.catalog) {
        return InitAnswer::Differs;
    }
    InitAnswer::Kept
}

// Stores the file, or compares it with what is stored.
fn settle<K: Keeper>(
    alloc: Global,
    keeper: &mut K,
    file: &MappingFile,
) -> Result<InitAnswer, StoreFault>
    requires { read_mapping file.now.bytes ≡ Ok file.now.catalog }
    ensures { Settles file.now.bytes (seen K.store K.faults keeper.old keeper.new) result }
{
    match stored_mapping(alloc, keeper)? {
        Some(stored) => Ok(compare(&stored, file)),
        None => Ok(put(alloc, keeper, file)),
    }
}

// What is said of an answer.
fn answered(alloc: Global, answer: InitAnswer) -> Result<Reply, Ending>
    ensures { Tells (init_said answer) result }
{
    match answer {
        InitAnswer::Stored => done(alloc, INIT_STORED),
        InitAnswer::Kept => done(alloc, INIT_KEPT),
        InitAnswer::Differs => Err(Ending::OtherMapping),
        InitAnswer::KeeperFault => Err(Ending::KeeperFault),
        InitAnswer::Memory => Err(Ending::Memory),
    }
}

impl<R, F: Folder, K: Keeper, H: KeyDigest, G: Gate> Work<'_, '_, '_, '_, '_, R, F, K, H, G> {
    /// Stores the mapping's file, or tells whether the stored mapping is an equal one.
    pub(crate) fn init(&mut self, alloc: Global) -> Result<Reply, Ending>
        ensures works { Works words.Init H.function (places F.Folder K.Keeper self.old self.new) result }
        ensures same { Same self.old self.new }
    {
        let file = read_mapping_file(alloc, self.folder)?;
        let answer = settle(alloc, self.keeper, &file)?;
        answered(alloc, answer)
    }
}
