// What is decided of a window before a keeper hears of it.
ghost use Rattle.std.specs.Prelude.{◌≡◌, ◌≤◌, IfErr, IfOk, IfSome, IsTrue, None, Some, is_none, length, nat_lt, option_map};
ghost use Rattle.std.specs.List.{list_all};
ghost use Rattle.dv_text.specs.Keys.{hashes_of};
ghost use Rattle.dv_catalog.specs.Windows.{window_of};
ghost use Rattle.dv_records.specs.Outcomes.{differs_from, full_at, late_after};
ghost use Rattle.dv_records.specs.States.{is_window, last_sealed};
ghost use Rattle.dv_catalog.specs.Mappings.{is_valid};
ghost use Rattle.dv_window.specs.Plans as spec;
ghost use Rattle.dv_window.specs.Offices.{staged};
ghost use Rattle.dv_window.specs.Plans.{IsPlan, IsPlanned, Stops};

use crate::offices::Office;
use crate::refusals::addition;
use crate::stagings::stage_extracts;
use crate::stops::Stop;
use dv_catalog::{Rule, WindowIn};
use dv_contents::content;
use dv_crew::Order;
use dv_outside::Gate;
use dv_text::{KeyDigest, List, Memory, Staged, Stamp, Window, WindowHead};
use dv_vault::{Begun, Vault};
use dv_window_rules::{differs, full, given_rule, late, open_other, too_long};
use std::alloc::Global;
use std::thread::Threads;

/// What is to be done for a window that breaks no rule: what it adds is taken, or the open window, which it is again, is
/// completed.
#[derive(Drop)]
pub(crate) enum Planned {
    New(Begun),
    Open,
}

// How many windows are sealed. More than a number of 32 bits has room for find no room in memory.
fn count_windows(heads: &[WindowHead]) -> Result<u32, Memory>
    ensures { IfOk result (λ count. count ≡ length heads.now) }
{
    u32::try_from(heads.len()).map_err(|_| Memory)
}

// The rule of the vault's limits, where a vault that weighs so much and has so many windows breaks it.
fn too_full(weight: u64, windows: u32) -> Option<Rule>
    ensures { result ≡ full_at weight windows }
{
    full(u128::from(weight), u64::from(windows))
}

// A window with the load date and the feeds of a head, read back from the vault.
fn read_back(alloc: Global, vault: &Vault, head: &WindowHead) -> Result<Window, Memory>
    requires { IsTrue (list_all (λ feed. nat_lt feed (length vault.now.mapping.feeds)) head.now.feeds) }
    ensures { IfOk result (λ window. window ≡ spec.window_read vault.now head.now) }
{
    let mut extracts = List::new(alloc);
    for feed in head.feeds.items() {
        let rows = content(vault, *feed, head.load)?;
        extracts.push(Staged { feed: *feed, rows })?;
    }
    Ok(Window {
        load: head.load,
        extracts,
    })
}

// The answer to a window whose load date is that of a head.
fn again(alloc: Global, vault: &Vault, head: &WindowHead, window: &Window) -> Result<Stop, Memory>
    requires { IsTrue (list_all (λ feed. nat_lt feed (length vault.now.mapping.feeds)) head.now.feeds) }
    ensures { IfOk result (λ stop. stop ≡ spec.again_stop (differs_from (Some (spec.window_read vault.now head.now)) window.now)) }
{
    let sealed = read_back(alloc, vault, head)?;
    match differs(Some(&sealed), window) {
        Some(rule) => Ok(Stop::Refused(rule)),
        None => Ok(Stop::Repeated),
    }
}

// The head with a load date.
fn find_head(heads: &[WindowHead], load: Stamp) -> Option<&WindowHead>
    ensures { option_map (λ head. head.now) result ≡ spec.head_at load heads.now }
{
    heads.iter().find(|head| head.load == load)
}

impl Office {
    // Whether a load date is later than those of all sealed windows: then no head has to be looked at.
    fn is_later(&self, load: Stamp) -> bool
        ensures { result ≡ is_none (late_after (last_sealed self.now.vault.heads) load) }
    {
        late(self.last(), false, load).is_none()
    }

    // The head with a load date: its feeds are in the mapping.
    fn head_at(&self, load: Stamp) -> Option<&WindowHead>
        ensures head { option_map (λ head. head.now) result ≡ spec.head_at load self.now.vault.heads }
        ensures feeds { IfSome result (λ head. IsTrue (list_all (λ feed. nat_lt feed (length self.now.vault.mapping.feeds)) head.now.feeds)) }
    {
        let heads = self.heads().items();
        // The load dates ascend: a window later than the last one is not looked for among many.
        if self.is_later(load) {
            return None;
        }
        find_head(heads, load)
    }

    // The first rule, W1 to W6, that a window breaks as it is given.
    fn given_rule(&self, given: &WindowIn) -> Result<Option<Rule>, Memory>
        ensures { IfOk result (λ rule. rule ≡ spec.given_rules self.now.vault (staged self.now) given.now) }
    {
        let alloc = self.allocator();
        if let Some(rule) = given_rule(alloc, self.catalog(), given)? {
            return Ok(Some(rule));
        }
        let is_sealed = self.head_at(given.load).is_some();
        if let Some(rule) = late(self.last(), is_sealed, given.load) {
            return Ok(Some(rule));
        }
        if let Some(rule) = open_other(self.open_load(), given.load) {
            return Ok(Some(rule));
        }
        too_long(alloc, given)
    }

    // The load date of the open window, if there is one.
    fn open_load(&self) -> Option<Stamp>
        ensures { result ≡ option_map (λ window. window.load) (staged self.now) }
    {
        let window = self.staged()?;
        Some(window.load)
    }

    // The window that the extracts read as, or the first rule, W1 to W18, that is broken.
    fn window_of<R: Threads + Sync>(
        &self,
        rt: &R,
        given: &WindowIn,
        workers: u32,
    ) -> Result<Window, Stop>
        requires workers { (1 ≤ workers) × (workers ≤ 64) }
        ensures early { IfOk result (λ window. spec.early_rule self.now.vault (staged self.now) given.now ≡ None) }
        ensures window { IfOk result (λ window. window ≡ window_of self.now.vault.mapping given.now) }
        ensures whole { IfOk result (λ window. IsTrue (is_window self.now.vault.mapping window)) }
        ensures stops { IfErr result (spec.StopsEarly self.now.vault (staged self.now) given.now) }
        ensures valid_mapping { IsTrue (is_valid self.now.vault.mapping) }
    {
        let catalog = self.catalog();
        if let Some(rule) = self.given_rule(given)? {
            return Err(Stop::Refused(rule));
        }
        let window = stage_extracts(rt, self.allocator(), catalog, given, workers)?;
        Ok(window)
    }

    // What a new window adds to the vault, or why it can't. No window is open.
    fn plan_new<R: Threads + Sync, H: KeyDigest, G: Gate>(
        &self,
        rt: &R,
        given: &WindowIn,
        window: Window,
        workers: u32,
        order: Order,
        digest: &H,
        gate: &G,
    ) -> Result<Begun, Stop>
        requires workers { (1 ≤ workers) × (workers ≤ 64) }
        requires passes { spec.IsNewWindow self.now.vault (staged self.now) given.now }
        requires none_open { staged self.now ≡ None }
        requires window { window ≡ window_of self.now.vault.mapping given.now }
        requires whole { IsTrue (is_window self.now.vault.mapping window) }
        ensures plan { IfOk result (IsPlan (hashes_of H.function) self.now.vault (staged self.now) given.now) }
        ensures stops { IfErr result (Stops (hashes_of H.function) self.now.vault (staged self.now) given.now) }
    {
        let begun = addition(rt, &self.vault, window, workers, order, digest, gate)?;
        let windows = count_windows(self.heads().items())?;
        match too_full(begun.weight, windows) {
            Some(rule) => Err(Stop::Refused(rule)),
            None => Ok(begun),
        }
    }

    /// What is decided of a window: what is to be done for it, or why it is not loaded.
    pub(crate) fn plan<R: Threads + Sync, H: KeyDigest, G: Gate>(
        &self,
        rt: &R,
        given: &WindowIn,
        workers: u32,
        order: Order,
        digest: &H,
        gate: &G,
    ) -> Result<Planned, Stop>
        requires workers { (1 ≤ workers) × (workers ≤ 64) }
        ensures plan { IfOk result (IsPlanned (hashes_of H.function) self.now given.now) }
        ensures stops { IfErr result (Stops (hashes_of H.function) self.now.vault (staged self.now) given.now) }
        ensures valid_mapping { IsTrue (is_valid self.now.vault.mapping) }
    {
        let window = self.window_of(rt, given, workers)?;
        if let Some(head) = self.head_at(given.load) {
            return Err(again(self.allocator(), &self.vault, head, &window)?);
        }
        let Some(open) = self.staged() else {
            let begun = self.plan_new(rt, given, window, workers, order, digest, gate)?;
            return Ok(Planned::New(begun));
        };
        match differs(Some(open), &window) {
            Some(rule) => Err(Stop::Refused(rule)),
            None => Ok(Planned::Open),
        }
    }
}
