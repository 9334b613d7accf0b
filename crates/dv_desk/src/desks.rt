// The desk: who answers requests over an office and its keeper.
ghost use Rattle.std.specs.Prelude.{◌≡◌, ◌<◌, ◌≤◌, false, length};

use crate::answers::{Answer, unrefreshed};
use crate::posted::{Posted, read_body};
use crate::queries::{bad_date, heads, hub_named, mart, or_memory, stored_answer, table};
use crate::routes::{Query, Routed, asked_by};
use dv_catalog::Rule;
use dv_http::Request;
use dv_outside::Gate;
use dv_records::{Keeper, SnapId};
use dv_text::{KeyDigest, Memory, Stamp};
use dv_window::{Office, Order, stored_text, workers_for};
use std::alloc::Global;
use std::thread::Threads;

/// How windows are loaded: by 1 to 64 workers of a runtime, with a digest function, through a gate.
#[derive(Drop)]
pub(crate) struct Loading<'r, 'd, 'g, R, H, G> {
    pub(crate) rt: &'r R,
    pub(crate) workers: u32,
    pub(crate) digest: &'d H,
    pub(crate) gate: &'g G,
    ghost some: { 1 ≤ workers },
    ghost most: { workers ≤ 64 },
}

/// A desk over what it is lent.
#[derive(Drop)]
pub(crate) struct Desk<'o, 'k, 'r, 'd, 'g, R, K, H, G> {
    pub(crate) office: &'o mut Office,
    pub(crate) keeper: &'k mut K,
    pub(crate) loading: Loading<'r, 'd, 'g, R, H, G>,
}

impl<R: Threads + Sync, K: Keeper, H: KeyDigest, G: Gate> Desk<'_, '_, '_, '_, '_, R, K, H, G> {
    ghost use Rattle.std.specs.Prelude.{◌≡◌, ◌<◌, ◌≤◌, false, length};
    ghost use Rattle.dv_desk.specs.Desks.{moment_of, places};
    ghost use Rattle.dv_desk.specs.Reads.{IsPitAt, IsReadAs, IsReadBy, pit_due};
    ghost use Rattle.dv_desk.specs.Routes as routes;
    ghost use Rattle.dv_desk.specs.Turns.{Answered, CanReply, Refreshes};

    // The point-in-time table of a hub in the snapshot at a date.
    fn pit_at(&mut self, alloc: Global, hub: u32, date: Stamp) -> Answer
        requires fresh { self.old.office.now.stale ≡ false }
        requires hub { hub < length self.old.office.now.vault.mapping.hubs }
        ensures read { IsReadBy (pit_due hub date self.old.office.now) (IsPitAt hub date) result (moment_of K.Keeper self.old) (moment_of K.Keeper self.new) }
        ensures place { places self.new ≡ places self.old }
    {
        let id = SnapId::Pit(hub);
        stored_answer(stored_text(alloc, self.office, self.keeper, id, date))
    }

    // The point-in-time table of the hub of a name, in the snapshot at a date.
    fn pit(&mut self, alloc: Global, name: &[u8], date: &[u8]) -> Answer
        requires fresh { self.old.office.now.stale ≡ false }
        ensures read { IsReadAs (routes.PitAt name.now date.now) result (moment_of K.Keeper self.old) (moment_of K.Keeper self.new) }
        ensures place { places self.new ≡ places self.old }
    {
        let Ok(named) = hub_named(alloc, self.office.catalog(), name) else {
            return Answer::Memory;
        };
        let Some(hub) = named else {
            return Answer::NotFound;
        };
        match Stamp::read(date) {
            Some(at) => self.pit_at(alloc, hub, at),
            None => or_memory(bad_date(alloc, date)),
        }
    }

    // What is only read.
    fn read(&mut self, alloc: Global, query: &Query<'_>) -> Answer
        requires fresh { self.old.office.now.stale ≡ false }
        requires agrees { CanReply (moment_of K.Keeper self.old) }
        ensures read { IsReadAs (routes.query_as query.now) result (moment_of K.Keeper self.old) (moment_of K.Keeper self.new) }
        ensures place { places self.new ≡ places self.old }
    {
        match query {
            Query::Heads => or_memory(heads(alloc, self.office)),
            Query::MartAt { word, date } => or_memory(mart(alloc, self.office, word, date)),
            Query::TableOf { name } => or_memory(table(alloc, self.office, name)),
            Query::PitAt { hub, date } => self.pit(alloc, hub, date),
        }
    }

    // Loads the window of a body.
    fn load(&mut self, alloc: Global, body: &[u8]) -> Answer
        requires fresh { self.old.office.now.stale ≡ false }
        requires agrees { CanReply (moment_of K.Keeper self.old) }
        ensures answered { Answered H.function (routes.Load body.now) result (moment_of K.Keeper self.old) (moment_of K.Keeper self.new) }
        ensures place { places self.new ≡ places self.old }
    {
        match read_body(alloc, body) {
            Ok(Posted::Given(given)) => {
                let Loading {
                    rt,
                    workers,
                    digest,
                    gate,
                } = &self.loading;
                let workers = workers_for(&given, *workers);
                let order = Order::Declared;
                let came = self
                    .office
                    .load(*rt, self.keeper, &given, workers, order, *digest, *gate);
                Answer::from(came)
            }
            Ok(Posted::Faulty { place }) => Answer::Broken(Rule::Manifest { place }),
            Ok(Posted::NotJson) => Answer::BadRequest,
            Err(Memory) => Answer::Memory,
        }
    }

    // A stale office is refreshed, or this is the answer.
    fn refresh(&mut self) -> Result<(), Answer>
        requires agrees { CanReply (moment_of K.Keeper self.old) }
        ensures refreshed { Refreshes H.function (moment_of K.Keeper self.old) (moment_of K.Keeper self.new) result }
        ensures place { places self.new ≡ places self.old }
    {
        match self.office.refresh(self.keeper, self.loading.digest) {
            Ok(()) => Ok(()),
            Err(fault) => Err(unrefreshed(fault)),
        }
    }

    /// The answer to a request. It looks at the route and the method first, then refreshes a stale office, and then looks at
    /// the name, the date and what they name.
    pub(crate) fn answer_to(&mut self, alloc: Global, request: &Request) -> Answer
        requires agrees { CanReply (moment_of K.Keeper self.old) }
        ensures answered { Answered H.function (routes.asked request.now) result (moment_of K.Keeper self.old) (moment_of K.Keeper self.new) }
        ensures place { places self.new ≡ places self.old }
    {
        match asked_by(request) {
            // What no store changes is answered without a look at it, also by a stale office.
            Routed::NotFound => Answer::NotFound,
            Routed::NotAllowed { methods } => Answer::NotAllowed { methods },
            Routed::Load { body } => match self.refresh() {
                Ok(()) => self.load(alloc, body),
                Err(answer) => answer,
            },
            Routed::Read(query) => match self.refresh() {
                Ok(()) => self.read(alloc, &query),
                Err(answer) => answer,
            },
        }
    }
}
