use dv_case_keeper::{CaseKeeper, Misfit};
use dv_cases::{Digests, Ended, Fault, Held, Hold, Holding, Outside, Stand};
use dv_catalog::WindowIn;
use dv_desk::{Served, serve_link};
use dv_digest::{Md5Keys, TinyKeys};
use dv_given::{Arrived, bring};
use dv_outside::{Gate, HoldGate, MemoryFolder, MemoryLink, OfferGate, OpenGate, Status};
use dv_program::program;
use dv_records::{Fail, LoadAnswer};
use dv_text::{KeyDigest, Memory, Text};
use dv_window::{Office, Order};
use std::alloc::Global;
use std::thread::Threads;

/// The program over a keeper in memory, and the office that served the last connection.
#[derive(Drop)]
pub(crate) struct MemoryStand {
    alloc: Global,
    keeper: CaseKeeper,
    office: Option<Office>,
}

impl MemoryStand {
    /// A keeper that has nothing.
    pub(crate) fn new(alloc: Global) -> MemoryStand {
        MemoryStand {
            alloc,
            keeper: CaseKeeper::new(alloc),
            office: None,
        }
    }
}

// Calls the program.
fn run_by<R: Threads + Sync, H: KeyDigest>(
    rt: &R,
    alloc: Global,
    words: &[String],
    outside: &mut Outside,
    keeper: &mut CaseKeeper,
    digest: &H,
) -> Status {
    let Outside {
        folder,
        doors,
        out,
        err,
    } = outside;
    program(
        rt, alloc, words, folder, doors, keeper, out, err, digest, &OpenGate,
    )
}

fn ended(served: Served) -> Ended {
    match served {
        Served::Ended { requests } => Ended::Ended(u64::from(requests)),
        Served::Closed { requests } => Ended::Closed(u64::from(requests)),
        Served::Wire { requests } => Ended::Wire(u64::from(requests)),
        Served::Cut { requests } => Ended::Cut(u64::from(requests)),
        Served::Enough { requests } => Ended::Enough(u64::from(requests)),
        Served::ReadFault => Ended::ReadFault,
        Served::WriteFault => Ended::WriteFault,
        Served::Memory => Ended::Memory,
    }
}

const NO_OFFICE: Fault = Fault::Wrong("no office is started over the keeper");

// The office that is started over a keeper.
fn office_over<H: KeyDigest>(
    alloc: Global,
    keeper: &mut CaseKeeper,
    digest: &H,
) -> Result<Office, Fault> {
    match Office::start(alloc, keeper, digest) {
        Ok(office) => Ok(office),
        Err(_) => Err(NO_OFFICE),
    }
}

// Serves a connection by an office, which is started where it is not to be that of the last one.
fn serve_by<R: Threads + Sync, H: KeyDigest>(
    rt: &R,
    stand: &mut MemoryStand,
    link: &mut MemoryLink,
    is_on: bool,
    digest: &H,
) -> Result<Ended, Fault> {
    let MemoryStand {
        alloc,
        keeper,
        office,
    } = stand;
    if !is_on {
        *office = Some(office_over(*alloc, keeper, digest)?);
    }
    match office {
        Some(office) => {
            let served = serve_link(rt, *alloc, link, office, keeper, 4, digest, &OpenGate);
            Ok(ended(served))
        }
        None => Err(NO_OFFICE),
    }
}

// The window of a manifest in a folder.
fn window_in(alloc: Global, folder: &mut MemoryFolder, manifest: &str) -> Result<WindowIn, Fault> {
    let name = Text::of(alloc, manifest.as_bytes())?;
    match bring(alloc, folder, &name) {
        Ok(Arrived::Brought(given)) => Ok(given),
        _ => Err(Fault::Wrong("the manifest is not brought")),
    }
}

// Loads a window by an office over a keeper, and answers how many rows are loaded.
fn loaded_by<R: Threads + Sync, H: KeyDigest, G: Gate>(
    rt: &R,
    alloc: Global,
    keeper: &mut CaseKeeper,
    given: &WindowIn,
    workers: u64,
    digest: &H,
    gate: &G,
) -> Result<u64, Fault> {
    let workers = u32::try_from(workers).unwrap_or(0);
    if workers < 1 || workers > 64 {
        return Err(Fault::Wrong("there are 1 to 64 workers"));
    }
    let mut office = office_over(alloc, keeper, digest)?;
    let came = office.load(rt, keeper, given, workers, Order::Declared, digest, gate);
    office.close();
    match came {
        LoadAnswer::Loaded { rows } => Ok(rows),
        _ => Err(Fault::Wrong("the window is not loaded")),
    }
}

// Loads a window by an office over a keeper, and holds one of its workers.
fn hold_by<R: Threads + Sync, H: KeyDigest>(
    rt: &R,
    alloc: Global,
    keeper: &mut CaseKeeper,
    given: &WindowIn,
    hold: &Hold<'_>,
    digest: &H,
) -> Result<Held, Fault> {
    match hold.holding {
        Holding::Task => {
            let gate = HoldGate::new(hold.turns);
            let rows = loaded_by(rt, alloc, keeper, given, hold.workers, digest, &gate)?;
            let is_reached = gate.reached();
            Ok(Held { rows, is_reached })
        }
        Holding::Offer { item, until } => {
            let item = u32::try_from(item).unwrap_or(0);
            let until = u32::try_from(until).unwrap_or(0);
            let gate = OfferGate::new(item, until, hold.turns);
            let rows = loaded_by(rt, alloc, keeper, given, hold.workers, digest, &gate)?;
            let is_reached = !gate.passed();
            Ok(Held { rows, is_reached })
        }
    }
}

impl Stand for MemoryStand {
    fn another(&mut self) -> Result<MemoryStand, Memory> {
        Ok(MemoryStand::new(self.alloc))
    }

    fn run<R: Threads + Sync>(
        &mut self,
        rt: &R,
        words: &[String],
        outside: &mut Outside,
        digests: Digests,
    ) -> Status {
        match digests {
            Digests::Md5 => run_by(rt, self.alloc, words, outside, &mut self.keeper, &Md5Keys),
            Digests::Tiny => run_by(rt, self.alloc, words, outside, &mut self.keeper, &TinyKeys),
        }
    }

    fn connect<R: Threads + Sync>(
        &mut self,
        rt: &R,
        link: &mut MemoryLink,
        digests: Digests,
        is_on: bool,
    ) -> Result<Ended, Fault> {
        match digests {
            Digests::Md5 => serve_by(rt, self, link, is_on, &Md5Keys),
            Digests::Tiny => serve_by(rt, self, link, is_on, &TinyKeys),
        }
    }

    fn hold<R: Threads + Sync>(
        &mut self,
        rt: &R,
        outside: &mut Outside,
        hold: &Hold<'_>,
    ) -> Result<Held, Fault> {
        let alloc = self.alloc;
        let given = window_in(alloc, &mut outside.folder, hold.manifest.as_str())?;
        let keeper = &mut self.keeper;
        match hold.digests {
            Digests::Md5 => hold_by(rt, alloc, keeper, &given, hold, &Md5Keys),
            Digests::Tiny => hold_by(rt, alloc, keeper, &given, hold, &TinyKeys),
        }
    }

    fn fail(&mut self, change: u64, done: bool) -> Result<(), Fault> {
        self.keeper.fail(Fail { change, done })?;
        Ok(())
    }

    fn fail_read(&mut self) -> Result<(), Fault> {
        self.keeper.fail_read();
        Ok(())
    }

    fn give(&mut self, words: &str, block: &[u8]) -> Result<(), Fault> {
        match self.keeper.give(self.alloc, words, block) {
            Ok(()) => Ok(()),
            Err(Misfit::Words) => Err(Fault::Wrong("no store is given so")),
            Err(Misfit::Line) => Err(Fault::Wrong("a line of what is given is no such row")),
            Err(Misfit::Memory) => Err(Fault::Memory),
        }
    }

    fn is_same(&self, other: &MemoryStand) -> Result<bool, Fault> {
        Ok(self.keeper.is_same(&other.keeper))
    }
}
