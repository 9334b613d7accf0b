ghost use Rattle.std.specs.Thread.{IsSync};

use crate::faults::Fault;
use crate::outsides::Outside;
use dv_outside::{MemoryLink, Status};
use dv_text::Memory;
use std::thread::Threads;

/// Which digests hash keys and hash differences are.
#[derive(Clone, Copy)]
pub enum Digests {
    Md5,
    Tiny,
}

/// How the service of a connection ended, and behind how many requests.
#[derive(Clone, Copy)]
pub enum Ended {
    Ended(u64),
    Closed(u64),
    Wire(u64),
    Cut(u64),
    Enough(u64),
    ReadFault,
    WriteFault,
    Memory,
}

impl Ended {
    /// The word for it, and the number of requests.
    pub(crate) fn told(self) -> (&'static str, u64) {
        match self {
            Ended::Ended(count) => ("Ended", count),
            Ended::Closed(count) => ("Closed", count),
            Ended::Wire(count) => ("Wire", count),
            Ended::Cut(count) => ("Cut", count),
            Ended::Enough(count) => ("Enough", count),
            Ended::ReadFault => ("ReadFault", 0),
            Ended::WriteFault => ("WriteFault", 0),
            Ended::Memory => ("Memory", 0),
        }
    }
}

/// What is held while a window is loaded: the first task until the second one has ended, or the offer of an item until
/// another one is offered.
#[derive(Clone, Copy)]
pub enum Holding {
    Task,
    Offer { item: u64, until: u64 },
}

/// How a window is loaded of which a worker is held: by so many workers, and for at most so many turns.
#[derive(Clone, Copy)]
pub struct Hold<'a> {
    pub manifest: &'a String,
    pub workers: u64,
    pub turns: u64,
    pub holding: Holding,
    pub digests: Digests,
}

/// What comes of that: the rows that were loaded, and whether all turns went by.
#[derive(Clone, Copy)]
pub struct Held {
    pub rows: u64,
    pub is_reached: bool,
}

const NO_STAND: Fault = Fault::Wrong("only a keeper in memory takes this");

/// What cases are played over: a keeper, and the program's calls over it.
pub trait Stand: Drop {
    /// Another one, whose keeper has nothing.
    fn another(&mut self) -> Result<Self, Memory>;

    /// Calls the program with these words.
    fn run<R: Threads + Sync>(
        &mut self,
        rt: &R,
        words: &[String],
        outside: &mut Outside,
        digests: Digests,
    ) -> Status
        requires sync { IsSync R.row };

    /// Serves a connection by an office that is started for it, or by that of the last one.
    fn connect<R: Threads + Sync>(
        &mut self,
        _rt: &R,
        _link: &mut MemoryLink,
        _digests: Digests,
        _is_on: bool,
    ) -> Result<Ended, Fault>
        requires sync { IsSync R.row }
    {
        Err(NO_STAND)
    }

    /// Loads the window of a manifest by an office that is started for it, and holds one of its workers.
    fn hold<R: Threads + Sync>(
        &mut self,
        _rt: &R,
        _outside: &mut Outside,
        _hold: &Hold<'_>,
    ) -> Result<Held, Fault>
        requires sync { IsSync R.row }
    {
        Err(NO_STAND)
    }

    /// Of the calls that change the keeper the one of this number, from 1, fails; where `done`, its change is made.
    fn fail(&mut self, _change: u64, _done: bool) -> Result<(), Fault> {
        Err(NO_STAND)
    }

    /// The next call that reads the keeper fails.
    fn fail_read(&mut self) -> Result<(), Fault> {
        Err(NO_STAND)
    }

    /// Changes what is kept, as the words and the bytes of the block say.
    fn give(&mut self, _words: &str, _block: &[u8]) -> Result<(), Fault> {
        Err(NO_STAND)
    }

    /// Whether the same is kept.
    fn is_same(&self, _other: &Self) -> Result<bool, Fault> {
        Err(NO_STAND)
    }
}
