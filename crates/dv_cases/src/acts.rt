use crate::blocks::{Block, EMPTY};
use crate::stands::{Digests, Ended, Holding};

/// What a step does.
#[derive(Clone, Copy)]
pub(crate) enum Act {
    Run,
    /// A connection to an office that is started for it, or to that of the last one.
    Connect {
        is_on: bool,
    },
    Digests(Digests),
    Fail {
        change: u64,
        done: bool,
    },
    FailEach {
        first: u64,
        last: u64,
        done: bool,
    },
    FailRead,
    Give,
    /// A window is loaded by so many workers, of whom one is held for at most so many turns.
    Hold {
        workers: u64,
        turns: u64,
        holding: Holding,
    },
    Compare {
        scene: usize,
    },
}

/// A step: the line that says what it does, what it is given, and what is expected of it. Numbers of calls that fail stand
/// in the lines that are named.
#[derive(Clone, Copy)]
pub(crate) struct Step {
    pub(crate) at: usize,
    pub(crate) act: Act,
    pub(crate) given: Block,
    pub(crate) reads: Option<usize>,
    pub(crate) out_fails: Option<usize>,
    pub(crate) err_fails: Option<usize>,
    pub(crate) doors: Option<usize>,
    pub(crate) out_room: u64,
    pub(crate) err_room: u64,
    pub(crate) out: Block,
    pub(crate) err: Block,
    pub(crate) status: u64,
    pub(crate) port: Option<u64>,
    pub(crate) ended: Ended,
    pub(crate) rows: u64,
    pub(crate) is_reached: bool,
}

/// How many bytes a stream takes, and a connection, where nothing is said.
const STREAM_ROOM: u64 = 1_000_000;

const LINK_ROOM: u64 = 100_000;

const PIECE: u64 = 65_536;

impl Step {
    /// A step of which nothing else is said.
    pub(crate) fn new(at: usize, act: Act) -> Step {
        Step {
            at,
            act,
            given: Block::below(at),
            reads: None,
            out_fails: None,
            err_fails: None,
            doors: None,
            out_room: STREAM_ROOM,
            err_room: STREAM_ROOM,
            out: EMPTY,
            err: EMPTY,
            status: 0,
            port: None,
            ended: Ended::Ended(0),
            rows: 0,
            is_reached: false,
        }
    }
}

/// A connection that comes to a step, by the step's number.
#[derive(Clone, Copy)]
pub(crate) struct Connection {
    pub(crate) step: usize,
    pub(crate) input: Block,
    pub(crate) piece: u64,
    pub(crate) room: u64,
    pub(crate) fails: Option<usize>,
    pub(crate) replies: Block,
    pub(crate) is_unserved: bool,
}

impl Connection {
    /// A connection of which nothing else is said.
    pub(crate) fn new(step: usize) -> Connection {
        Connection {
            step,
            input: EMPTY,
            piece: PIECE,
            room: LINK_ROOM,
            fails: None,
            replies: EMPTY,
            is_unserved: false,
        }
    }
}
