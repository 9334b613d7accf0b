use crate::acts::{Act, Connection, Step};
use crate::blocks::bytes;
use crate::comparing::Told;
use crate::faults::Fault;
use crate::lines::Lines;
use crate::outsides::{Outside, link, outside_of, words};
use crate::reading::Refused;
use crate::scenes::Scene;
use crate::stands::{Digests, Hold, Holding, Stand};
use dv_outside::{MemoryLink, Status};
use dv_text::Memory;
use std::alloc::Global;
use std::thread::Threads;

/// What is played: the lines, and the frames and cases that they say; and the runtime of those who load windows.
#[derive(Drop)]
pub(crate) struct Play<'a, R> {
    pub(crate) rt: &'a R,
    pub(crate) alloc: Global,
    pub(crate) lines: &'a Lines,
    pub(crate) scenes: &'a [Scene],
}

// The line of a step, before its differences.
fn head<R>(play: &Play<'_, R>, told: &mut Told, step: &Step) -> Result<(), Memory> {
    told.put("  ")?;
    told.put_place(play.lines.place(step.at))?;
    told.put(": ")?;
    told.put(play.lines.text(step.at))?;
    told.put("\n")
}

// The replies of the connections that came back are those that are expected.
fn compare_links<R>(
    play: &Play<'_, R>,
    told: &mut Told,
    scene: &Scene,
    number: usize,
    served: &[MemoryLink],
) -> Result<(), Fault> {
    let mut back = served;
    let mut count = 0_u64;
    for connection in scene.connections.iter() {
        if connection.step == number && !connection.is_unserved {
            count = count.saturating_add(1);
            let expected = bytes(play.alloc, play.lines, connection.replies)?;
            if let Some((link, behind)) = back.split_first() {
                told.compare_bytes("replies", expected.as_slice(), link.written())?;
                back = behind;
            }
        }
    }
    told.compare_numbers("connections that came back", count, served.len() as u64)?;
    Ok(())
}

// What the program wrote, and its status, are what is expected of a step.
fn compare_outside<R>(
    play: &Play<'_, R>,
    told: &mut Told,
    step: &Step,
    outside: &Outside,
    status: Status,
) -> Result<(), Fault> {
    let out = bytes(play.alloc, play.lines, step.out)?;
    let err = bytes(play.alloc, play.lines, step.err)?;
    told.compare_bytes("standard error", err.as_slice(), outside.err.written())?;
    told.compare_bytes("standard output", out.as_slice(), outside.out.written())?;
    told.compare_numbers("exit status", step.status, status as u64)?;
    let port = u64::from(outside.doors.port().unwrap_or(0));
    told.compare_numbers("port", step.port.unwrap_or(0), port)?;
    Ok(())
}

// Calls the program.
fn run<R: Threads + Sync, S: Stand>(
    play: &Play<'_, R>,
    told: &mut Told,
    scene: &Scene,
    number: usize,
    step: &Step,
    digests: Digests,
    stand: &mut S,
) -> Result<(), Fault> {
    let words = words(play.alloc, play.lines.behind(step.at))?;
    let mut outside = outside_of(play.alloc, play.lines, scene, number, step)?;
    let status = stand.run(play.rt, words.as_slice(), &mut outside, digests);
    compare_outside(play, told, step, &outside, status)?;
    compare_links(play, told, scene, number, outside.doors.served())
}

// Serves a connection.
fn connect<R: Threads + Sync, S: Stand>(
    play: &Play<'_, R>,
    told: &mut Told,
    connection: &Connection,
    step: &Step,
    (digests, is_on): (Digests, bool),
    stand: &mut S,
) -> Result<(), Fault> {
    let mut link = link(play.alloc, play.lines, connection)?;
    let (came, came_count) = stand.connect(play.rt, &mut link, digests, is_on)?.told();
    let (expected, count) = step.ended.told();
    let replies = bytes(play.alloc, play.lines, connection.replies)?;
    told.compare_bytes("replies", replies.as_slice(), link.written())?;
    told.compare_bytes("how it ended", expected.as_bytes(), came.as_bytes())?;
    told.compare_numbers("requests", count, came_count)?;
    Ok(())
}

// Loads a window of which a worker is held.
fn hold<R: Threads + Sync, S: Stand>(
    play: &Play<'_, R>,
    told: &mut Told,
    scene: &Scene,
    number: usize,
    step: &Step,
    (workers, turns, holding): (u64, u64, Holding),
    digests: Digests,
    stand: &mut S,
) -> Result<(), Fault> {
    let words = words(play.alloc, play.lines.behind(step.at))?;
    let Some(manifest) = words.as_slice().last() else {
        return Ok(());
    };
    let mut outside = outside_of(play.alloc, play.lines, scene, number, step)?;
    let hold = Hold {
        manifest,
        workers,
        turns,
        holding,
        digests,
    };
    let held = stand.hold(play.rt, &mut outside, &hold)?;
    told.compare_numbers("rows", step.rows, held.rows)?;
    let reached = u64::from(held.is_reached);
    told.compare_numbers("turns reached", u64::from(step.is_reached), reached)?;
    Ok(())
}

// The connection of a step.
fn connection_of(scene: &Scene, number: usize) -> Option<&Connection> {
    scene.connections.iter().find(|it| it.step == number)
}

// Takes a step, but for a comparison of what is kept.
fn take<R: Threads + Sync, S: Stand>(
    play: &Play<'_, R>,
    told: &mut Told,
    scene: &Scene,
    number: usize,
    step: &Step,
    digests: Digests,
    stand: &mut S,
) -> Result<(), Fault> {
    match step.act {
        Act::Run => run(play, told, scene, number, step, digests, stand),
        Act::Connect { is_on } => match connection_of(scene, number) {
            Some(connection) => { connect(play, told, connection, step, (digests, is_on), stand) }
            None => Ok(()),
        },
        Act::Hold {
            workers,
            turns,
            holding,
        } => {
            let how = (workers, turns, holding);
            hold(play, told, scene, number, step, how, digests, stand)
        }
        Act::Fail { change, done } => stand.fail(change, done),
        Act::FailRead => stand.fail_read(),
        Act::Give => {
            let block = bytes(play.alloc, play.lines, step.given)?;
            stand.give(play.lines.behind(step.at), block.as_slice())
        }
        Act::Digests(_) | Act::FailEach { .. } | Act::Compare { .. } => Ok(()),
    }
}

// Which digests are used at a step.
fn digests_behind(step: &Step, before: Digests) -> Digests {
    match step.act {
        Act::Digests(digests) => digests,
        _ => before,
    }
}

// What is kept at the end of another frame or case.
fn kept_behind<R: Threads + Sync, S: Stand>(
    play: &Play<'_, R>,
    scene: &Scene,
    stand: &mut S,
) -> Result<S, Fault> {
    let mut other = stand.another()?;
    let mut told = Told::new(play.alloc);
    let mut digests = Digests::Md5;
    for (number, step) in scene.steps.iter().enumerate() {
        digests = digests_behind(step, digests);
        take(play, &mut told, scene, number, step, digests, &mut other)?;
    }
    Ok(other)
}

// What is kept is the same as at the end of another frame or case.
fn compare_keepers<R: Threads + Sync, S: Stand>(
    play: &Play<'_, R>,
    told: &mut Told,
    other: usize,
    stand: &mut S,
) -> Result<(), Fault> {
    let Some(scene) = play.scenes.get(other) else {
        return Ok(());
    };
    let other = kept_behind(play, scene, stand)?;
    if !stand.is_same(&other)? {
        told.differ("another store is kept\n")?;
    }
    Ok(())
}

// Takes a step, and tells what differs behind its line.
fn tell<R: Threads + Sync, S: Stand>(
    play: &Play<'_, R>,
    told: &mut Told,
    scene: &Scene,
    number: usize,
    step: &Step,
    digests: Digests,
    stand: &mut S,
) -> Result<(), Fault> {
    let before = told.differences;
    let length = told.text.len();
    head(play, told, step)?;
    match step.act {
        Act::Compare { scene: other } => compare_keepers(play, told, other, stand)?,
        _ => take(play, told, scene, number, step, digests, stand)?,
    }
    if told.differences == before {
        told.text.truncate(length);
    }
    Ok(())
}

/// The steps of a case one after another over a new keeper, of whose changing calls one may fail.
pub(crate) fn play_once<R: Threads + Sync, S: Stand>(
    play: &Play<'_, R>,
    told: &mut Told,
    scene: &Scene,
    failing: Option<(u64, bool)>,
    stand: &mut S,
) -> Result<(), Refused> {
    let at = scene.at;
    let mut stand = stand.another().map_err(|_| Refused {
        at,
        fault: Fault::Memory,
    })?;
    if let Some((change, done)) = failing {
        stand
            .fail(change, done)
            .map_err(|fault| Refused { at, fault })?;
    }
    let mut digests = Digests::Md5;
    for (number, step) in scene.steps.iter().enumerate() {
        let at = step.at;
        digests = digests_behind(step, digests);
        tell(play, told, scene, number, step, digests, &mut stand).map_err(|fault| Refused {
            at,
            fault,
        })?;
    }
    Ok(())
}
