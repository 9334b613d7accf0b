use crate::comparing::Told;
use crate::faults::Fault;
use crate::lines::Lines;
use crate::playing::{Play, play_once};
use crate::reading::{Refused, read};
use crate::scenes::Scene;
use crate::stands::Stand;
use dv_text::Memory;
use std::alloc::Global;
use std::thread::Threads;

/// What is told of cases: each that doesn't hold, and how many there were; and the exit status.
#[derive(Drop)]
pub struct Report {
    pub text: Vec<u8>,
    pub status: u8,
}

// Tells that a case differs, before what differs.
fn put_head<R>(play: &Play<'_, R>, told: &mut Told, scene: &Scene) -> Result<(), Memory> {
    told.put("FAILED: ")?;
    told.put(play.lines.behind(scene.at))?;
    told.put(" (")?;
    told.put_place(play.lines.place(scene.at))?;
    told.put(")\n")
}

// Plays a case where a call fails, and tells its number where something differs.
fn play_failing<R: Threads + Sync, S: Stand>(
    play: &Play<'_, R>,
    told: &mut Told,
    scene: &Scene,
    (change, done): (u64, bool),
    stand: &mut S,
) -> Result<(), Refused> {
    let before = told.differences;
    play_once(play, told, scene, Some((change, done)), stand)?;
    if told.differences != before {
        let at = scene.at;
        put_change(told, change).map_err(|_| Refused {
            at,
            fault: Fault::Memory,
        })?;
    }
    Ok(())
}

fn put_change(told: &mut Told, change: u64) -> Result<(), Memory> {
    told.put("  where change ")?;
    told.put_number(change)?;
    told.put(" failed\n")
}

// Plays a case as often as it says.
fn play_each<R: Threads + Sync, S: Stand>(
    play: &Play<'_, R>,
    told: &mut Told,
    scene: &Scene,
    stand: &mut S,
) -> Result<(), Refused> {
    match scene.each() {
        None => play_once(play, told, scene, None, stand),
        Some((first, last, done)) => {
            for change in first..=last {
                play_failing(play, told, scene, (change, done), stand)?;
            }
            Ok(())
        }
    }
}

// Plays a case; whether it holds.
fn holds<R: Threads + Sync, S: Stand>(
    play: &Play<'_, R>,
    told: &mut Told,
    scene: &Scene,
    stand: &mut S,
) -> Result<bool, Refused> {
    let at = scene.at;
    let before = told.differences;
    let length = told.text.len();
    put_head(play, told, scene).map_err(|_| Refused {
        at,
        fault: Fault::Memory,
    })?;
    play_each(play, told, scene, stand)?;
    let holds = told.differences == before;
    if holds {
        told.text.truncate(length);
    }
    Ok(holds)
}

// How many cases hold, and how many don't.
fn play_cases<R: Threads + Sync, S: Stand>(
    play: &Play<'_, R>,
    told: &mut Told,
    stand: &mut S,
) -> Result<(u64, u64), Refused> {
    let mut counts = (0_u64, 0_u64);
    for scene in play.scenes {
        if scene.is_case {
            if holds(play, told, scene, stand)? {
                counts.0 = counts.0.saturating_add(1);
            } else {
                counts.1 = counts.1.saturating_add(1);
            }
        }
    }
    Ok(counts)
}

// Tells the line that is refused, and why.
fn put_refusal(told: &mut Told, lines: &Lines, refused: Refused) -> Result<(), Memory> {
    told.text.clear();
    told.put_place(lines.place(refused.at))?;
    match refused.fault {
        Fault::Wrong(why) => {
            told.put(": refused, ")?;
            told.put(why)?;
        }
        Fault::Memory => told.put(": no memory")?,
    }
    told.put(": ")?;
    told.put(lines.text(refused.at))?;
    told.put("\n0 passed, 1 failed\n")
}

fn put_counts(told: &mut Told, (passed, failed): (u64, u64)) -> Result<(), Memory> {
    told.put_number(passed)?;
    told.put(" passed, ")?;
    told.put_number(failed)?;
    told.put(" failed\n")
}

// Reads the lines and plays their cases.
fn counts<R: Threads + Sync, S: Stand>(
    rt: &R,
    alloc: Global,
    lines: &Lines,
    told: &mut Told,
    stand: &mut S,
) -> Result<(u64, u64), Refused> {
    let scenes = read(alloc, lines)?;
    let play = Play {
        rt,
        alloc,
        lines,
        scenes: scenes.as_slice(),
    };
    play_cases(&play, told, stand)
}

/// Plays all cases over stands like this one: 0 where each holds, 1 where one doesn't or there is none, 2 where a line is
/// refused, before which nothing else is told.
pub fn play_all<R: Threads + Sync, S: Stand>(
    rt: &R,
    alloc: Global,
    lines: &Lines,
    stand: &mut S,
) -> Result<Report, Memory> {
    let mut told = Told::new(alloc);
    let status = match counts(rt, alloc, lines, &mut told, stand) {
        Ok((passed, failed)) => {
            put_counts(&mut told, (passed, failed))?;
            if passed == 0 || failed > 0 { 1 } else { 0 }
        }
        Err(refused) => {
            put_refusal(&mut told, lines, refused)?;
            2
        }
    };
    Ok(Report {
        text: told.text,
        status,
    })
}
