use crate::acts::{Act, Connection, Step};
use crate::blocks::Block;
use crate::escapes::number;
use crate::faults::Fault;
use crate::lines::Lines;
use crate::reading::Target;
use crate::stands::Ended;
use dv_text::List;
use std::alloc::Global;

// Whether all words are numbers, and there is one.
fn are_numbers(words: &str) -> Result<(), Fault> {
    if words.is_empty() {
        return Err(Fault::Wrong("it names no call"));
    }
    for word in words.split(' ') {
        number(word)?;
    }
    Ok(())
}

// The line, whose last words are numbers of calls.
fn calls(words: &str, front: &str, at: usize) -> Result<Option<usize>, Fault> {
    let words = words
        .strip_prefix(front)
        .ok_or(Fault::Wrong("no line goes on so"))?;
    are_numbers(words)?;
    Ok(Some(at))
}

/// The numbers at the end of a line that says which calls fail.
pub(crate) fn numbers(alloc: Global, lines: &Lines, at: Option<usize>) -> Result<List<u64>, Fault> {
    let mut numbers = List::new(alloc);
    let Some(at) = at else {
        return Ok(numbers);
    };
    for word in lines.behind(at).split(' ').skip(1) {
        numbers.push(number(word)?)?;
    }
    Ok(numbers)
}

// What is said of a stream: what is written to it, how much it takes, or which writes fail.
fn take_stream(
    lines: &Lines,
    at: usize,
    target: Target,
    block: &mut Block,
    room: &mut u64,
    fails: &mut Option<usize>,
) -> Result<Target, Fault> {
    let behind = lines.behind(at);
    if behind.is_empty() {
        *block = Block::below(at);
        return Ok(target);
    }
    match behind.strip_prefix("room ") {
        Some(most) => *room = number(most)?,
        None => *fails = calls(behind, "fails ", at)?,
    }
    Ok(Target::None)
}

// How the service of a connection is said to end.
fn ended(text: &str) -> Result<Ended, Fault> {
    let (word, count) = text.split_once(' ').unwrap_or((text, ""));
    match word {
        "ReadFault" => Ok(Ended::ReadFault),
        "WriteFault" => Ok(Ended::WriteFault),
        "Ended" => Ok(Ended::Ended(number(count)?)),
        "Closed" => Ok(Ended::Closed(number(count)?)),
        "Wire" => Ok(Ended::Wire(number(count)?)),
        "Cut" => Ok(Ended::Cut(number(count)?)),
        "Enough" => Ok(Ended::Enough(number(count)?)),
        _ => Err(Fault::Wrong("the service of no connection ends so")),
    }
}

// Takes what a line says of a step that calls no program.
fn take_end(step: &mut Step, word: &str, behind: &str) -> Result<Option<Target>, Fault> {
    match step.act {
        Act::Connect { .. } if word == "ends" => {
            step.ended = ended(behind)?;
            Ok(Some(Target::None))
        }
        Act::Hold { .. } if word == "loads" => {
            step.rows = number(behind)?;
            Ok(Some(Target::None))
        }
        Act::Hold { .. } if word == "reached" => {
            step.is_reached = true;
            Ok(Some(Target::None))
        }
        _ => Ok(None),
    }
}

/// Takes what a line says of a step, and answers to what the block below it belongs; none where its word is none of a step.
pub(crate) fn take_step_word(
    step: &mut Step,
    lines: &Lines,
    at: usize,
) -> Result<Option<Target>, Fault> {
    let text = lines.text(at);
    let (word, behind) = text.split_once(' ').unwrap_or((text, ""));
    let Act::Run = step.act else {
        return take_end(step, word, behind);
    };
    match word {
        "out" => {
            let Step {
                out,
                out_room,
                out_fails,
                ..
            } = step;
            return Ok(Some(take_stream(lines, at, Target::Out, out, out_room, out_fails)?));
        }
        "err" => {
            let Step {
                err,
                err_room,
                err_fails,
                ..
            } = step;
            return Ok(Some(take_stream(lines, at, Target::Err, err, err_room, err_fails)?));
        }
        "status" => step.status = number(behind)?,
        "port" => step.port = Some(number(behind)?),
        "reads" => step.reads = calls(behind, "fail ", at)?,
        "doors" => step.doors = calls(behind, "fail ", at)?,
        _ => return Ok(None),
    }
    Ok(Some(Target::None))
}

/// The same of a connection.
pub(crate) fn take_connection_word(
    connection: &mut Connection,
    lines: &Lines,
    at: usize,
) -> Result<Option<Target>, Fault> {
    let text = lines.text(at);
    let (word, behind) = text.split_once(' ').unwrap_or((text, ""));
    match word {
        "in" => {
            connection.input = Block::below(at);
            return Ok(Some(Target::In));
        }
        "replies" => {
            connection.replies = Block::below(at);
            return Ok(Some(Target::Replies));
        }
        "piece" => connection.piece = number(behind)?,
        "room" => connection.room = number(behind)?,
        "calls" => connection.fails = calls(behind, "fail ", at)?,
        "unserved" => connection.is_unserved = true,
        _ => return Ok(None),
    }
    Ok(Some(Target::None))
}
