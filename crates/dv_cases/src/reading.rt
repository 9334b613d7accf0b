use crate::acts::{Act, Connection, Step};
use crate::blocks::{Block, is_block_line};
use crate::escapes::number;
use crate::expectations::{take_connection_word, take_step_word};
use crate::faults::Fault;
use crate::lines::Lines;
use crate::outsides::words;
use crate::scenes::{FileFrom, Scene};
use crate::stands::{Digests, Holding};
use std::alloc::Global;

/// Which block the next line of one belongs to.
#[derive(Clone, Copy)]
pub(crate) enum Target {
    None,
    File,
    Given,
    Out,
    Err,
    In,
    Replies,
}

// What is read so far.
#[derive(Drop)]
struct Reader {
    alloc: Global,
    scenes: Vec<Scene>,
    target: Target,
}

const NO_SCENE: Fault = Fault::Wrong("a frame or a case has to begin before this");

const NO_STEP: Fault = Fault::Wrong("there is no step to which this belongs");

const UNKNOWN: Fault = Fault::Wrong("no line begins so");

/// A line that is refused, and why.
#[derive(Clone, Copy)]
pub(crate) struct Refused {
    pub(crate) at: usize,
    pub(crate) fault: Fault,
}

// The scene of a name before those from a place on.
fn scene_of(lines: &Lines, scenes: &[Scene], name: &str) -> Option<usize> {
    scenes
        .iter()
        .position(|scene| lines.behind(scene.at) == name)
}

// What a line says of the keeper's calls that fail.
fn failing(text: &str) -> Result<Act, Fault> {
    if text == "read" {
        return Ok(Act::FailRead);
    }
    let (text, done) = match text.strip_suffix(" done") {
        Some(front) => (front, true),
        None => (text, false),
    };
    match text.strip_prefix("each ") {
        None => Ok(Act::Fail {
            change: number(text)?,
            done,
        }),
        Some(range) => {
            let (first, last) = range
                .split_once(' ')
                .ok_or(Fault::Wrong("each from A to B"))?;
            Ok(Act::FailEach {
                first: number(first)?,
                last: number(last)?,
                done,
            })
        }
    }
}

// What a line says of a window that is loaded by workers of whom one is held.
fn held(text: &str) -> Result<Act, Fault> {
    const NO_WINDOW: Fault = Fault::Wrong("hold WORKERS TURNS MANIFEST");
    let (workers, text) = text.split_once(' ').ok_or(NO_WINDOW)?;
    let (turns, manifest) = text.split_once(' ').ok_or(NO_WINDOW)?;
    if manifest.is_empty() {
        return Err(NO_WINDOW);
    }
    Ok(Act::Hold {
        workers: number(workers)?,
        turns: number(turns)?,
        holding: Holding::Task,
    })
}

// What a line says of a window that is loaded by workers of whom one is held as it offers an item.
fn offer_held(text: &str) -> Result<Act, Fault> {
    const NO_OFFER: Fault = Fault::Wrong("hold_offer ITEM UNTIL WORKERS TURNS MANIFEST");
    let (item, text) = text.split_once(' ').ok_or(NO_OFFER)?;
    let (until, text) = text.split_once(' ').ok_or(NO_OFFER)?;
    let holding = Holding::Offer {
        item: number(item)?,
        until: number(until)?,
    };
    match held(text)? {
        Act::Hold { workers, turns, .. } => Ok(Act::Hold {
            workers,
            turns,
            holding,
        }),
        _ => Err(NO_OFFER),
    }
}

// The digests of a name.
fn digests_of(name: &str) -> Result<Digests, Fault> {
    match name {
        "md5" => Ok(Digests::Md5),
        "tiny" => Ok(Digests::Tiny),
        _ => Err(Fault::Wrong("the digests are md5 or tiny")),
    }
}

impl Reader {
    // A frame or a case begins.
    fn begin(&mut self, lines: &Lines, at: usize, is_case: bool) -> Result<(), Fault> {
        let name = lines.behind(at);
        if name.is_empty() {
            return Err(Fault::Wrong("it has no name"));
        }
        if scene_of(lines, self.scenes.as_slice(), name).is_some() {
            return Err(Fault::Wrong("another one has this name"));
        }
        self.scenes.push(Scene::new(self.alloc, at, is_case))?;
        Ok(())
    }

    // Another scene is taken over by the last one.
    fn take_over(&mut self, lines: &Lines, at: usize) -> Result<(), Fault> {
        let Some(mut scene) = self.scenes.pop() else {
            return Err(NO_SCENE);
        };
        let found = scene_of(lines, self.scenes.as_slice(), lines.behind(at));
        let taken = match found.and_then(|number| self.scenes.get(number)) {
            Some(other) => Ok(scene.take_over(other)),
            None => Err(Fault::Wrong("no frame or case before has this name")),
        };
        self.scenes.push(scene)?;
        taken??;
        Ok(())
    }

    // A file of the last scene, from its beginning or from its next step on.
    fn put_file(
        &mut self,
        lines: &Lines,
        at: usize,
        is_later: bool,
        is_gone: bool,
    ) -> Result<(), Fault> {
        let scene = self.scenes.last_mut().ok_or(NO_SCENE)?;
        let mut file = FileFrom {
            at,
            step: 0,
            is_gone,
            block: Block::below(at),
        };
        if is_later {
            file.step = scene.steps.len();
            scene.files.push(file)?;
        } else {
            scene.put_file(lines, file)?;
        }
        if !is_gone {
            self.target = Target::File;
        }
        Ok(())
    }

    // A step behind the others of the last scene.
    fn put_step(&mut self, at: usize, act: Act) -> Result<(), Fault> {
        let scene = self.scenes.last_mut().ok_or(NO_SCENE)?;
        let number = scene.steps.len();
        scene.steps.push(Step::new(at, act))?;
        if let Act::Connect { .. } = act {
            scene.connections.push(Connection::new(number))?;
        }
        if let Act::Give = act {
            self.target = Target::Given;
        }
        Ok(())
    }

    fn repeat(&mut self) -> Result<(), Fault> {
        let scene = self.scenes.last_mut().ok_or(NO_SCENE)?;
        if scene.repeat(self.alloc)? {
            Ok(())
        } else {
            Err(NO_STEP)
        }
    }

    // What is kept is compared with that at the end of another scene.
    fn compare(&mut self, lines: &Lines, at: usize) -> Result<(), Fault> {
        let behind = lines.behind(at);
        let name = behind.strip_prefix("keeper as ").ok_or(UNKNOWN)?;
        match scene_of(lines, self.scenes.as_slice(), name) {
            Some(scene) => self.put_step(at, Act::Compare { scene }),
            None => Err(Fault::Wrong("no frame or case before has this name")),
        }
    }

    // A connection of the last step.
    fn connect(&mut self) -> Result<(), Fault> {
        let scene = self.scenes.last_mut().ok_or(NO_SCENE)?;
        let steps = scene.steps.len();
        if steps == 0 {
            return Err(NO_STEP);
        }
        scene
            .connections
            .push(Connection::new(steps.saturating_sub(1)))?;
        Ok(())
    }

    // What is said of the last step, or of its last connection.
    fn expect(&mut self, lines: &Lines, at: usize) -> Result<(), Fault> {
        let scene = self.scenes.last_mut().ok_or(NO_SCENE)?;
        let number = scene.steps.len();
        let step = scene.steps.last_mut().ok_or(NO_STEP)?;
        if let Some(target) = take_step_word(step, lines, at)? {
            self.target = target;
            return Ok(());
        }
        let connection = scene.connections.last_mut().ok_or(UNKNOWN)?;
        if connection.step.saturating_add(1) != number {
            return Err(Fault::Wrong("the step has no connection"));
        }
        self.target = take_connection_word(connection, lines, at)?.ok_or(UNKNOWN)?;
        Ok(())
    }

    // A line of a block.
    fn grow(&mut self, at: usize) -> Result<(), Fault> {
        const NO_BLOCK: Fault = Fault::Wrong("there is nothing above to which this text belongs");
        let scene = self.scenes.last_mut().ok_or(NO_BLOCK)?;
        match self.target {
            Target::None => return Err(NO_BLOCK),
            Target::File => scene.files.last_mut().ok_or(NO_BLOCK)?.block.grow(at),
            Target::Given => scene.steps.last_mut().ok_or(NO_BLOCK)?.given.grow(at),
            Target::Out => scene.steps.last_mut().ok_or(NO_BLOCK)?.out.grow(at),
            Target::Err => scene.steps.last_mut().ok_or(NO_BLOCK)?.err.grow(at),
            Target::In => scene.connections.last_mut().ok_or(NO_BLOCK)?.input.grow(at),
            Target::Replies => scene
                .connections
                .last_mut()
                .ok_or(NO_BLOCK)?
                .replies
                .grow(at),
        }
        Ok(())
    }

    // A line that is not empty, no remark, and none of a block.
    fn take_word(&mut self, lines: &Lines, at: usize) -> Result<(), Fault> {
        let text = lines.text(at);
        let (word, behind) = text.split_once(' ').unwrap_or((text, ""));
        match word {
            "frame" => self.begin(lines, at, false),
            "case" => self.begin(lines, at, true),
            "like" => self.take_over(lines, at),
            "file" => self.put_file(lines, at, false, false),
            "no" if behind.starts_with("file ") => self.put_file(lines, at, false, true),
            "then" if behind.starts_with("file ") => self.put_file(lines, at, true, false),
            "then" if behind.starts_with("no file ") => self.put_file(lines, at, true, true),
            "run" => {
                words(self.alloc, behind)?;
                self.put_step(at, Act::Run)
            }
            "again" => self.repeat(),
            "connect" if behind.is_empty() => self.put_step(at, Act::Connect { is_on: false }),
            "connect" if behind == "on" => self.put_step(at, Act::Connect { is_on: true }),
            "digest" => self.put_step(at, Act::Digests(digests_of(behind)?)),
            "fails" => self.put_step(at, failing(behind)?),
            "hold" => self.put_step(at, held(behind)?),
            "hold_offer" => self.put_step(at, offer_held(behind)?),
            "same" => self.compare(lines, at),
            "given" => self.put_step(at, Act::Give),
            "connection" => self.connect(),
            _ => self.expect(lines, at),
        }
    }

    fn take_line(&mut self, lines: &Lines, at: usize) -> Result<(), Fault> {
        let text = lines.text(at);
        if text.is_empty() || text.starts_with("#") {
            return Ok(());
        }
        if is_block_line(self.alloc, text)? {
            return self.grow(at);
        }
        self.target = Target::None;
        if text.starts_with("at ") {
            return Ok(());
        }
        self.take_word(lines, at)
    }
}

// A case that has no step.
fn without_step(scenes: &[Scene]) -> Option<usize> {
    let found = scenes
        .iter()
        .find(|scene| scene.is_case && scene.steps.is_empty());
    found.map(|scene| scene.at)
}

/// The frames and cases that lines say; the first line that is refused, or a case without a step.
pub(crate) fn read(alloc: Global, lines: &Lines) -> Result<Vec<Scene>, Refused> {
    let mut reader = Reader {
        alloc,
        scenes: Vec::new(alloc),
        target: Target::None,
    };
    for at in 0..lines.len() {
        if let Err(fault) = reader.take_line(lines, at) {
            return Err(Refused { at, fault });
        }
    }
    match without_step(reader.scenes.as_slice()) {
        Some(at) => Err(Refused {
            at,
            fault: Fault::Wrong("the case has no step"),
        }),
        None => Ok(reader.scenes),
    }
}
