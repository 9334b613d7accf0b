ghost use Rattle.std.specs.Prelude.{◌≡◌, ◌==◌, find};
ghost use Rattle.std.specs.Bool.{OnTrue, OnFalse};
ghost use Rattle.std.specs.List.{position};
ghost use Rattle.dv_records.specs.Changes.{KeeperCause};
ghost use Rattle.dv_records.specs.PlannedFailures.{next_turn, new_plan, read_fails, takes_effect, turn_of, without_first, EndsTurn, ReadTurn};

use crate::keepers::KeeperError;
use dv_text::List;
use std::marker::Model;

/// A failure that is planned for a keeper in memory: the number, from 1, of the changing call that is to
/// fail, and whether its change is made all the same. With number 0 the next reading call fails, once.
#[derive(Clone, Copy, Debug, PartialEq, Eq)]
pub struct Fail {
    pub change: u64,
    pub done: bool,
}

/// What is planned for a changing call.
#[derive(Clone, Copy, Debug, PartialEq, Eq)]
pub(crate) enum Turn {
    Works,
    FailsBefore,
    FailsAfter,
}

impl Turn {
    /// Whether the change is made.
    pub(crate) fn takes_effect(self) -> bool
        ensures { result ≡ takes_effect self }
    {
        match self {
            Turn::Works | Turn::FailsAfter => true,
            Turn::FailsBefore => false,
        }
    }
}

/// The calls of a keeper in memory: the failures that are planned, how many calls changed the store or were
/// to, and how many failed.
#[derive(Debug, Drop)]
pub(crate) struct PlannedCalls {
    fails: List<Fail>,
    changes: u64,
    faults: u64,
}

impl Model for PlannedCalls {
    ghost use Rattle.dv_records.specs.PlannedFailures.{Plan};

    ghost Value = { Plan };

    ghost view = { λ t. record { fails = t.fails; changes = t.changes; faults = t.faults } };
}

// The place of the first failure that is planned for a reading call.
fn read_failure(fails: &[Fail]) -> Option<usize>
    ensures { result ≡ position (λ fail. fail.change == 0) fails.now }
{
    fails.iter().position(|fail| fail.change == 0)
}

// Takes out the first failure that is planned for a reading call, and answers whether there was one.
fn use_up(fails: &mut List<Fail>) -> bool
    ensures was { result ≡ read_fails fails.old }
    ensures used { OnTrue result (fails.new ≡ without_first (λ fail. fail.change == 0) fails.old) }
    ensures kept { OnFalse result (fails.new ≡ fails.old) }
{
    match read_failure(fails.items()) {
        None => false,
        Some(at) => {
            fails.remove(at);
            true
        }
    }
}

// The first failure that is planned for the changing call of this number.
fn change_failure(fails: &[Fail], number: u64) -> Option<Fail>
    ensures { result ≡ find (λ fail. fail.change == number) fails.now }
{
    fails.iter().copied().find(|fail| fail.change == number)
}

// What a failure that is planned for a changing call does to it.
fn turn_of(failure: Option<Fail>) -> Turn
    ensures { result ≡ turn_of failure }
{
    match failure {
        None => Turn::Works,
        Some(fail) => {
            if fail.done {
                Turn::FailsAfter
            } else {
                Turn::FailsBefore
            }
        }
    }
}

impl PlannedCalls {
    /// No calls yet, with these failures planned.
    pub(crate) fn new(fails: List<Fail>) -> PlannedCalls
        ensures { result ≡ new_plan fails }
    {
        PlannedCalls {
            fails,
            changes: 0,
            faults: 0,
        }
    }

    /// Begins a reading call.
    pub(crate) fn read(&mut self) -> Result<(), KeeperError>
        ensures turn { ReadTurn self.old self.new result }
        ensures cause { KeeperCause self.old.faults self.new.faults result }
    {
        if use_up(&mut self.fails) {
            self.faults = self.faults.saturating_add(1);
            return Err(KeeperError::Failed);
        }
        Ok(())
    }

    /// What is planned for the next changing call.
    pub(crate) fn next(&self) -> Turn
        ensures { result ≡ next_turn self.now }
    {
        turn_of(change_failure(self.fails.items(), self.changes.saturating_add(1)))
    }

    /// Counts a changing call of this turn.
    pub(crate) fn end(&mut self, turn: Turn) -> Result<(), KeeperError>
        ensures turn { EndsTurn turn self.old self.new result }
        ensures cause { KeeperCause self.old.faults self.new.faults result }
    {
        self.changes = self.changes.saturating_add(1);
        match turn {
            Turn::Works => Ok(()),
            Turn::FailsBefore | Turn::FailsAfter => {
                self.faults = self.faults.saturating_add(1);
                Err(KeeperError::Failed)
            }
        }
    }
}
