ghost use Rattle.std.specs.Prelude.{◌≡◌, ◌≤◌, OnOk, OnErr, is_ok, not};
ghost use Rattle.dv_text.specs.Causes.{HasCause, Rose};

use crate::folders::Failed;
use dv_text::List;

/// The calls of an object in memory: how many there were, which ones are to fail, and how many did.
#[derive(Debug, Drop)]
pub(crate) struct Calls {
    number: u64,
    fails: List<u64>,
    faults: u64,
}

impl Calls {
    ghost use Rattle.dv_outside.specs.Calls.{faults_of, number_of, fails_of, fails_next, one_more};

    /// No calls yet. Those whose numbers, from 1, are among `fails` are to fail.
    pub(crate) fn new(fails: List<u64>) -> Calls
        ensures number { number_of result ≡ 0 }
        ensures fails { fails_of result ≡ fails }
        ensures faults { faults_of result ≡ 0 }
    {
        Calls {
            number: 0,
            fails,
            faults: 0,
        }
    }

    /// Counts a call, and fails where it is to.
    pub(crate) fn begin(&mut self) -> Result<(), Failed>
        ensures fails { is_ok result ≡ not (fails_next self.old) }
        ensures number { number_of self.new ≡ one_more (number_of self.old) }
        ensures kept { fails_of self.new ≡ fails_of self.old }
        ensures ok { OnOk result (faults_of self.new ≡ faults_of self.old) }
        ensures err { OnErr result (faults_of self.new ≡ one_more (faults_of self.old)) }
        ensures cause { HasCause (faults_of self.old) (faults_of self.new) result }
    {
        self.number = self.number.saturating_add(1);
        if self.fails.items().contains(&self.number) {
            self.fault();
            return Err(Failed);
        }
        Ok(())
    }

    /// Counts a fault.
    pub(crate) fn fault(&mut self)
        ensures number { number_of self.new ≡ number_of self.old }
        ensures kept { fails_of self.new ≡ fails_of self.old }
        ensures faults { faults_of self.new ≡ one_more (faults_of self.old) }
        ensures later { faults_of self.old ≤ faults_of self.new }
        ensures rose { Rose (faults_of self.old) (faults_of self.new) }
    {
        self.faults = self.faults.saturating_add(1);
    }
}
