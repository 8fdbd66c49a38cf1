//! A keeper in memory that fails at the calls of a list.

ghost use Rattle.std.specs.Prelude.{◌≡◌, [], ◌↔◌, ◌≤◌, IsTrue};
ghost use Rattle.keeper.specs.Calls.{IsToFail, called, no_calls, one_more};

use crate::keeper::{KeepFault, Keeper};
use crate::row::KeptRow;
use crate::rows::Rows;
use std::alloc::Global;
use std::marker::Model;

/// The calls of one kind: which are to fail, and how many have been made.
#[derive(Drop)]
struct CallLog {
    fail: Vec<u64>,
    made: u64,
}

impl Model for CallLog {
    ghost use Rattle.keeper.specs.Calls.{Calls};

    ghost Value = { Calls };

    ghost view = { λ log. record { fail = log.fail.items; made = log.made } };
}

impl CallLog {
    fn new(fail: Vec<u64>) -> CallLog
        ensures { result ≡ no_calls fail.items }
    {
        CallLog { fail, made: 0 }
    }

    /// Counts a call, and returns whether it is to fail.
    fn next_call_fails(&mut self) -> bool
        ensures listed { IsTrue result ↔ IsToFail self.old }
        ensures counted { self.new ≡ called self.old }
    {
        self.made = self.made.saturating_add(1);
        self.fail.contains(&self.made)
    }
}

/// A keeper in memory, which exposes its tables. Its loads and its commits fail at the numbers of a list each, counted
/// from 1.
#[derive(Drop)]
pub struct FailingKeeper {
    rows: Rows,
    loads: CallLog,
    commits: CallLog,
    faults: u64,
}

impl Model for FailingKeeper {
    ghost use Rattle.keeper.specs.Calls.{Store};

    ghost Value = { Store };

    ghost view = { λ k. record { rows = k.rows; loads = k.loads; commits = k.commits; faults = k.faults } };
}

impl FailingKeeper {
    /// A keeper without rows, no call of which has been made yet.
    pub fn new(alloc: Global, fail_loads: Vec<u64>, fail_commits: Vec<u64>) -> FailingKeeper
        ensures { result ≡ record {
          rows = [];
          loads = no_calls fail_loads.items;
          commits = no_calls fail_commits.items;
          faults = 0;
        } }
    {
        FailingKeeper {
            rows: Rows::new(alloc),
            loads: CallLog::new(fail_loads),
            commits: CallLog::new(fail_commits),
            faults: 0,
        }
    }

    /// Counts a failure.
    fn failure(&mut self) -> KeepFault
        ensures fault { result ≡ KeepFault.Failed }
        ensures counted { self.new ≡ record self.old { faults = one_more self.old.faults } }
        ensures never_falls { self.old.faults ≤ self.new.faults }
    {
        self.faults = self.faults.saturating_add(1);
        KeepFault::Failed
    }
}

impl Keeper for FailingKeeper {
    ghost use Rattle.std.specs.Prelude.{◌≡◌, ◌≢◌, ◌↔◌, ◌≤◌, Some, Err, IfOk, OnOk, OnErr};
    ghost use Rattle.keeper.specs.Calls.{IsToFail, called, one_more};
    ghost use Rattle.keeper.specs.Rows.{with_row};
    ghost use Rattle.keeper.specs.Tables.{AreInKeyOrder, HoldsAfter, bytes_under};
    ghost use Rattle.keeper.specs.declared.keeper.KeepFault.TheVariants.{Failed, NoMemory};

    ghost tables = { λ k. Some (bytes_under k.rows) };

    ghost faults = { λ k. k.faults };

    /// The load fails exactly if it is on the list.
    fn load(&mut self, alloc: Global) -> Result<Vec<KeptRow>, KeepFault>
        ensures fails { (result ≡ Err Failed) ↔ IsToFail self.old.loads }
        ensures all { IfOk result (λ rows. rows.items ≡ self.old.rows) }
        ensures rising { IfOk result (λ rows. AreInKeyOrder rows.items) }
        ensures failed { result ≡ Err Failed → self.new ≡ record self.old { loads = called self.old.loads; faults = one_more self.old.faults } }
        ensures otherwise { result ≢ Err Failed → self.new ≡ record self.old { loads = called self.old.loads } }
        ensures never_falls { self.old.faults ≤ self.new.faults }
    {
        if self.loads.next_call_fails() {
            return Err(self.failure());
        }
        Ok(self.rows.copied(alloc)?)
    }

    /// The commit fails exactly if it is on the list.
    fn commit(&mut self, alloc: Global, row: &KeptRow) -> Result<(), KeepFault>
        ensures fails { (result ≡ Err Failed) ↔ IsToFail self.old.commits }
        ensures put { OnOk result (self.new ≡ record self.old { rows = with_row row.now self.old.rows; commits = called self.old.commits }) }
        ensures failed { result ≡ Err Failed → self.new ≡ record self.old { commits = called self.old.commits; faults = one_more self.old.faults } }
        ensures no_memory { result ≡ Err NoMemory → self.new ≡ record self.old { commits = called self.old.commits } }
        ensures kept { OnOk result (HoldsAfter (Some (bytes_under self.old.rows)) (Some (bytes_under self.new.rows)) row.now) }
        ensures same { OnErr result (self.new.rows ≡ self.old.rows) }
        ensures never_falls { self.old.faults ≤ self.new.faults }
    {
        if self.commits.next_call_fails() {
            return Err(self.failure());
        }
        self.rows.put(row.clone()?)?;
        Ok(())
    }
}
