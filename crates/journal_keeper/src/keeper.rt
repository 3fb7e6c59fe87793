ghost use Rattle.std.specs.Prelude.{◌≡◌, ◌⊎◌, List, None, Some, true, find, IfOk, IfSome, IsSome, OnOk};
ghost use Rattle.case_rules.specs.Cases.{is_named, is_queued, queued_of, own_lines, open_lines};
ghost use Rattle.case_rules.specs.declared.case.Case.{Case};
ghost use Rattle.case_rules.specs.Docket.{Fits};
ghost use Rattle.case_keeper.specs.Keeper.{Tells, history_of, told_after, KeepCause};
ghost use Rattle.journal_reading.specs.Keeping.{IsReady, IsSafe, NoOther};
ghost use Rattle.journal_reading.specs.Opening.{Answers, HoldsCases, OpenCause, Spares};
ghost use Rattle.journal_keeper.specs.Causes.{CountsBy, IsUnopenable, Misfits};
ghost use Rattle.journal_keeper.specs.State.{told_cases, all_faults, Outlasts};

use crate::adding::add;
use crate::looking::{appealed, first_queued, found, history, listed, queued};
use crate::readying::{make_ready, total};
use case_keeper::{KeepFault, Keeper};
use case_rules::{Case, Change, Entry, Line};
use disks::Disk;
use journal_reading::{OpenFault, Opened, opened_journal};
use std::alloc::Global;
use std::marker::Model;
use vet_base::{Name, Shared};

/// A keeper over a journal in a disk. It tells the cases where the disk tells what it holds. Each call opens the
/// journal where that was not done, or mends its end, before anything else. A call succeeds only where the bytes hold
/// cases; bytes that are no journal are left alone.
#[derive(Drop)]
pub struct JournalKeeper<D: Disk + Drop> {
    disk: D,
    opened: Option<Opened>,
    own: u64,
}

impl<D: Disk + Drop> Model for JournalKeeper<D> {
    ghost use Rattle.journal_keeper.specs.State.{JournalState};
    ghost use Rattle.journal_reading.specs.Keeping.{IsKept};

    ghost Value = { JournalState };

    ghost view = { λ k. record {
      told = D.told k.disk;
      faults = D.fault_count k.disk;
      own = k.own;
      opened = k.opened;
    } };

    ghost invariant = { λ k. IsKept (D.told k.disk) k.opened };
}

impl<D: Disk + Drop> JournalKeeper<D> {
    /// A keeper over the journal of a disk. It makes no call of the disk.
    pub fn new(disk: D) -> Self
        ensures { result ≡ record { told = D.told disk; faults = D.fault_count disk; own = 0; opened = None } }
    {
        JournalKeeper {
            disk,
            opened: None,
            own: 0,
        }
    }

    /// The disk, as it is.
    pub fn give_back(self) -> D
        ensures told { D.told result ≡ self.told }
        ensures faults { D.fault_count result ≡ self.faults }
    {
        self.disk
    }

    /// Opens the journal where that was not done. After a fault its cases are as before. Once it is open, what a read
    /// gives and what a crash leaves holds its cases.
    pub fn open(&mut self, alloc: Global) -> Result<(), OpenFault>
        ensures answer { self.old.opened ≡ None → IfSome self.old.told (λ t. Answers t.now.bytes result) }
        ensures opened { OnOk result (IsSome self.new.opened) }
        ensures again { IsSome self.old.opened → self.new ≡ self.old }
        ensures safe_now { OnOk result (IfSome self.new.told (IsSafe self.new.opened)) }
        ensures told { told_cases self.new ≡ told_cases self.old }
        ensures outlasts { Outlasts NoOther self.old self.new }
        ensures spares { Spares self.old.told self.new.told }
        ensures cause { OpenCause self.old.faults self.new.faults result }
        ensures own { self.new.own ≡ self.old.own }
    {
        if self.opened.is_some() {
            return Ok(());
        }
        let opened = opened_journal(alloc, &mut self.disk)?;
        self.opened = Some(opened);
        Ok(())
    }

    /// Opens the journal, or mends its end.
    fn make_ready(&mut self, alloc: Global) -> Result<(), KeepFault>
        ensures ready { OnOk result (IsReady self.new.opened) }
        ensures told { told_cases self.new ≡ told_cases self.old }
        ensures outlasts { Outlasts NoOther self.old self.new }
        ensures held { OnOk result (IfSome self.old.told HoldsCases) }
        ensures spares { Spares self.old.told self.new.told }
        ensures counts { CountsBy (IsUnopenable self.old.opened self.old.told)
            self.old.faults self.new.faults self.old.own self.new.own result }
    {
        make_ready(alloc, &mut self.disk, &mut self.opened, &mut self.own)
    }
}

impl<D: Disk + Drop> Keeper for JournalKeeper<D> {
    ghost told = { told_cases };

    ghost fault_count = { all_faults };

    fn find(
        &mut self,
        alloc: Global,
        party: &Name,
        reference: &Name,
    ) -> Result<Option<Case>, KeepFault>
        ensures answer { Tells (find (is_named party.now reference.now)) (told_cases self.old) result }
        ensures told { told_cases self.new ≡ told_cases self.old }
        ensures cause { KeepCause (all_faults self.old) (all_faults self.new) result }
        ensures outlasts { Outlasts NoOther self.old self.new }
        ensures safe_now { OnOk result (IfSome self.new.told (IsSafe self.new.opened)) }
        ensures held { OnOk result (IfSome self.old.told HoldsCases) }
        ensures spares { Spares self.old.told self.new.told }
        ensures counts { CountsBy (IsUnopenable self.old.opened self.old.told)
            self.old.faults self.new.faults self.old.own self.new.own result }
    {
        self.make_ready(alloc)?;
        found(alloc, &mut self.opened, party, reference)
    }

    fn history(
        &mut self,
        alloc: Global,
        party: &Name,
        reference: &Name,
    ) -> Result<Option<Shared<Entry>>, KeepFault>
        ensures answer { Tells (history_of party.now reference.now) (told_cases self.old) result }
        ensures told { told_cases self.new ≡ told_cases self.old }
        ensures cause { KeepCause (all_faults self.old) (all_faults self.new) result }
        ensures outlasts { Outlasts NoOther self.old self.new }
        ensures safe_now { OnOk result (IfSome self.new.told (IsSafe self.new.opened)) }
        ensures held { OnOk result (IfSome self.old.told HoldsCases) }
        ensures spares { Spares self.old.told self.new.told }
        ensures counts { CountsBy (IsUnopenable self.old.opened self.old.told)
            self.old.faults self.new.faults self.old.own self.new.own result }
    {
        self.make_ready(alloc)?;
        history(alloc, &mut self.opened, party, reference)
    }

    fn first_queued(&mut self, alloc: Global) -> Result<Option<Case>, KeepFault>
        ensures answer { Tells (find is_queued) (told_cases self.old) result }
        ensures queued { IfOk result (λ found. IfSome found (λ case. is_queued case ≡ true)) }
        ensures told { told_cases self.new ≡ told_cases self.old }
        ensures cause { KeepCause (all_faults self.old) (all_faults self.new) result }
        ensures outlasts { Outlasts NoOther self.old self.new }
        ensures safe_now { OnOk result (IfSome self.new.told (IsSafe self.new.opened)) }
        ensures held { OnOk result (IfSome self.old.told HoldsCases) }
        ensures spares { Spares self.old.told self.new.told }
        ensures counts { CountsBy (IsUnopenable self.old.opened self.old.told)
            self.old.faults self.new.faults self.old.own self.new.own result }
    {
        self.make_ready(alloc)?;
        first_queued(alloc, &mut self.opened)
    }

    fn queued(&mut self, alloc: Global, party: &Name) -> Result<u64, KeepFault>
        ensures answer { Tells (queued_of party.now) (told_cases self.old) result }
        ensures told { told_cases self.new ≡ told_cases self.old }
        ensures cause { KeepCause (all_faults self.old) (all_faults self.new) result }
        ensures outlasts { Outlasts NoOther self.old self.new }
        ensures safe_now { OnOk result (IfSome self.new.told (IsSafe self.new.opened)) }
        ensures held { OnOk result (IfSome self.old.told HoldsCases) }
        ensures spares { Spares self.old.told self.new.told }
        ensures counts { CountsBy (IsUnopenable self.old.opened self.old.told)
            self.old.faults self.new.faults self.old.own self.new.own result }
    {
        self.make_ready(alloc)?;
        queued(alloc, &mut self.opened, party)
    }

    fn list(&mut self, alloc: Global, party: &Name) -> Result<Shared<Line>, KeepFault>
        ensures answer { Tells (own_lines party.now) (told_cases self.old) result }
        ensures told { told_cases self.new ≡ told_cases self.old }
        ensures cause { KeepCause (all_faults self.old) (all_faults self.new) result }
        ensures outlasts { Outlasts NoOther self.old self.new }
        ensures safe_now { OnOk result (IfSome self.new.told (IsSafe self.new.opened)) }
        ensures held { OnOk result (IfSome self.old.told HoldsCases) }
        ensures spares { Spares self.old.told self.new.told }
        ensures counts { CountsBy (IsUnopenable self.old.opened self.old.told)
            self.old.faults self.new.faults self.old.own self.new.own result }
    {
        self.make_ready(alloc)?;
        listed(alloc, &mut self.opened, party)
    }

    fn appeals(&mut self, alloc: Global) -> Result<Shared<Line>, KeepFault>
        ensures answer { Tells open_lines (told_cases self.old) result }
        ensures told { told_cases self.new ≡ told_cases self.old }
        ensures cause { KeepCause (all_faults self.old) (all_faults self.new) result }
        ensures outlasts { Outlasts NoOther self.old self.new }
        ensures safe_now { OnOk result (IfSome self.new.told (IsSafe self.new.opened)) }
        ensures held { OnOk result (IfSome self.old.told HoldsCases) }
        ensures spares { Spares self.old.told self.new.told }
        ensures counts { CountsBy (IsUnopenable self.old.opened self.old.told)
            self.old.faults self.new.faults self.old.own self.new.own result }
    {
        self.make_ready(alloc)?;
        appealed(alloc, &mut self.opened)
    }

    /// A change that does not fit is counted and refused.
    fn apply(&mut self, alloc: Global, change: &Change) -> Result<(), KeepFault>
        requires { (cases : List Case) → told_cases self.old ≡ Some cases → Fits change.now cases }
        ensures told { told_cases self.new ≡ told_after change.now (told_cases self.old) result }
        ensures cause { KeepCause (all_faults self.old) (all_faults self.new) result }
        ensures outlasts { Outlasts (λ c. c ≡ change.now) self.old self.new }
        ensures safe_now { OnOk result (IfSome self.new.told (IsSafe self.new.opened)) }
        ensures held { OnOk result (IfSome self.old.told HoldsCases) }
        ensures spares { Spares self.old.told self.new.told }
        ensures counts { CountsBy (IsUnopenable self.old.opened self.old.told ⊎ Misfits change.now self.new.opened)
            self.old.faults self.new.faults self.old.own self.new.own result }
    {
        self.make_ready(alloc)?;
        add(
            alloc,
            &mut self.disk,
            &mut self.opened,
            &mut self.own,
            change,
        )
    }

    fn faults(&self) -> u64 {
        total(self.disk.faults(), self.own)
    }
}
