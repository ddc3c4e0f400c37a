//! The names of tables on their disks.

ghost use Rattle.std.specs.Prelude.{◌≡◌, ◌≤◌, ◌-◌, ◌||◌, ◌&&◌, ℕ, IsTrue, IsFalse, IfOk, IfErr, OnOk, Err, Ok, take, slice_get};
ghost use Rattle.std.specs.Option.{option_copied};
ghost use Rattle.tab_outside.specs.Armed.{with_fail, with_stop};
ghost use Rattle.tab_outside.specs.Disks.{Rests};
ghost use Rattle.tab_outside.specs.Pairs.{Extends, AddsNone};
ghost use Rattle.tab_journal.specs.Stores.{area_a, area_b, area_of, IsSameStore, IsUnmoved, KeepsStops};
ghost use Rattle.tab_journal.specs.Keeping.{IsSound, StandsWith};
ghost use Rattle.tab_journal.specs.Areas.{Spells};
ghost use Rattle.tab_history.specs.World.{table_of, names_from};
ghost use Rattle.tab_master.specs.Ordered.{in_order};
ghost use Rattle.tab_master.specs.Spelled.{by_number, AreNames};
ghost use Rattle.tab_master.specs.Names.{names_sense, NamesGoOn, NamesReady};
ghost use Rattle.tab_master.specs.NamesCalls.{IsNames, IsNumberFor, AfterStep, AfterSettle, SettlesFirst, Creates, Drops, RewritesNames, NamesCauses, IsOwnDamage};
ghost use Rattle.tab_master.specs.declared.refusals.NamesRefused.TheVariants.{Damaged};

use crate::refusals::names_refused;
use crate::{NamesContent, NamesRefused, NamesStep, TableRow};
use std::alloc::Global;
use std::marker::Model;
use tab_history::TableNames;
use tab_journal::Kept;
use tab_keys::{Memory, TableName};
use tab_outside::Disk;

/// The names of tables, in memory and on their two disks, with at most one step in doubt.
#[derive(Drop)]
pub struct Names<D> {
    kept: Kept<D, NamesContent>,
}

impl<D> Model for Names<D> {
    ghost use Rattle.tab_master.specs.NamesCalls.{NamesKept, IsNames};

    ghost Value = { NamesKept D };

    ghost view = { λ names. names.kept };

    ghost invariant = { λ names. IsNames names.kept };
}

impl<D> Names<D> {
    /// Names with their store.
    pub(crate) fn of(kept: Kept<D, NamesContent>) -> Names<D>
        requires { IsNames kept }
        ensures { result ≡ kept }
    {
        Names { kept }
    }
}

impl<D: Disk> Names<D> {
    /// Makes a table of a name that none has, whatever its case, and answers its number, which no table had before. Names
    /// that have failed are settled first.
    pub fn create(&mut self, alloc: Global, name: &TableName) -> Result<u64, NamesRefused>
        requires sound { D.honest → IsSound D.watch names_sense self.old }
        ensures sound { D.honest → IsSound D.watch names_sense self.new }
        ensures after { SettlesFirst D.watch D.honest (λ mid. Creates D.watch D.honest name.now self.old mid self.new result) self.old self.new result }
        ensures never { D.honest → (disk at : ℕ) → result ≡ Err (Damaged disk at) → ⊥ }
        ensures damaged { IsOwnDamage result }
        ensures same { IsSameStore self.old.store self.new.store }
        ensures stops { KeepsStops D.has_stops self.old.store self.new.store }
        ensures causes { NamesCauses D.faults self.old self.new result }
    {
        self.settle(alloc)?;
        self.make(alloc, name)
    }

    /// Drops the table of a name, whatever its case. Names that have failed are settled first.
    pub fn drop_table(&mut self, alloc: Global, name: &TableName) -> Result<(), NamesRefused>
        requires sound { D.honest → IsSound D.watch names_sense self.old }
        ensures sound { D.honest → IsSound D.watch names_sense self.new }
        ensures after { SettlesFirst D.watch D.honest (λ mid. Drops D.watch D.honest name.now self.old mid self.new result) self.old self.new result }
        ensures never { D.honest → (disk at : ℕ) → result ≡ Err (Damaged disk at) → ⊥ }
        ensures damaged { IsOwnDamage result }
        ensures same { IsSameStore self.old.store self.new.store }
        ensures stops { KeepsStops D.has_stops self.old.store self.new.store }
        ensures causes { NamesCauses D.faults self.old self.new result }
    {
        self.settle(alloc)?;
        self.take(alloc, name)
    }

    /// The number of the table of a name, whatever its case. It takes no memory.
    pub fn resolve(&self, name: &TableName) -> Option<u64>
        ensures { result ≡ table_of self.now.held.told.names name.now }
    {
        self.kept.held().find(name)
    }

    /// The first `top` names from one on, or from the first, in the order of names without case, and the one behind them.
    pub fn list(
        &self,
        alloc: Global,
        after: &Option<TableName>,
        top: u16,
    ) -> Result<(TableNames, Option<TableName>), Memory>
        ensures names { IfOk result (λ listed. listed.0 ≡ take top (names_from self.now.held.told.names after.now)) }
        ensures next { IfOk result (λ listed. listed.1 ≡ slice_get (names_from self.now.held.told.names after.now) top) }
    {
        self.kept.held().list(alloc, after, top)
    }

    /// All tables with their names, in the order of their numbers.
    pub fn tables(&self, alloc: Global) -> Result<Vec<TableRow>, Memory>
        ensures { IfOk result (λ rows. rows.items ≡ in_order by_number self.now.held.told.names) }
    {
        self.kept.held().numbered(alloc)
    }

    /// Reads the store anew where it has failed, and does the step in doubt where it stands.
    pub fn settle(&mut self, alloc: Global) -> Result<(), NamesRefused>
        requires sound { D.honest → IsSound D.watch names_sense self.old }
        ensures sound { D.honest → IsSound D.watch names_sense self.new }
        ensures after { AfterSettle self.old self.new result }
        ensures running { IsFalse self.old.failed → self.new ≡ self.old }
        ensures never { D.honest → (disk at : ℕ) → result ≡ Err (Damaged disk at) → ⊥ }
        ensures damaged { IsOwnDamage result }
        ensures images_a { D.honest → AddsNone D.watch (area_a self.old.store) (area_a self.new.store) }
        ensures images_b { D.honest → AddsNone D.watch (area_b self.old.store) (area_b self.new.store) }
        ensures same { IsSameStore self.old.store self.new.store }
        ensures stops { KeepsStops D.has_stops self.old.store self.new.store }
        ensures causes { NamesCauses D.faults self.old self.new result }
    {
        if !self.kept.failed() {
            return Ok(());
        }
        match self.kept.settle(alloc) {
            Ok(_stood) => Ok(()),
            Err(refused) => Err(names_refused(refused)),
        }
    }

    /// Rewrites the store to the names that there are, a million of them in a frame. Names that have failed are settled
    /// first.
    pub fn checkpoint(&mut self, alloc: Global) -> Result<(), NamesRefused>
        requires sound { D.honest → IsSound D.watch names_sense self.old }
        ensures sound { D.honest → IsSound D.watch names_sense self.new }
        ensures after { SettlesFirst D.watch D.honest (λ mid. RewritesNames D.watch D.honest mid self.new result) self.old self.new result }
        ensures never { D.honest → (disk at : ℕ) → result ≡ Err (Damaged disk at) → ⊥ }
        ensures damaged { IsOwnDamage result }
        ensures same { IsSameStore self.old.store self.new.store }
        ensures stops { KeepsStops D.has_stops self.old.store self.new.store }
        ensures causes { NamesCauses D.faults self.old self.new result }
    {
        self.settle(alloc)?;
        self.rewrite(alloc)
    }

    /// Whether the store has to be read anew.
    pub fn failed(&self) -> bool
        ensures is { result ≡ self.now.failed }
        ensures names { IsNames self.now }
    {
        self.kept.failed()
    }

    /// The step of which it is open whether it stands.
    pub fn doubt(&self) -> Option<&NamesStep>
        ensures { option_copied result ≡ self.now.doubt }
    {
        self.kept.doubt()
    }

    /// The disks of area 0 and of area 1.
    pub fn into_disks(self) -> (D, D)
        ensures a { result.0 ≡ area_a self.store }
        ensures b { result.1 ≡ area_b self.store }
    {
        self.kept.into_disks()
    }

    /// Makes the call number `after` from now on the disk of an area fail once; false where the disk
    /// has no such thing.
    pub fn arm_fail(&mut self, area: u8, after: u64) -> bool
        requires { area ≤ 1 }
        ensures has { result ≡ D.has_stops (area_of self.old.store area) }
        ensures armed { IsTrue result → D.armed (area_of self.new.store area) ≡ with_fail (D.armed (area_of self.old.store area)) after }
        ensures beside { area_of self.new.store (1 - area) ≡ area_of self.old.store (1 - area) }
        ensures unchanged { IsFalse result → self.new ≡ self.old }
        ensures rests { D.honest → Rests D.watch (area_of self.old.store area) (area_of self.new.store area) }
        ensures faults { D.faults (area_of self.new.store area) ≡ D.faults (area_of self.old.store area) }
        ensures sound { D.honest → IsSound D.watch names_sense self.old → IsSound D.watch names_sense self.new }
        ensures kept { (self.new.held ≡ self.old.held) × (self.new.doubt ≡ self.old.doubt) × (self.new.failed ≡ self.old.failed) }
        ensures unmoved { IsUnmoved self.old.store self.new.store }
        ensures stops { KeepsStops D.has_stops self.old.store self.new.store }
    {
        self.kept.arm_fail(area, after)
    }

    /// Makes the call number `after` from now on the disk of an area, and all that follow it, fail; false where the disk
    /// has no such thing.
    pub fn arm_stop(&mut self, area: u8, after: u64) -> bool
        requires { area ≤ 1 }
        ensures has { result ≡ D.has_stops (area_of self.old.store area) }
        ensures armed { IsTrue result → D.armed (area_of self.new.store area) ≡ with_stop (D.armed (area_of self.old.store area)) after }
        ensures beside { area_of self.new.store (1 - area) ≡ area_of self.old.store (1 - area) }
        ensures unchanged { IsFalse result → self.new ≡ self.old }
        ensures rests { D.honest → Rests D.watch (area_of self.old.store area) (area_of self.new.store area) }
        ensures faults { D.faults (area_of self.new.store area) ≡ D.faults (area_of self.old.store area) }
        ensures sound { D.honest → IsSound D.watch names_sense self.old → IsSound D.watch names_sense self.new }
        ensures kept { (self.new.held ≡ self.old.held) × (self.new.doubt ≡ self.old.doubt) × (self.new.failed ≡ self.old.failed) }
        ensures unmoved { IsUnmoved self.old.store self.new.store }
        ensures stops { KeepsStops D.has_stops self.old.store self.new.store }
    {
        self.kept.arm_stop(area, after)
    }

    /// Whether a call on one of the disks has met an armed stop.
    pub fn stopped(&self) -> bool
        ensures { result ≡ ((D.armed (area_a self.now.store)).stopped || (D.armed (area_b self.now.store)).stopped) }
    {
        self.kept.stopped()
    }

    /// Whether both disks have failures and stops, and can be restarted.
    pub fn has_stops(&self) -> bool
        ensures { result ≡ (D.has_stops (area_a self.now.store) && D.has_stops (area_b self.now.store)) }
    {
        self.kept.has_stops()
    }

    /// Finds memory for one more table.
    fn reserve_one(&mut self) -> Result<(), Memory>
        requires running { IsFalse self.old.failed }
        ensures view { self.new ≡ record self.old { held = record self.old.held { spare = self.new.held.spare } } }
        ensures room { OnOk result (1 ≤ self.new.held.spare) }
        ensures sound { D.honest → IsSound D.watch names_sense self.old → IsSound D.watch names_sense self.new }
    {
        self.kept.held_mut().reserve_one()
    }

    /// Finds memory for a table of a name, and copies the name.
    fn room_for(&mut self, alloc: Global, name: &TableName) -> Result<TableName, NamesRefused>
        requires running { IsFalse self.old.failed }
        ensures view { self.new ≡ record self.old { held = record self.old.held { spare = self.new.held.spare } } }
        ensures is { IfOk result (λ copy. copy ≡ name.now) }
        ensures room { OnOk result (1 ≤ self.new.held.spare) }
        ensures refused { IfErr result (λ refused. refused ≡ NamesRefused.Memory) }
        ensures sound { D.honest → IsSound D.watch names_sense self.old → IsSound D.watch names_sense self.new }
    {
        let Ok(copy) = name.try_copy(alloc) else {
            return Err(NamesRefused::Memory);
        };
        if self.reserve_one().is_err() {
            return Err(NamesRefused::Memory);
        }
        Ok(copy)
    }

    /// The number that a table of a name would have, where it may be made.
    fn number_for(&self, name: &TableName) -> Result<u64, NamesRefused>
        ensures { IsNumberFor self.now.held.told name.now result }
    {
        if self.resolve(name).is_some() {
            return Err(NamesRefused::AlreadyThere);
        }
        let table = self.kept.held().next_table();
        if table == u64::MAX {
            return Err(NamesRefused::IdsSpent);
        }
        Ok(table)
    }

    /// Does a step of names that run: on the disks, and then in memory.
    fn step(&mut self, alloc: Global, step: NamesStep) -> Result<(), NamesRefused>
        requires running { IsFalse self.old.failed }
        requires fits { NamesGoOn self.old.held.told step }
        requires ready { NamesReady self.old.held step }
        requires sound { D.honest → IsSound D.watch names_sense self.old }
        ensures sound { D.honest → IsSound D.watch names_sense self.new }
        ensures after { AfterStep self.old self.new step result }
        ensures images { D.honest → Extends D.watch (Spells self.old.store.kind self.old.store.number) (StandsWith names_sense self.old.held step)
            (area_a self.old.store) (area_b self.old.store) (area_a self.new.store) (area_b self.new.store) }
        ensures same { IsSameStore self.old.store self.new.store }
        ensures stops { KeepsStops D.has_stops self.old.store self.new.store }
        ensures causes { NamesCauses D.faults self.old self.new result }
    {
        match self.kept.change(alloc, step) {
            Ok(()) => Ok(()),
            Err(refused) => Err(names_refused(refused)),
        }
    }

    /// Makes a table, of names that run.
    fn make(&mut self, alloc: Global, name: &TableName) -> Result<u64, NamesRefused>
        requires running { IsFalse self.old.failed }
        requires sound { D.honest → IsSound D.watch names_sense self.old }
        ensures sound { D.honest → IsSound D.watch names_sense self.new }
        ensures creates { Creates D.watch D.honest name.now self.old self.old self.new result }
        ensures same { IsSameStore self.old.store self.new.store }
        ensures stops { KeepsStops D.has_stops self.old.store self.new.store }
        ensures causes { NamesCauses D.faults self.old self.new result }
    {
        let table = self.number_for(name)?;
        let name = self.room_for(alloc, name)?;
        self.step(alloc, NamesStep::Create { table, name })?;
        Ok(table)
    }

    /// Drops a table, of names that run.
    fn take(&mut self, alloc: Global, name: &TableName) -> Result<(), NamesRefused>
        requires running { IsFalse self.old.failed }
        requires sound { D.honest → IsSound D.watch names_sense self.old }
        ensures sound { D.honest → IsSound D.watch names_sense self.new }
        ensures drops { Drops D.watch D.honest name.now self.old self.old self.new result }
        ensures same { IsSameStore self.old.store self.new.store }
        ensures stops { KeepsStops D.has_stops self.old.store self.new.store }
        ensures causes { NamesCauses D.faults self.old self.new result }
    {
        let Some(table) = self.number_of(name) else {
            return Err(NamesRefused::NotThere);
        };
        self.step(alloc, NamesStep::Drop { table })
    }

    /// The number of the table of a name, and that it may be dropped.
    fn number_of(&self, name: &TableName) -> Option<u64>
        ensures is { result ≡ table_of self.now.held.told.names name.now }
        ensures orderly { AreNames self.now.held.told }
    {
        self.kept.held().find(name)
    }

    /// Rewrites the store of names that run.
    fn rewrite(&mut self, alloc: Global) -> Result<(), NamesRefused>
        requires running { IsFalse self.old.failed }
        requires sound { D.honest → IsSound D.watch names_sense self.old }
        ensures sound { D.honest → IsSound D.watch names_sense self.new }
        ensures rewrites { RewritesNames D.watch D.honest self.old self.new result }
        ensures same { IsSameStore self.old.store self.new.store }
        ensures stops { KeepsStops D.has_stops self.old.store self.new.store }
        ensures causes { NamesCauses D.faults self.old self.new result }
    {
        match self.kept.checkpoint(alloc) {
            Ok(()) => Ok(()),
            Err(refused) => Err(names_refused(refused)),
        }
    }
}
