//! A range server: the ranges that it holds in memory, on its two disks.

ghost use Rattle.std.specs.Prelude.{◌≡◌, ◌≢◌, ℕ, ◌-◌, ◌≤◌, ◌||◌, ◌&&◌, None, Some, Ok, Err, ⊤, IsTrue, IsFalse, IfErr, OnOk, OnErr, MatchOption, IfSome, is_some};
ghost use Rattle.tab_outside.specs.Armed.{with_fail, with_stop};
ghost use Rattle.tab_outside.specs.Disks.{Rests};
ghost use Rattle.tab_journal.specs.Stores.{area_a, area_b, area_of, IsSameStore, IsUnmoved, KeepsStops};
ghost use Rattle.tab_journal.specs.Keeping.{IsSound};
ghost use Rattle.tab_ops.specs.Changes.{applied};
ghost use Rattle.tab_range.specs.Commands.{command_key};
ghost use Rattle.tab_range.specs.Outcomes.{accepted, AreOf};
ghost use Rattle.tab_range.specs.Ranges.{range_outcome};
ghost use Rattle.tab_server.specs.declared.ranges.Marked.{Marked};
ghost use Rattle.tab_server.specs.Contents.{IsHolding, ranges_sense};
ghost use Rattle.tab_server.specs.Serving.{range_of, range_for, is_past, is_marked, is_serving, is_sealed, is_copied, at_number, with_mark, with_tally, without_range, lacks_tally, is_in_doubt, doubt_without, tally_out, IsServed, IsServer};
ghost use Rattle.tab_server.specs.Acting.{Settles, Acts, AnswersAfter, IsTold, IsReadyToAct, IsStill, ChecksPoint, RewritesAfter};

use crate::refusals::{act_refused, denied_as, is_memory};
use crate::{ActRefused, Mark, RangeChange, Ranges};
use std::alloc::Global;
use std::marker::Model;
use tab_history::Reply;
use tab_journal::Kept;
use tab_keys::Memory;
use tab_ops::Changes;
use tab_outside::Disk;
use tab_range::{Answer, Backing, Command, Told};
use tab_rows::Rows;

/// Ranges in memory and on two disks, with at most one change in doubt. `D` is the type of its disks, and on a `T` a range
/// draws the strokes of its commands.
#[derive(Drop)]
pub struct Server<D, T: Backing> {
    kept: Kept<D, Ranges<T>>,
}

impl<D, T: Backing> Model for Server<D, T> {
    ghost use Rattle.std.specs.Coded.{codes};
    ghost use Rattle.tab_server.specs.Serving.{ServerView, IsServer};
    ghost use Rattle.tab_server.specs.contracts.steps.RangeChange as change;

    ghost Value = { ServerView D T };

    ghost coded = { Prim.hlevel (codes, change.the_row.coded) };

    ghost view = { λ server. server.kept };

    ghost invariant = { λ server. IsServer T.drew T.ready T.kin server.kept };
}

impl<D: Disk, T: Backing> Server<D, T> {
    /// A server over what is kept, in which nothing is in doubt.
    pub(crate) fn over(kept: Kept<D, Ranges<T>>) -> Server<D, T>
        requires { kept.doubt ≡ None }
        ensures { result ≡ kept }
    {
        Server { kept }
    }

    /// What a server keeps at each moment: its ranges stand by rising number, a copy has no tally, and a change in doubt may be done. It does
    /// nothing.
    pub fn keeps(&self)
        ensures holding { IsHolding self.now.held }
        ensures is { IsServer T.drew T.ready T.kin self.now }
    {
        self.kept.held().keeps();
    }

    /// Reads the store anew where it has failed, and does the change in doubt where it stands.
    pub fn settle(&mut self, alloc: Global) -> Result<(), ActRefused>
        requires sound { D.honest → IsSound D.watch (ranges_sense T.drew T.ready T.kin) self.old }
        ensures settles { Settles T.drew T.ready T.kin D.watch D.honest D.faults self.old self.new result }
        ensures same { IsSameStore self.old.store self.new.store }
        ensures stops { KeepsStops D.has_stops self.old.store self.new.store }
    {
        if !self.kept.failed() {
            return Ok(());
        }
        match self.kept.settle(alloc) {
            Ok(_stood) => Ok(()),
            Err(refused) => Err(act_refused(refused)),
        }
    }

    /// Rewrites the store to the ranges that are held, after it was read anew where it had failed.
    pub fn checkpoint(&mut self, alloc: Global) -> Result<(), ActRefused>
        requires sound { D.honest → IsSound D.watch (ranges_sense T.drew T.ready T.kin) self.old }
        ensures sound { D.honest → IsSound D.watch (ranges_sense T.drew T.ready T.kin) self.new }
        ensures rewrites { ChecksPoint T.drew T.ready T.kin D.watch D.honest D.faults self.old self.new result }
        ensures same { IsSameStore self.old.store self.new.store }
        ensures stops { KeepsStops D.has_stops self.old.store self.new.store }
    {
        self.settle(alloc)?;
        self.rewrite(alloc)
    }

    /// Rewrites the store of a server that runs.
    fn rewrite(&mut self, alloc: Global) -> Result<(), ActRefused>
        requires running { IsFalse self.old.failed }
        requires sound { D.honest → IsSound D.watch (ranges_sense T.drew T.ready T.kin) self.old }
        ensures sound { D.honest → IsSound D.watch (ranges_sense T.drew T.ready T.kin) self.new }
        ensures rewrites { RewritesAfter T.drew T.ready T.kin D.watch D.honest D.faults self.old self.new (Ok tt) result }
        ensures same { IsSameStore self.old.store self.new.store }
        ensures stops { KeepsStops D.has_stops self.old.store self.new.store }
    {
        match self.kept.checkpoint(alloc) {
            Ok(()) => Ok(()),
            Err(refused) => Err(act_refused(refused)),
        }
    }

    /// Answers a command at a moment in ticks. An accepted change is on the disks before it is answered.
    pub fn act(&mut self, alloc: Global, command: &Command, now: u64) -> Result<Reply, ActRefused>
        requires ready { IsReadyToAct T.drew T.ready T.kin self.old command.now }
        requires sound { D.honest → IsSound D.watch (ranges_sense T.drew T.ready T.kin) self.old }
        ensures sound { D.honest → IsSound D.watch (ranges_sense T.drew T.ready T.kin) self.new }
        ensures acts { Acts T.drew T.ready T.kin D.watch D.honest D.faults command.now now self.old self.new result }
        ensures same { IsSameStore self.old.store self.new.store }
        ensures stops { KeepsStops D.has_stops self.old.store self.new.store }
    {
        self.kept.held().keeps();
        let Ok(key) = command.key(alloc) else {
            return Err(ActRefused::Memory);
        };
        let Some(marked) = self.kept.held().find_for(&key) else {
            return Err(ActRefused::NotHeld);
        };
        let range = marked.range.id();
        if let Mark::Sealed = marked.mark {
            return Err(ActRefused::Sealed { range });
        }
        self.settle(alloc)?;
        self.answer(alloc, range, command, now)
    }

    /// Gives a range that takes commands and has no tally its tally; otherwise the tally comes back.
    pub fn hand_in(&mut self, range: u64, tally: T) -> Result<(), T>
        requires means { (marked : Marked T) → range_of self.old.held range ≡ Some marked → T.covers tally marked.range.span × T.allows tally marked.range.span marked.range.rows marked.range.next_tick }
        requires sound { D.honest → IsSound D.watch (ranges_sense T.drew T.ready T.kin) self.old }
        ensures sound { D.honest → IsSound D.watch (ranges_sense T.drew T.ready T.kin) self.new }
        ensures taken { OnOk result (IsTrue (lacks_tally (range_of self.old.held range)) × (self.new ≡ record self.old { held = at_number range (with_tally (Some tally)) self.old.held })) }
        ensures back { IfErr result (λ back. IsFalse (lacks_tally (range_of self.old.held range)) × (back ≡ tally) × (self.new ≡ self.old)) }
    {
        if !self.kept.held().lacks_tally(range) {
            return Err(tally);
        }
        self.kept.held_mut().give(range, tally);
        Ok(())
    }

    /// Takes the tally of a sealed range out, if it has one and no change of it is in doubt.
    pub fn hand_out(&mut self, range: u64) -> Option<T>
        requires sound { D.honest → IsSound D.watch (ranges_sense T.drew T.ready T.kin) self.old }
        ensures sound { D.honest → IsSound D.watch (ranges_sense T.drew T.ready T.kin) self.new }
        ensures tally { result ≡ tally_out self.old.doubt (range_of self.old.held range) }
        ensures left { IsTrue (is_some result) → self.new ≡ record self.old { held = at_number range (with_tally None) self.old.held } }
        ensures none { result ≡ None → self.new ≡ self.old }
        ensures means { MatchOption result ⊤ (λ tally. (marked : Marked T) × (range_of self.old.held range ≡ Some marked)
            × T.covers tally marked.range.span × T.allows tally marked.range.span marked.range.rows marked.range.next_tick) }
    {
        if self.is_in_doubt(range) || !self.kept.held().is_sealed(range) {
            return None;
        }
        self.kept.held_mut().take_tally(range)
    }

    /// Seals a range that is serving: commands for it are refused. False where there is no such range. It takes no memory.
    pub fn seal(&mut self, range: u64) -> bool
        requires sound { D.honest → IsSound D.watch (ranges_sense T.drew T.ready T.kin) self.old }
        ensures sound { D.honest → IsSound D.watch (ranges_sense T.drew T.ready T.kin) self.new }
        ensures is { result ≡ is_marked is_serving (range_of self.old.held range) }
        ensures sealed { IsTrue result → self.new ≡ record self.old { held = at_number range (with_mark Mark.Sealed) self.old.held } }
        ensures still { IsFalse result → self.new ≡ self.old }
    {
        if !self.kept.held().is_serving(range) {
            return false;
        }
        self.kept.held_mut().remark(range, Mark::Sealed);
        true
    }

    /// Lets a range that is sealed take commands again. False where there is no such range. It takes no memory.
    pub fn give_back(&mut self, range: u64) -> bool
        requires sound { D.honest → IsSound D.watch (ranges_sense T.drew T.ready T.kin) self.old }
        ensures sound { D.honest → IsSound D.watch (ranges_sense T.drew T.ready T.kin) self.new }
        ensures is { result ≡ is_marked is_sealed (range_of self.old.held range) }
        ensures given { IsTrue result → self.new ≡ record self.old { held = at_number range (with_mark Mark.Serving) self.old.held } }
        ensures still { IsFalse result → self.new ≡ self.old }
    {
        if !self.kept.held().is_sealed(range) {
            return false;
        }
        self.kept.held_mut().remark(range, Mark::Serving);
        true
    }

    /// Lets a range that is a whole copy take commands. False where there is no such range. It takes no memory.
    pub fn serve_range(&mut self, range: u64) -> bool
        requires sound { D.honest → IsSound D.watch (ranges_sense T.drew T.ready T.kin) self.old }
        ensures sound { D.honest → IsSound D.watch (ranges_sense T.drew T.ready T.kin) self.new }
        ensures is { result ≡ is_marked is_copied (range_of self.old.held range) }
        ensures serves { IsTrue result → self.new ≡ record self.old { held = at_number range (with_mark Mark.Serving) self.old.held } }
        ensures still { IsFalse result → self.new ≡ self.old }
    {
        if !self.kept.held().is_copied(range) {
            return false;
        }
        self.kept.held_mut().remark(range, Mark::Serving);
        true
    }

    /// Lets go of a range in memory, and of a change of it that is in doubt. False where it is not held. It takes no memory.
    pub fn retire(&mut self, range: u64) -> bool
        requires sound { D.honest → IsSound D.watch (ranges_sense T.drew T.ready T.kin) self.old }
        ensures sound { D.honest → IsSound D.watch (ranges_sense T.drew T.ready T.kin) self.new }
        ensures is { result ≡ is_some (range_of self.old.held range) }
        ensures retired { IsTrue result → self.new ≡ record self.old { held = without_range range self.old.held; doubt = doubt_without range self.old.doubt } }
        ensures still { IsFalse result → self.new ≡ self.old }
    {
        if self.kept.held().find(range).is_none() {
            return false;
        }
        if !self.is_in_doubt(range) {
            self.kept.held_mut().retire(range);
            return true;
        }
        self.kept.held_mut().retire(range);
        self.kept.forget();
        true
    }

    /// The rows and the next tick of a range that is held with any mark.
    pub fn rows_of(&self, range: u64) -> Option<(&Rows, u64)>
        ensures { MatchOption result (range_of self.now.held range ≡ None) (λ found. (marked : Marked T) × (range_of self.now.held range ≡ Some marked)
            × (found.0.now ≡ record { rows = marked.range.rows; spare = marked.range.spare }) × (found.1 ≡ marked.range.next_tick)) }
    {
        match self.kept.held().find(range) {
            Some(marked) => Some((marked.range.rows(), marked.range.next_tick())),
            None => None,
        }
    }

    /// Whether a range is held and its next tick is above this one: so a change of this tick that was in doubt stands.
    pub fn settled(&self, range: u64, tick: u64) -> bool
        ensures { result ≡ is_past tick (range_of self.now.held range) }
    {
        match self.kept.held().find(range) {
            Some(marked) => tick < marked.range.next_tick(),
            None => false,
        }
    }

    /// Answers a command of a range that is for it, while the store runs.
    fn answer(
        &mut self,
        alloc: Global,
        range: u64,
        command: &Command,
        now: u64,
    ) -> Result<Reply, ActRefused>
        requires running { IsFalse self.old.failed }
        requires stands { (marked : Marked T) × IsServed self.old.held range command.now marked }
        requires ready { IsReadyToAct T.drew T.ready T.kin self.old command.now }
        requires sound { D.honest → IsSound D.watch (ranges_sense T.drew T.ready T.kin) self.old }
        ensures sound { D.honest → IsSound D.watch (ranges_sense T.drew T.ready T.kin) self.new }
        ensures answers { AnswersAfter T.drew T.ready T.kin D.watch D.honest D.faults command.now now self.old self.new (Ok tt) result }
        ensures same { IsSameStore self.old.store self.new.store }
        ensures stops { KeepsStops D.has_stops self.old.store self.new.store }
    {
        self.kept.held().keeps();
        let Ok(copy) = command.try_copy(alloc) else {
            return Err(ActRefused::Memory);
        };
        match self.kept.held().decide(alloc, range, command, now) {
            Ok(Answer::Change(changes)) => self.make(alloc, range, copy, changes, now),
            Ok(Answer::Reply(reply)) => {
                self.tell(range, copy, now);
                Ok(reply)
            }
            Err(denied) => {
                if is_memory(&denied) {
                    return Err(ActRefused::Memory);
                }
                self.tell(range, copy, now);
                Err(denied_as(denied))
            }
        }
    }

    /// Draws the stroke of a command that changes nothing. It takes no memory.
    fn tell(&mut self, range: u64, command: Command, now: u64)
        requires due { (marked : Marked T) × IsServed self.old.held range command marked × ((range_outcome marked.range command now).tick ≡ None) }
        requires running { IsFalse self.old.failed }
        requires ready { IsReadyToAct T.drew T.ready T.kin self.old command }
        ensures told { (marked : Marked T) × (range_for self.old.held (command_key command) ≡ Some marked) × IsTold T.drew T.ready T.kin marked command now self.old self.new }
        ensures sound { D.honest → IsSound D.watch (ranges_sense T.drew T.ready T.kin) self.old → IsSound D.watch (ranges_sense T.drew T.ready T.kin) self.new }
    {
        let told = Told {
            command,
            tick: None,
        };
        self.kept.held_mut().tell(range, &told, now);
    }

    /// Makes a change: first all memory that it takes is found, then it is written, and then it is done in memory.
    fn make(
        &mut self,
        alloc: Global,
        range: u64,
        command: Command,
        changes: Changes,
        now: u64,
    ) -> Result<Reply, ActRefused>
        requires running { IsFalse self.old.failed }
        requires due { (marked : Marked T) × IsServed self.old.held range command marked
            × (range_outcome marked.range command now ≡ accepted changes.tick (applied marked.range.rows changes.list)) }
        requires of { AreOf command (Answer.Change changes) }
        requires ready { IsReadyToAct T.drew T.ready T.kin self.old command }
        requires sound { D.honest → IsSound D.watch (ranges_sense T.drew T.ready T.kin) self.old }
        ensures sound { D.honest → IsSound D.watch (ranges_sense T.drew T.ready T.kin) self.new }
        ensures answers { AnswersAfter T.drew T.ready T.kin D.watch D.honest D.faults command now self.old self.new (Ok tt) result }
        ensures same { IsSameStore self.old.store self.new.store }
        ensures stops { KeepsStops D.has_stops self.old.store self.new.store }
    {
        self.kept.held().keeps();
        let tick = changes.tick;
        let count = changes.list.len();
        let step = RangeChange {
            range,
            changes,
            told: Told {
                command,
                tick: Some(tick),
            },
            moment: now,
        };
        let Ok(prepared) = step.prepared(alloc) else {
            return Err(ActRefused::Memory);
        };
        if self.reserve(range, count).is_err() {
            return Err(ActRefused::Memory);
        }
        match self.kept.change_prepared(&prepared, step) {
            Ok(()) => Ok(Reply::Changed(tick)),
            Err(refused) => Err(act_refused(refused)),
        }
    }

    /// Finds memory, so that so many more rows can be put into a range.
    fn reserve(&mut self, range: u64, more: usize) -> Result<(), Memory>
        requires running { IsFalse self.old.failed }
        requires held { range_of self.old.held range ≢ None }
        ensures still { IsStill T.drew T.ready T.kin range self.old self.new }
        ensures room { OnOk result (IfSome (range_of self.new.held range) (λ marked. more ≤ marked.range.spare)) }
        ensures sound { D.honest → IsSound D.watch (ranges_sense T.drew T.ready T.kin) self.old → IsSound D.watch (ranges_sense T.drew T.ready T.kin) self.new }
    {
        self.kept.held_mut().reserve(range, more)
    }

    /// Whether a change of a range is in doubt.
    fn is_in_doubt(&self, range: u64) -> bool
        ensures { result ≡ is_in_doubt self.now.doubt range }
    {
        match self.kept.doubt() {
            Some(step) => step.range == range,
            None => false,
        }
    }

    /// Whether the store has to be read anew.
    pub fn failed(&self) -> bool
        ensures is { result ≡ self.now.failed }
        ensures clear { IsFalse result → self.now.doubt ≡ None }
    {
        self.kept.failed()
    }

    /// The disks of area 0 and of area 1.
    pub fn into_disks(self) -> (D, D)
        ensures a { result.0 ≡ area_a self.store }
        ensures b { result.1 ≡ area_b self.store }
    {
        self.kept.into_disks()
    }

    /// Makes the call number `after` from now on the disk of an area fail once; false where the disk
    /// has no such thing.
    pub fn arm_fail(&mut self, area: u8, after: u64) -> bool
        requires { area ≤ 1 }
        ensures has { result ≡ D.has_stops (area_of self.old.store area) }
        ensures armed { IsTrue result → D.armed (area_of self.new.store area) ≡ with_fail (D.armed (area_of self.old.store area)) after }
        ensures beside { area_of self.new.store (1 - area) ≡ area_of self.old.store (1 - area) }
        ensures unchanged { IsFalse result → self.new ≡ self.old }
        ensures rests { D.honest → Rests D.watch (area_of self.old.store area) (area_of self.new.store area) }
        ensures faults { D.faults (area_of self.new.store area) ≡ D.faults (area_of self.old.store area) }
        ensures sound { D.honest → IsSound D.watch (ranges_sense T.drew T.ready T.kin) self.old → IsSound D.watch (ranges_sense T.drew T.ready T.kin) self.new }
        ensures kept { (self.new.held ≡ self.old.held) × (self.new.doubt ≡ self.old.doubt) × (self.new.failed ≡ self.old.failed) }
        ensures unmoved { IsUnmoved self.old.store self.new.store }
        ensures stops { KeepsStops D.has_stops self.old.store self.new.store }
    {
        self.kept.arm_fail(area, after)
    }

    /// Makes the call number `after` from now on the disk of an area, and all that follow it, fail; false where the disk
    /// has no such thing.
    pub fn arm_stop(&mut self, area: u8, after: u64) -> bool
        requires { area ≤ 1 }
        ensures has { result ≡ D.has_stops (area_of self.old.store area) }
        ensures armed { IsTrue result → D.armed (area_of self.new.store area) ≡ with_stop (D.armed (area_of self.old.store area)) after }
        ensures beside { area_of self.new.store (1 - area) ≡ area_of self.old.store (1 - area) }
        ensures unchanged { IsFalse result → self.new ≡ self.old }
        ensures rests { D.honest → Rests D.watch (area_of self.old.store area) (area_of self.new.store area) }
        ensures faults { D.faults (area_of self.new.store area) ≡ D.faults (area_of self.old.store area) }
        ensures sound { D.honest → IsSound D.watch (ranges_sense T.drew T.ready T.kin) self.old → IsSound D.watch (ranges_sense T.drew T.ready T.kin) self.new }
        ensures kept { (self.new.held ≡ self.old.held) × (self.new.doubt ≡ self.old.doubt) × (self.new.failed ≡ self.old.failed) }
        ensures unmoved { IsUnmoved self.old.store self.new.store }
        ensures stops { KeepsStops D.has_stops self.old.store self.new.store }
    {
        self.kept.arm_stop(area, after)
    }

    /// Whether a call on one of the disks has met an armed stop.
    pub fn stopped(&self) -> bool
        ensures { result ≡ ((D.armed (area_a self.now.store)).stopped || (D.armed (area_b self.now.store)).stopped) }
    {
        self.kept.stopped()
    }

    /// Whether both disks have failures and stops, and can be restarted.
    pub fn has_stops(&self) -> bool
        ensures { result ≡ (D.has_stops (area_a self.now.store) && D.has_stops (area_b self.now.store)) }
    {
        self.kept.has_stops()
    }
}
