//! The ranges that a server holds in memory.
ghost use Rattle.std.specs.Prelude.{◌≡◌, ◌≢◌, ◌↔◌, ◌<◌, ◌+◌, ◌^◌, [], None, Some, ℕ, ◌≤◌, ◌==◌, false, ⊤, Option, MatchOption, All, IsTrue, IfSome, IfOk, IfErr, OnOk, map};
ghost use Rattle.std.specs.Option.{option_copied};
ghost use Rattle.tab_ops.specs.Changes.{applied};
ghost use Rattle.tab_range.specs.Outcomes.{IsDue, AreOf};
ghost use Rattle.tab_range.specs.Ranges.{DrewOne, range_outcome};
ghost use Rattle.tab_server.specs.Serving.{range_of, range_for, is_for, takes_commands, is_marked, is_serving, is_sealed, is_copied, lacks_tally, at_number, with_mark, with_tally, with_spare, without_range, IsServed};
ghost use Rattle.tab_server.specs.Recovering.{with_range, GoesTo, StaysWith};
ghost use Rattle.tab_server.specs.ServerCauses.{IsRangeDenial};
ghost use Rattle.tab_server.specs.declared.ranges.Marked.{Marked};
ghost use Rattle.tab_server.specs.Replays.{spelled_range, SpellsEach};
ghost use Rattle.tab_server.specs.Rewriting.{IsHeld, IsCheckpoint};
ghost use Rattle.tab_server.specs.Contents.{is_whole, told_of, told_with, told_ranges, IsHolding, IsUncounted, StandsAt, TakesChange, IsReadyFor, IsChanged, with_change};

use crate::replays::{make_changes, put_rows, replayed};
use crate::rewriting::{are_spelled, push_range};
use crate::{Mark, RangeChange};
use std::alloc::Global;
use std::marker::Model;
use tab_codec::{Frame, Prepared};
use tab_history::Denied;
use tab_keys::{Key, Memory};
use tab_range::{Answer, Backing, Command, HeldRange, Told};
use tab_rows::Rows;

/// A range with its mark.
#[derive(Drop)]
pub struct Marked<T: Backing> {
    pub range: HeldRange<T>,
    pub mark: Mark,
}

impl<T: Backing> Marked<T> {
    /// Whether the frames spell it, with a step of it where there is one.
    fn is_spelled(
        &self,
        alloc: Global,
        frames: &[Frame],
        step: Option<&RangeChange>,
    ) -> Result<bool, Memory>
        requires { IfSome (option_copied step) (λ step. step.changes.tick + 1 < 2 ^ 64) }
        ensures { IfOk result (λ is. IsTrue is ↔ spelled_range frames.now self.now.range.id ≡ Some (told_with (option_copied step.entry) (told_of self.now))) }
    {
        let range = &self.range;
        let Some(replay) = replayed(alloc, frames, range.id())? else {
            return Ok(false);
        };
        let is_whole = self.mark.is_whole();
        match step {
            Some(step) if step.range == range.id() => {
                let next_tick = step.changes.tick + 1;
                let rows = self.changed_rows(alloc, step)?;
                Ok(replay.is_same(range.id(), range.span(), &rows, next_tick, is_whole))
            }
            _ => Ok(replay.is_same(
                range.id(),
                range.span(),
                range.rows(),
                range.next_tick(),
                is_whole,
            )),
        }
    }

    /// A copy of its rows, with the changes of a step.
    fn changed_rows(&self, alloc: Global, step: &RangeChange) -> Result<Rows, Memory>
        ensures { IfOk result (λ rows. rows.rows ≡ applied self.now.range.rows step.now.changes.list) }
    {
        let mut rows = Rows::new(alloc);
        put_rows(alloc, &mut rows, self.range.rows().as_slice())?;
        make_changes(alloc, &mut rows, step.changes.list.as_slice())?;
        Ok(rows)
    }

    /// Whether a command of a key is for it, unless one of a lower number is.
    fn is_for(&self, key: &Key) -> bool
        ensures { result ≡ is_for key.now self.now }
    {
        self.mark.takes_commands() && self.range.has_tally() && self.range.span().has(key)
    }

    /// What each range that is held is. It does nothing.
    fn keeps(&self)
        ensures { IsHeld (told_of self.now) }
    {
        self.range.keeps();
        let _ = self.range.rows().as_slice();
    }
}

/// Ranges by rising number.
#[derive(Drop)]
pub struct Ranges<T: Backing> {
    list: Vec<Marked<T>>,
}

impl<T: Backing> Model for Ranges<T> {
    ghost use Rattle.std.specs.Prelude.{List, vec_items};
    ghost use Rattle.tab_server.specs.declared.ranges.Marked.{Marked};
    ghost use Rattle.tab_server.specs.Contents.{IsHolding};

    ghost Value = { List (Marked T) };

    ghost view = { λ ranges. ranges.list.items };

    ghost invariant = { λ ranges. IsHolding ranges.list.items };
}

impl<T: Backing> Ranges<T> {
    /// No ranges.
    pub fn new(alloc: Global) -> Ranges<T>
        ensures { result ≡ [] }
    {
        Ranges {
            list: Vec::new(alloc),
        }
    }

    /// Where the range of this number stands.
    #[tactic(auto, using(crate::proofs::Holding::none_so_far))]
    fn place_of(&self, range: u64) -> Option<usize>
        ensures some { IfSome result (λ place. (marked : Marked T) × StandsAt self.now range place marked) }
        ensures none { result ≡ None → All (λ marked. marked.range.id ≢ range) self.now }
    {
        for place in 0..self.list.len() {
            if self.list[place].range.id() == range {
                return Some(place);
            }
        }
        None
    }

    /// Whether the frames spell each range, with a step of one of them where there is one.
    pub(crate) fn are_read(
        &self,
        alloc: Global,
        frames: &[Frame],
        step: Option<&RangeChange>,
    ) -> Result<bool, Memory>
        requires { IfSome (option_copied step) (λ step. step.changes.tick + 1 < 2 ^ 64) }
        ensures { IfOk result (λ are. IsTrue are ↔ SpellsEach frames.now (map (told_with (option_copied step.entry)) (told_ranges self.now))) }
    {
        for marked in &self.list {
            if !marked.is_spelled(alloc, frames, step)? {
                return Ok(false);
            }
        }
        Ok(true)
    }

    /// The frames of a checkpoint.
    pub(crate) fn checkpoint_pieces(&self, alloc: Global) -> Result<Vec<Prepared>, Memory>
        ensures { IfOk result (λ pieces. IsCheckpoint pieces.items (told_ranges self.now)) }
    {
        let mut pieces = Vec::new(alloc);
        for marked in &self.list {
            marked.keeps();
            push_range(alloc, &mut pieces, marked)?;
        }
        are_spelled(&pieces);
        Ok(pieces)
    }

    /// Does a change.
    pub(crate) fn change(&mut self, step: RangeChange)
        requires { IsReadyFor T.ready self.old step }
        ensures told { told_ranges self.new ≡ with_change (told_ranges self.old) step }
        ensures done { IsChanged T.drew T.ready T.kin self.old step self.new }
    {
        let Some(place) = self.place_of(step.range) else {
            unreachable!()
        };
        let marked = &mut self.list[place];
        marked.range.apply(step.changes, &step.told, step.moment);
    }
}

// ---- look-ups, and what of a range is changed in memory alone

impl<T: Backing> Ranges<T> {
    /// What ranges that are held are. It does nothing.
    pub(crate) fn keeps(&self)
        ensures { IsHolding self.now }
    {
        let _ = self.list.len();
    }

    /// The range of a number.
    pub(crate) fn find(&self, range: u64) -> Option<&Marked<T>>
        ensures { option_copied result ≡ range_of self.now range }
    {
        self.list.iter().find(|marked| marked.range.id() == range)
    }

    /// Where the range of this number stands; nowhere just where it is not held.
    fn place_held(&self, range: u64) -> Option<usize>
        ensures some { IfSome result (λ place. (marked : Marked T) × StandsAt self.now range place marked) }
        ensures absent { result ≡ None → range_of self.now range ≡ None }
    {
        self.place_of(range)
    }

    /// The range that a command of a key is for.
    pub(crate) fn find_for(&self, key: &Key) -> Option<&Marked<T>>
        ensures { option_copied result ≡ range_for self.now key.now }
    {
        self.list.iter().find(|marked| marked.is_for(key))
    }

    /// Whether the range is held as one that takes commands, and has no tally.
    pub(crate) fn lacks_tally(&self, range: u64) -> bool
        ensures { result ≡ lacks_tally (range_of self.now range) }
    {
        match self.find(range) {
            Some(marked) => marked.mark.takes_commands() && !marked.range.has_tally(),
            None => false,
        }
    }

    /// Whether the range is held as one that serves.
    pub(crate) fn is_serving(&self, range: u64) -> bool
        ensures { result ≡ is_marked is_serving (range_of self.now range) }
    {
        match self.find(range) {
            Some(marked) => marked.mark.is_serving(),
            None => false,
        }
    }

    /// Whether the range is held as one that is sealed.
    pub(crate) fn is_sealed(&self, range: u64) -> bool
        ensures { result ≡ is_marked is_sealed (range_of self.now range) }
    {
        match self.find(range) {
            Some(marked) => marked.mark.is_sealed(),
            None => false,
        }
    }

    /// Whether the range is held as a copy that is whole.
    pub(crate) fn is_copied(&self, range: u64) -> bool
        ensures { result ≡ is_marked is_copied (range_of self.now range) }
    {
        match self.find(range) {
            Some(marked) => marked.mark.is_copied(),
            None => false,
        }
    }

    /// Decides a command of a range. Nothing changes.
    pub(crate) fn decide(
        &self,
        alloc: Global,
        range: u64,
        command: &Command,
        now: u64,
    ) -> Result<Answer, Denied>
        requires { (marked : Marked T) × IsServed self.now range command.now marked }
        ensures due { (marked : Marked T) × IsServed self.now range command.now marked × IsDue marked.range.rows marked.range.next_tick (range_outcome marked.range command.now now) result }
        ensures changes { IfOk result (AreOf command.now) }
        ensures denial { IfErr result (λ denied. denied ≢ Denied.Memory → IsRangeDenial denied) }
    {
        let Some(marked) = self.find(range) else {
            unreachable!()
        };
        marked.range.answer(alloc, command, now)
    }

    /// Finds memory, so that so many more rows can be put into a range.
    pub(crate) fn reserve(&mut self, range: u64, more: usize) -> Result<(), Memory>
        requires { range_of self.old range ≢ None }
        ensures kept { (spare : ℕ) × (self.new ≡ at_number range (with_spare spare) self.old) }
        ensures room { OnOk result (IfSome (range_of self.new range) (λ marked. more ≤ marked.range.spare)) }
    {
        let Some(place) = self.place_of(range) else {
            unreachable!()
        };
        self.list[place].range.reserve(more)
    }

    /// Draws the stroke of a command that changes nothing.
    pub(crate) fn tell(&mut self, range: u64, told: &Told, now: u64)
        requires due { (marked : Marked T) × IsServed self.old range told.now.command marked × ((range_outcome marked.range told.now.command now).tick ≡ None)
            × ((tally : T) × (marked.range.tally ≡ Some tally) × T.ready tally 1) }
        requires tick { told.now.tick ≡ None }
        ensures { (marked : Marked T) × (tally : Option T) × IsServed self.old range told.now.command marked × (self.new ≡ at_number range (with_tally tally) self.old)
            × DrewOne T.drew T.ready T.kin told.now now marked.range.tally tally }
    {
        let Some(place) = self.place_of(range) else {
            unreachable!()
        };
        self.list[place].range.tell(told, now);
    }

    /// Gives a range its tally.
    pub(crate) fn give(&mut self, range: u64, tally: T)
        requires lacks { IsTrue (lacks_tally (range_of self.old range)) }
        requires means { (marked : Marked T) → range_of self.old range ≡ Some marked → T.covers tally marked.range.span × T.allows tally marked.range.span marked.range.rows marked.range.next_tick }
        ensures is { self.new ≡ at_number range (with_tally (Some tally)) self.old }
        ensures told { told_ranges self.new ≡ told_ranges self.old }
        ensures ready { (step : RangeChange) → IsReadyFor T.ready self.old step → IsReadyFor T.ready self.new step }
    {
        let Some(place) = self.place_held(range) else {
            unreachable!()
        };
        let marked = &mut self.list[place];
        marked.range.give(tally);
    }

    /// Takes the tally of a range out.
    pub(crate) fn take_tally(&mut self, range: u64) -> Option<T>
        requires { range_of self.old range ≢ None }
        ensures taken { IfSome (range_of self.old range) (λ marked. result ≡ marked.range.tally) }
        ensures left { self.new ≡ at_number range (with_tally None) self.old }
        ensures none { result ≡ None → self.new ≡ self.old }
        ensures told { told_ranges self.new ≡ told_ranges self.old }
        ensures ready { (step : RangeChange) → (step.range == range) ≡ false → IsReadyFor T.ready self.old step → IsReadyFor T.ready self.new step }
        ensures means { MatchOption result ⊤ (λ tally. (marked : Marked T) × (range_of self.old range ≡ Some marked)
            × T.covers tally marked.range.span × T.allows tally marked.range.span marked.range.rows marked.range.next_tick) }
    {
        let Some(place) = self.place_held(range) else {
            unreachable!()
        };
        let marked = &mut self.list[place];
        marked.range.take_tally()
    }

    /// Gives a range another mark, with which it takes commands.
    pub(crate) fn remark(&mut self, range: u64, mark: Mark)
        requires held { range_of self.old range ≢ None }
        requires takes { IsTrue (takes_commands mark) }
        ensures is { self.new ≡ at_number range (with_mark mark) self.old }
        ensures told { IsTrue (is_marked is_whole (range_of self.old range)) → told_ranges self.new ≡ told_ranges self.old }
        ensures ready { (step : RangeChange) → IsReadyFor T.ready self.old step → IsReadyFor T.ready self.new step }
    {
        let Some(place) = self.place_held(range) else {
            unreachable!()
        };
        let marked = &mut self.list[place];
        marked.mark = mark;
    }

    /// Lets go of a range, if it is held.
    pub(crate) fn retire(&mut self, range: u64)
        ensures { self.new ≡ without_range range self.old }
    {
        self.list.retain(|marked| marked.range.id() != range);
    }

    /// Where a range of this number goes; nowhere where one of its number is held.
    fn place_for(&self, number: u64) -> Option<usize>
        ensures some { IfSome result (GoesTo self.now number) }
        ensures none { result ≡ None → StaysWith self.now number }
    {
        for place in 0..self.list.len() {
            let other = self.list[place].range.id();
            if number < other {
                return Some(place);
            }
            if number == other {
                return None;
            }
        }
        Some(self.list.len())
    }

    /// Holds a range more, unless one of its number is held.
    pub(crate) fn hold(&mut self, marked: Marked<T>) -> Result<(), Memory>
        requires { IsUncounted marked.mark marked.range.tally }
        ensures { OnOk result (self.new ≡ with_range marked self.old) }
    {
        let Some(place) = self.place_for(marked.range.id()) else {
            return Ok(());
        };
        match self.list.insert(place, marked) {
            Ok(()) => Ok(()),
            Err(_) => Err(Memory),
        }
    }
}
