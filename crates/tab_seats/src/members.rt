//! A holder's view of its office, with its way to the word.
ghost use Rattle.std.specs.Prelude.{◌≡◌, ℕ, ◌+◌, ◌*◌, ◌^◌, ◌<◌, ◌≤◌, List, [], ◌∷◌, Some, None, Option, IfOk, OnErr, IsTrue};
ghost use Rattle.std.specs.Arc.{arc_value};
ghost use Rattle.tab_keys.specs.Order.{bound_lt};
ghost use Rattle.tab_keys.specs.Spans.{Interval, has};
ghost use Rattle.tab_seats.specs.Rule.{WordTells, most_strokes};
ghost use Rattle.tab_seats.specs.Offices.{MemberView};
ghost use Rattle.tab_seats.specs.Views.{less_permits, new_pass, slip_of, after_draw, with_copy, left_by_note, leaving_note, after_meet, joined_seats, left_half, right_half, note_of, after_note, after_fuse, seat_over, everything};

use crate::steps::{self, Keyed, OfficeTable, StepName, Terms};
use crate::views::View;
use atomic_table::Seat;
use std::alloc::Global;
use std::marker::Model;
use std::snapshot::Snapshot;
use std::sync::Arc;
use tab_keys::{Bound, Memory};

#[derive(Drop)]
pub struct Member<C: Keyed> {
    table: Arc<OfficeTable<C>, Global>,
    seat: Seat<(), View<C>>,
}

impl<C: Keyed> Model for Member<C> {
    ghost use Rattle.std.specs.Prelude.{◌≡◌, ◌≤◌, []};
    ghost use Rattle.std.specs.Arc.{arc_value};
    ghost use Rattle.tab_seats.specs.Offices.{MemberView};

    ghost Value = { MemberView C C.Opening };

    ghost view = { λ m. record { office = record { table = m.seat.table_id; passes = (arc_value m.table).shared.key.passes; opening = (arc_value m.table).shared.key.opening.value }; view = m.seat.me.0 } };

    ghost invariant = { λ m. (m.seat.table_id ≡ (arc_value m.table).shared.table_id) × (m.seat.table_id.words ≡ 1) × (m.seat.me.1 ≡ []) × ((arc_value m.table).shared.key.passes ≤ 65536) };
}

impl<C: Keyed> Member<C> {
    /// A new office's one holder, over all keys and with every permit.
    pub fn open(
        alloc: Global,
        passes: u64,
        opening: Snapshot<C::Opening>,
    ) -> Result<Member<C>, Memory>
        requires { passes ≤ 65536 }
        ensures { IfOk result (λ m. (m.office.passes ≡ passes) × (m.office.opening ≡ opening.value) × (m.view ≡ seat_over everything (most_strokes passes))) }
    {
        let terms = Terms { passes, opening };
        let (table, seat) = OfficeTable::<C>::of_words(alloc, &[0], &terms)?;
        let table = Arc::new(alloc, table)?;
        Ok(Member { table, seat })
    }

    pub fn hand_out(&mut self) -> Result<Member<C>, Memory>
        requires { 2 ^ 40 ≤ self.old.view.permits }
        ensures ok { IfOk result (λ r. (r ≡ record { office = self.old.office; view = new_pass (2 ^ 40) }) × (self.new ≡ record { office = self.old.office; view = less_permits (2 ^ 40) self.old.view })) }
        ensures err { OnErr result (self.new ≡ self.old) }
    {
        let table = shared(&self.table)?;
        let seat = steps::hand_out(&self.table, &mut self.seat);
        Ok(Member { table, seat })
    }

    pub fn hand_nothing(&mut self) -> Result<Member<C>, Memory>
        ensures ok { IfOk result (λ r. (r ≡ record { office = self.old.office; view = new_pass 0 }) × (self.new ≡ record { office = self.old.office; view = less_permits 0 self.old.view })) }
        ensures err { OnErr result (self.new ≡ self.old) }
    {
        let table = shared(&self.table)?;
        let seat = steps::hand_nothing(&self.table, &mut self.seat);
        Ok(Member { table, seat })
    }

    pub fn slip(&mut self) -> Result<Member<C>, Memory>
        requires { 0 < self.old.view.permits }
        ensures ok { IfOk result (λ r. (r ≡ record { office = self.old.office; view = slip_of self.old.view }) × (self.new ≡ record { office = self.old.office; view = less_permits 1 self.old.view })) }
        ensures err { OnErr result (self.new ≡ self.old) }
    {
        let table = shared(&self.table)?;
        let seat = steps::slip(&self.table, &mut self.seat);
        Ok(Member { table, seat })
    }

    pub fn draw_as<J: StepName<C>>(&mut self, command: &C, now: u64) -> u64
        requires named { (J.command ≡ Some command.now) × (J.now ≡ now) × (J.bound ≡ most_strokes self.old.office.passes) }
        requires inside { (s : Interval) × (self.old.view.span ≡ Some s) × IsTrue (has s (C.key command.now)) }
        requires permit { 0 < self.old.view.permits }
        ensures view { self.new ≡ record { office = self.old.office; view = after_draw self.old.view result command.now now } }
        ensures told { WordTells C.key (most_strokes self.old.office.passes) result self.old.view }
        ensures small { result < 2 ^ 56 }
    {
        steps::draw_as::<C, J>(&self.table, &mut self.seat, command, now)
    }

    pub fn meet(&mut self, other: Member<C>)
        requires { other.office ≡ self.old.office }
        ensures { self.new ≡ record { office = self.old.office; view = after_meet self.old.view other.view } }
    {
        let Member { table: _, seat } = other;
        steps::meet(&self.table, &mut self.seat, seat);
    }

    pub fn note_as<J: StepName<C>>(&mut self) -> Result<Member<C>, Memory>
        requires named { J.bound ≡ most_strokes self.old.office.passes }
        requires seated { (s : Interval) × (self.old.view.span ≡ Some s) }
        ensures ok { IfOk result (λ r. (s : Interval) × (n : ℕ) × (self.old.view.span ≡ Some s) × (r ≡ record { office = self.old.office; view = note_of s self.old.view n }) × (self.new ≡ record { office = self.old.office; view = after_note self.old.view }) × WordTells C.key (most_strokes self.old.office.passes) n self.old.view) }
        ensures err { OnErr result (self.new ≡ self.old) }
    {
        let table = shared(&self.table)?;
        steps::copy_as::<C, J>(&self.table, &mut self.seat);
        let seat = steps::note(&self.table, &mut self.seat);
        Ok(Member { table, seat })
    }

    pub fn cut_as<J: StepName<C>>(&mut self, at: &Bound) -> Result<Member<C>, Memory>
        requires named { J.at ≡ at.now }
        requires inside { (s : Interval) × (self.old.view.span ≡ Some s) × IsTrue (bound_lt s.lo at.now) × IsTrue (bound_lt at.now s.hi) }
        ensures ok { IfOk result (λ r. (r ≡ record { office = self.old.office; view = right_half at.now self.old.view }) × (self.new ≡ record { office = self.old.office; view = left_half at.now self.old.view })) }
        ensures err { OnErr result (self.new ≡ self.old) }
    {
        let table = shared(&self.table)?;
        let seat = steps::cut_as::<C, J>(&self.table, &mut self.seat, at);
        Ok(Member { table, seat })
    }

    pub fn fuse_as<J: StepName<C>>(&mut self, other: Member<C>)
        requires office { other.office ≡ self.old.office }
        requires named { J.bound ≡ most_strokes self.old.office.passes }
        requires neighbours { (s : Interval) × (t : Interval) × (self.old.view.span ≡ Some s) × (other.view.span ≡ Some t) × (s.hi ≡ t.lo) }
        ensures { (s : Interval) × (t : Interval) × (m : ℕ) × (n : ℕ) × (k : ℕ) × (self.old.view.span ≡ Some s) × (other.view.span ≡ Some t) × (self.new ≡ record { office = self.old.office; view = after_fuse s t self.old.view other.view m n }) × WordTells C.key (most_strokes self.old.office.passes) k (after_fuse s t self.old.view other.view m n) }
    {
        let Member { table: _, mut seat } = other;
        steps::copy_as::<C, J>(&self.table, &mut self.seat);
        steps::copy_as::<C, J>(&self.table, &mut seat);
        steps::fuse(&self.table, &mut self.seat, seat);
        steps::check_as::<C, J>(&self.table, &mut self.seat);
    }

    pub fn check_as<J: StepName<C>>(&mut self) -> u64
        requires named { J.bound ≡ most_strokes self.old.office.passes }
        ensures same { self.new ≡ self.old }
        ensures told { WordTells C.key (most_strokes self.old.office.passes) result self.old.view }
        ensures small { result ≤ 2 ^ 56 }
    {
        steps::check_as::<C, J>(&self.table, &mut self.seat)
    }
}

fn shared<C: Keyed>(
    table: &Arc<OfficeTable<C>, Global>,
) -> Result<Arc<OfficeTable<C>, Global>, Memory>
    ensures { IfOk result (λ other. arc_value other ≡ arc_value table.now) }
{
    Ok(Arc::try_clone(table)?)
}
