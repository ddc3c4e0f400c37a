//! The steps on the word of an office, over its table and one of the table's seats. A table's seat is the token of one
//! holder: of a seat, a slip, a note or a pass.
ghost use Rattle.std.specs.Prelude.{◌≡◌, ℕ, ◌+◌, ◌*◌, ◌^◌, ◌<◌, ◌≤◌, List, [], ◌∷◌, Some, None, Option, IsTrue};
ghost use Rattle.tab_keys.specs.Order.{bound_lt};
ghost use Rattle.tab_keys.specs.Spans.{Interval, has};
ghost use Rattle.tab_seats.specs.Rule.{WordTells, most_strokes};
ghost use Rattle.tab_seats.specs.Views.{less_permits, new_pass, slip_of, after_draw, with_copy, left_by_note, leaving_note, after_meet, joined_seats, left_half, right_half};

use crate::views::View;
use atomic_table::{Join, Play, Seat, Split, Table, TableRule};
use std::alloc::Global;
use std::marker::{Brand, PhantomData};
use std::snapshot::Snapshot;
use tab_keys::Bound;

/// A command that is routed by a key, and what its office was opened on.
pub trait Keyed {
    ghost use Rattle.tab_keys.specs.declared.keys.Key.{Key};

    /// What an office of such commands is opened on, as the state before its first call.
    type Opening;

    /// The key at which a stroke of the command is routed.
    ghost key: { Self → Key };
}

/// What an office is opened for, which its table keeps.
#[derive(Drop)]
pub struct Terms<O> {
    pub passes: u64,
    pub opening: Snapshot<O>,
}

pub struct OfficeRule;

impl<C: Keyed> TableRule<(), View<C>, Terms<C::Opening>> for OfficeRule {
    ghost use Rattle.tab_seats.specs.Rule.{SeatRule, most_strokes};
    ghost use Rattle.tab_seats.specs.Views.{seat_over, everything};

    ghost holds = { λ terms s. SeatRule C.key (most_strokes terms.passes) s.words s.views };

    ghost first = { λ terms. seat_over everything (most_strokes terms.passes) };
}

pub type OfficeTable<C> = Table<(), View<C>, Terms<<C as Keyed>::Opening>, OfficeRule, Global>;

/// What a step is told beside the view that takes it. Each call of a step picks it.
pub trait StepName<C> {
    ghost use Rattle.std.specs.Prelude.{ℕ, Option};
    ghost use Rattle.tab_keys.specs.declared.bounds.Bound.{Bound};

    ghost command: { Option C };

    ghost now: { ℕ };

    /// The most strokes of the office.
    ghost bound: { ℕ };

    /// Where a span is cut.
    ghost at: { Bound };
}

impl<C> StepName<C> for Brand {
    ghost use Rattle.std.specs.Prelude.{None};
    ghost use Rattle.tab_keys.specs.declared.bounds.Bound.TheVariants.{End};

    ghost command = { None };

    ghost now = { 0 };

    ghost bound = { 0 };

    ghost at = { End };
}

pub struct Draws<J>(PhantomData<J>);

impl<C: Keyed, J: StepName<C>> Play<(), View<C>> for Draws<J> {
    ghost use Rattle.std.specs.Prelude.{◌≡◌, Some, []};
    ghost use Rattle.tab_seats.specs.Rule.{WordTells};
    ghost use Rattle.tab_seats.specs.Views.{after_draw};

    ghost then = { λ s v n w. (c : C) × (J.command ≡ Some c) × (w ≡ (after_draw v.0 n c J.now, [])) × WordTells C.key J.bound n v.0 };
}

/// Adds one to the word. The number of the stroke is the word found.
pub fn draw_as<C: Keyed, J: StepName<C>>(
    table: &OfficeTable<C>,
    seat: &mut Seat<(), View<C>>,
    command: &C,
    now: u64,
) -> u64
    requires table { (seat.old.table_id ≡ table.now.shared.table_id) × (seat.old.table_id.words ≡ 1) × (seat.old.me.1 ≡ []) }
    requires named { (J.command ≡ Some command.now) × (J.now ≡ now) × (J.bound ≡ most_strokes table.now.shared.key.passes) }
    requires few { table.now.shared.key.passes ≤ 65536 }
    requires inside { (s : Interval) × (seat.old.me.0.span ≡ Some s) × IsTrue (has s (C.key command.now)) }
    requires permit { 0 < seat.old.me.0.permits }
    ensures table { seat.new.table_id ≡ seat.old.table_id }
    ensures view { seat.new.me ≡ (after_draw seat.old.me.0 result command.now now, []) }
    ensures told { WordTells C.key (most_strokes table.now.shared.key.passes) result seat.old.me.0 }
{
    table.shared.fetch_add::<Draws<J>>(seat, 0, 1)
}

pub struct HandsOut;

impl<C> Split<View<C>> for HandsOut {
    ghost use Rattle.std.specs.Prelude.{◌^◌};
    ghost use Rattle.tab_seats.specs.Views.{less_permits, new_pass};

    ghost left = { λ v. less_permits (2 ^ 40) v };

    ghost right = { λ v. new_pass (2 ^ 40) };
}

/// A new pass, with its permits.
pub fn hand_out<C: Keyed>(table: &OfficeTable<C>, seat: &mut Seat<(), View<C>>) -> Seat<(), View<C>>
    requires table { (seat.old.table_id ≡ table.now.shared.table_id) × (seat.old.table_id.words ≡ 1) × (seat.old.me.1 ≡ []) }
    requires permits { 2 ^ 40 ≤ seat.old.me.0.permits }
    ensures seat { (seat.new.table_id ≡ seat.old.table_id) × (seat.new.me ≡ (less_permits (2 ^ 40) seat.old.me.0, [])) }
    ensures new { (result.table_id ≡ seat.old.table_id) × (result.me ≡ (new_pass (2 ^ 40), [])) }
{
    table.shared.split_seat::<HandsOut>(seat)
}

pub struct HandsNothing;

impl<C> Split<View<C>> for HandsNothing {
    ghost use Rattle.tab_seats.specs.Views.{less_permits, new_pass};

    ghost left = { λ v. less_permits 0 v };

    ghost right = { λ v. new_pass 0 };
}

/// A view that knows and may do nothing.
pub fn hand_nothing<C: Keyed>(
    table: &OfficeTable<C>,
    seat: &mut Seat<(), View<C>>,
) -> Seat<(), View<C>>
    requires table { (seat.old.table_id ≡ table.now.shared.table_id) × (seat.old.table_id.words ≡ 1) × (seat.old.me.1 ≡ []) }
    ensures seat { (seat.new.table_id ≡ seat.old.table_id) × (seat.new.me ≡ (less_permits 0 seat.old.me.0, [])) }
    ensures new { (result.table_id ≡ seat.old.table_id) × (result.me ≡ (new_pass 0, [])) }
{
    table.shared.split_seat::<HandsNothing>(seat)
}

pub struct Slips;

impl<C> Split<View<C>> for Slips {
    ghost use Rattle.tab_seats.specs.Views.{less_permits, slip_of};

    ghost left = { λ v. less_permits 1 v };

    ghost right = { λ v. slip_of v };
}

pub fn slip<C: Keyed>(table: &OfficeTable<C>, seat: &mut Seat<(), View<C>>) -> Seat<(), View<C>>
    requires table { (seat.old.table_id ≡ table.now.shared.table_id) × (seat.old.table_id.words ≡ 1) × (seat.old.me.1 ≡ []) }
    requires permit { 0 < seat.old.me.0.permits }
    ensures seat { (seat.new.table_id ≡ seat.old.table_id) × (seat.new.me ≡ (less_permits 1 seat.old.me.0, [])) }
    ensures new { (result.table_id ≡ seat.old.table_id) × (result.me ≡ (slip_of seat.old.me.0, [])) }
{
    table.shared.split_seat::<Slips>(seat)
}

pub struct Meets;

impl<C> Join<View<C>> for Meets {
    ghost use Rattle.tab_seats.specs.Views.{after_meet, spent_view};

    ghost both = { λ v w. after_meet v w };

    ghost spent = { spent_view };
}

/// Takes in what another knows and may do, but for its span.
pub fn meet<C: Keyed>(
    table: &OfficeTable<C>,
    seat: &mut Seat<(), View<C>>,
    other: Seat<(), View<C>>,
)
    requires table { (seat.old.table_id ≡ table.now.shared.table_id) × (seat.old.table_id.words ≡ 1) × (seat.old.me.1 ≡ []) }
    requires other { (other.table_id ≡ table.now.shared.table_id) × (other.me.1 ≡ []) }
    ensures { (seat.new.table_id ≡ seat.old.table_id) × (seat.new.me ≡ (after_meet seat.old.me.0 other.me.0, [])) }
{
    table.shared.join_seat::<Meets>(seat, other)
}

pub struct Copies<J>(PhantomData<J>);

impl<C: Keyed, J: StepName<C>> Play<(), View<C>> for Copies<J> {
    ghost use Rattle.std.specs.Prelude.{◌≡◌, Some, []};
    ghost use Rattle.tab_keys.specs.Spans.{Interval};
    ghost use Rattle.tab_seats.specs.Rule.{WordTells};
    ghost use Rattle.tab_seats.specs.Views.{with_copy};

    ghost then = { λ s v n w. (s : Interval) × (v.0.span ≡ Some s) × (w ≡ (with_copy s v.0 n, [])) × WordTells C.key J.bound n v.0 };
}

/// The seat puts a copy of itself, with the word found, before its notes.
pub fn copy_as<C: Keyed, J: StepName<C>>(
    table: &OfficeTable<C>,
    seat: &mut Seat<(), View<C>>,
) -> u64
    requires table { (seat.old.table_id ≡ table.now.shared.table_id) × (seat.old.table_id.words ≡ 1) × (seat.old.me.1 ≡ []) }
    requires named { J.bound ≡ most_strokes table.now.shared.key.passes }
    requires seated { (s : Interval) × (seat.old.me.0.span ≡ Some s) }
    ensures table { seat.new.table_id ≡ seat.old.table_id }
    ensures view { (s : Interval) × (seat.old.me.0.span ≡ Some s) × (seat.new.me ≡ (with_copy s seat.old.me.0 result, [])) }
    ensures told { WordTells C.key (most_strokes table.now.shared.key.passes) result seat.old.me.0 }
{
    table.shared.load::<Copies<J>>(seat, 0)
}

pub struct Notes;

impl<C> Split<View<C>> for Notes {
    ghost use Rattle.tab_seats.specs.Views.{left_by_note, leaving_note};

    ghost left = { λ v. left_by_note v };

    ghost right = { λ v. leaving_note v };
}

/// The first note of a seat leaves it, with the right to the seat's last number.
pub fn note<C: Keyed>(table: &OfficeTable<C>, seat: &mut Seat<(), View<C>>) -> Seat<(), View<C>>
    requires table { (seat.old.table_id ≡ table.now.shared.table_id) × (seat.old.table_id.words ≡ 1) × (seat.old.me.1 ≡ []) }
    ensures seat { (seat.new.table_id ≡ seat.old.table_id) × (seat.new.me ≡ (left_by_note seat.old.me.0, [])) }
    ensures new { (result.table_id ≡ seat.old.table_id) × (result.me ≡ (leaving_note seat.old.me.0, [])) }
{
    table.shared.split_seat::<Notes>(seat)
}

pub struct Cuts<J>(PhantomData<J>);

impl<C, J: StepName<C>> Split<View<C>> for Cuts<J> {
    ghost use Rattle.tab_seats.specs.Views.{left_half, right_half};

    ghost left = { λ v. left_half J.at v };

    ghost right = { λ v. right_half J.at v };
}

pub fn cut_as<C: Keyed, J: StepName<C>>(
    table: &OfficeTable<C>,
    seat: &mut Seat<(), View<C>>,
    at: &Bound,
) -> Seat<(), View<C>>
    requires table { (seat.old.table_id ≡ table.now.shared.table_id) × (seat.old.table_id.words ≡ 1) × (seat.old.me.1 ≡ []) }
    requires named { J.at ≡ at.now }
    requires inside { (s : Interval) × (seat.old.me.0.span ≡ Some s) × IsTrue (bound_lt s.lo at.now) × IsTrue (bound_lt at.now s.hi) }
    ensures seat { (seat.new.table_id ≡ seat.old.table_id) × (seat.new.me ≡ (left_half at.now seat.old.me.0, [])) }
    ensures new { (result.table_id ≡ seat.old.table_id) × (result.me ≡ (right_half at.now seat.old.me.0, [])) }
{
    let _ = at;
    table.shared.split_seat::<Cuts<J>>(seat)
}

pub struct Fuses;

impl<C> Join<View<C>> for Fuses {
    ghost use Rattle.tab_seats.specs.Views.{joined_seats, spent_view};

    ghost both = { λ v w. joined_seats v w };

    ghost spent = { spent_view };
}

pub fn fuse<C: Keyed>(
    table: &OfficeTable<C>,
    seat: &mut Seat<(), View<C>>,
    other: Seat<(), View<C>>,
)
    requires table { (seat.old.table_id ≡ table.now.shared.table_id) × (seat.old.table_id.words ≡ 1) × (seat.old.me.1 ≡ []) }
    requires other { (other.table_id ≡ table.now.shared.table_id) × (other.me.1 ≡ []) }
    requires neighbours { (s : Interval) × (t : Interval) × (seat.old.me.0.span ≡ Some s) × (other.me.0.span ≡ Some t) × (s.hi ≡ t.lo) }
    ensures { (seat.new.table_id ≡ seat.old.table_id) × (seat.new.me ≡ (joined_seats seat.old.me.0 other.me.0, [])) }
{
    table.shared.join_seat::<Fuses>(seat, other)
}

pub struct Checks<J>(PhantomData<J>);

impl<C: Keyed, J: StepName<C>> Play<(), View<C>> for Checks<J> {
    ghost use Rattle.std.specs.Prelude.{◌≡◌, []};
    ghost use Rattle.tab_seats.specs.Rule.{WordTells};

    ghost then = { λ s v n w. (w ≡ (v.0, [])) × WordTells C.key J.bound n v.0 };
}

/// The word as it is.
pub fn check_as<C: Keyed, J: StepName<C>>(
    table: &OfficeTable<C>,
    seat: &mut Seat<(), View<C>>,
) -> u64
    requires table { (seat.old.table_id ≡ table.now.shared.table_id) × (seat.old.table_id.words ≡ 1) × (seat.old.me.1 ≡ []) }
    requires named { J.bound ≡ most_strokes table.now.shared.key.passes }
    ensures same { (seat.new.table_id ≡ seat.old.table_id) × (seat.new.me ≡ seat.old.me) }
    ensures told { WordTells C.key (most_strokes table.now.shared.key.passes) result seat.old.me.0 }
{
    table.shared.load::<Checks<J>>(seat, 0)
}
