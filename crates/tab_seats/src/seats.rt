//! A seat: the one right to number calls whose keys lie in its span.
ghost use Rattle.std.specs.Prelude.{◌≡◌, ℕ, ◌+◌, ◌*◌, ◌^◌, ◌<◌, ◌≤◌, List, [], ◌∷◌, Some, None, Option, IfOk, IfErr, OnErr, IsTrue, length, max};
ghost use Rattle.tab_keys.specs.Order.{bound_lt};
ghost use Rattle.tab_keys.specs.Spans.{Interval, has};
ghost use Rattle.tab_seats.specs.Lists.{one_if};
ghost use Rattle.tab_seats.specs.Logs.{next_number, last_right};
ghost use Rattle.tab_seats.specs.Views.{seat_over, after_draw, after_heed, note_of, after_note, left_half, right_half, after_fuse};
ghost use Rattle.tab_seats.specs.Rule.{WordTells, most_strokes};
ghost use Rattle.tab_seats.specs.Offices.{MemberView, IsSeat};

use crate::members::Member;
use crate::slips::{Note, Slip};
use crate::steps::Keyed;
use std::marker::{Brand, Model};
use tab_keys::{Bound, Memory};

/// A seat of an office. It alone draws numbers for the keys of its span, and its log has every stroke of these keys.
#[derive(Drop)]
pub struct RangeSeat<C: Keyed> {
    member: Member<C>,
    /// One above the log's greatest number, or 0.
    next: u64,
    /// Whether the seat still has the right to its last number.
    has_right: bool,
}

impl<C: Keyed> Model for RangeSeat<C> {
    ghost use Rattle.std.specs.Prelude.{◌≡◌, length};
    ghost use Rattle.tab_seats.specs.Lists.{one_if};
    ghost use Rattle.tab_seats.specs.Logs.{next_number, last_right};
    ghost use Rattle.tab_seats.specs.Offices.{MemberView, IsSeat};

    ghost Value = { MemberView C C.Opening };

    ghost view = { λ seat. seat.member };

    ghost invariant = { λ seat. IsSeat seat.member.view × (seat.next ≡ next_number seat.member.view.log) × (length (last_right seat.next seat.member.view.rights) ≡ one_if seat.has_right) };
}

impl<C: Keyed> RangeSeat<C> {
    /// The seat of a new office.
    pub(crate) fn new(member: Member<C>) -> RangeSeat<C>
        requires { (s : Interval) × (n : ℕ) × (member.view ≡ seat_over s n) }
        ensures { result ≡ member }
    {
        RangeSeat {
            member,
            next: 0,
            has_right: false,
        }
    }

    pub(crate) fn into_member(self) -> Member<C>
        ensures { result ≡ self }
    {
        let RangeSeat {
            member,
            next: _,
            has_right: _,
        } = self;
        member
    }

    /// What every seat keeps.
    pub fn keeps(&self)
        ensures { IsSeat self.now.view }
    {
        let _ = &self.member;
    }

    /// Takes in a slip: the front becomes the greater of both, and the seat has one permit more. It takes no memory.
    pub fn heed(&mut self, slip: Slip<C>)
        requires { slip.office ≡ self.old.office }
        ensures { self.new ≡ record { office = self.old.office; view = after_heed self.old.view slip.view.front } }
    {
        self.member.meet(slip.into_member());
    }

    /// Numbers one call, by one step on the word. The number is the word that the step found, which is not below the
    /// seat's front. It takes no memory.
    pub fn draw(&mut self, command: &C, now: u64) -> u64
        requires inside { (s : Interval) × (self.old.view.span ≡ Some s) × IsTrue (has s (C.key command.now)) }
        requires permit { 0 < self.old.view.permits }
        ensures view { self.new ≡ record { office = self.old.office; view = after_draw self.old.view result command.now now } }
        ensures told { WordTells C.key (most_strokes self.old.office.passes) result self.old.view }
        ensures front { self.old.view.front ≤ result }
        ensures last { next_number self.new.view.log ≡ result + 1 }
        ensures right { last_right (result + 1) self.new.view.rights ≡ result ∷ [] }
    {
        let number = self.member.draw_as::<Brand>(command, now);
        self.next = number + 1;
        self.has_right = true;
        number
    }

    /// A copy of the seat's log for a pass. The note takes along the right to the seat's last number.
    pub fn note(&mut self) -> Result<Note<C>, Memory>
        ensures ok { IfOk result (λ note. (s : Interval) × (n : ℕ) × (self.old.view.span ≡ Some s) × (note ≡ record { office = self.old.office; view = note_of s self.old.view n }) × (self.new ≡ record { office = self.old.office; view = after_note self.old.view }) × WordTells C.key (most_strokes self.old.office.passes) n self.old.view) }
        ensures err { OnErr result (self.new ≡ self.old) }
    {
        let member = self.member.note_as::<Brand>()?;
        let has_right = self.has_right;
        self.has_right = false;
        Ok(Note::new(member, has_right))
    }

    /// Two seats, of the keys below the bound and of those from it on. Both keep the log and the front, and the left
    /// one the permits, the rights and the notes.
    pub fn cut(self, at: &Bound) -> Result<(RangeSeat<C>, RangeSeat<C>), (RangeSeat<C>, Memory)>
        requires inside { (s : Interval) × (self.view.span ≡ Some s) × IsTrue (bound_lt s.lo at.now) × IsTrue (bound_lt at.now s.hi) }
        ensures ok { IfOk result (λ r. (r.0 ≡ record { office = self.office; view = left_half at.now self.view }) × (r.1 ≡ record { office = self.office; view = right_half at.now self.view })) }
        ensures err { IfErr result (λ r. r.0 ≡ self) }
    {
        let RangeSeat {
            mut member,
            next,
            has_right,
        } = self;
        match member.cut_as::<Brand>(at) {
            Ok(right) => Ok((
                RangeSeat {
                    member,
                    next,
                    has_right,
                },
                RangeSeat {
                    member: right,
                    next,
                    has_right: false,
                },
            )),
            Err(refused) => Err((
                RangeSeat {
                    member,
                    next,
                    has_right,
                },
                refused,
            )),
        }
    }

    /// One seat of two whose spans are neighbours, this one the left. It has both logs by number, the greater front,
    /// the permits and rights of both, and a note of each. It takes no memory.
    pub fn fuse(self, other: RangeSeat<C>) -> RangeSeat<C>
        requires office { other.office ≡ self.office }
        requires neighbours { (s : Interval) × (t : Interval) × (self.view.span ≡ Some s) × (other.view.span ≡ Some t) × (s.hi ≡ t.lo) }
        ensures { (s : Interval) × (t : Interval) × (m : ℕ) × (n : ℕ) × (k : ℕ) × (self.view.span ≡ Some s) × (other.view.span ≡ Some t) × (result ≡ record { office = self.office; view = after_fuse s t self.view other.view m n }) × WordTells C.key (most_strokes self.office.passes) k (after_fuse s t self.view other.view m n) }
    {
        let RangeSeat {
            mut member,
            next,
            has_right,
        } = self;
        let RangeSeat {
            member: right,
            next: right_next,
            has_right: right_has,
        } = other;
        member.fuse_as::<Brand>(right);
        RangeSeat {
            member,
            next: next.max(right_next),
            has_right: has_last(next, has_right, right_next, right_has),
        }
    }
}

// Whether the right to the last number of two logs is there, by the next numbers of both.
fn has_last(next: u64, has_right: bool, other_next: u64, other_has: bool) -> bool
    ensures left { other_next < next → result ≡ has_right }
    ensures right { next < other_next → result ≡ other_has }
    ensures both { next ≡ other_next → one_if result ≡ max (one_if has_right) (one_if other_has) }
{
    if other_next < next {
        has_right
    } else if next < other_next {
        other_has
    } else {
        has_right || other_has
    }
}
