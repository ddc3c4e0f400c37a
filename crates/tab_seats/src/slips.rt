//! What passes between passes and seats: a slip from a pass to a seat, a note from a seat to a pass.
ghost use Rattle.std.specs.Prelude.{◌≡◌, length};
ghost use Rattle.tab_seats.specs.Lists.{one_if};
ghost use Rattle.tab_seats.specs.Offices.{MemberView, IsSlip, IsNote};

use crate::members::Member;
use crate::steps::Keyed;
use std::marker::Model;

/// The front of a pass and one of its permits, on their way to a seat.
#[derive(Drop)]
pub struct Slip<C: Keyed> {
    member: Member<C>,
}

impl<C: Keyed> Model for Slip<C> {
    ghost use Rattle.tab_seats.specs.Offices.{MemberView, IsSlip};

    ghost Value = { MemberView C C.Opening };

    ghost view = { λ slip. slip.member };

    ghost invariant = { λ slip. IsSlip slip.member.view };
}

impl<C: Keyed> Slip<C> {
    pub(crate) fn new(member: Member<C>) -> Slip<C>
        requires { IsSlip member.view }
        ensures { result ≡ member }
    {
        Slip { member }
    }

    pub(crate) fn into_member(self) -> Member<C>
        ensures member { result ≡ self }
        ensures slip { IsSlip result.view }
    {
        let Slip { member } = self;
        member
    }
}

/// What a seat's log held, on its way to a pass, and the right to the log's last number if the seat had it.
#[derive(Drop)]
pub struct Note<C: Keyed> {
    member: Member<C>,
    has_right: bool,
}

impl<C: Keyed> Model for Note<C> {
    ghost use Rattle.std.specs.Prelude.{◌≡◌, length};
    ghost use Rattle.tab_seats.specs.Lists.{one_if};
    ghost use Rattle.tab_seats.specs.Offices.{MemberView, IsNote};

    ghost Value = { MemberView C C.Opening };

    ghost view = { λ note. note.member };

    ghost invariant = { λ note. IsNote note.member.view × (length note.member.view.rights ≡ one_if note.has_right) };
}

impl<C: Keyed> Note<C> {
    pub(crate) fn new(member: Member<C>, has_right: bool) -> Note<C>
        requires note { IsNote member.view }
        requires right { length member.view.rights ≡ one_if has_right }
        ensures { result ≡ member }
    {
        Note { member, has_right }
    }

    /// What the note knows, and whether it has a right.
    pub(crate) fn into_member(self) -> (Member<C>, bool)
        ensures member { result.0 ≡ self }
        ensures note { IsNote result.0.view }
        ensures right { length result.0.view.rights ≡ one_if result.1 }
    {
        let Note { member, has_right } = self;
        (member, has_right)
    }
}
