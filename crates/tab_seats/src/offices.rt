//! An office: one word that numbers the calls of all its callers.
ghost use Rattle.std.specs.Prelude.{◌≡◌, ℕ, ◌+◌, ◌*◌, ◌^◌, ◌<◌, ◌≤◌, All, IfOk, length};
ghost use Rattle.std.specs.List.{sum_by};
ghost use Rattle.tab_seats.specs.Logs.{next_number};
ghost use Rattle.tab_seats.specs.Views.{seat_over, everything, new_pass};
ghost use Rattle.tab_seats.specs.Rule.{most_strokes};
ghost use Rattle.tab_seats.specs.Offices.{MemberView};

use crate::members::Member;
use crate::passes::CallerPass;
use crate::seats::RangeSeat;
use crate::steps::Keyed;
use std::alloc::Global;
use std::marker::{Brand, Model};
use std::snapshot::Snapshot;
use tab_keys::Memory;

/// An office of callers, which is closed when all their calls are made.
#[derive(Drop)]
pub struct Office<C: Keyed> {
    member: Member<C>,
}

impl<C: Keyed> Model for Office<C> {
    ghost use Rattle.tab_seats.specs.Offices.{MemberView};

    ghost Value = { MemberView C C.Opening };

    ghost view = { λ office. office.member };
}

impl<C: Keyed> Office<C> {
    /// An office in which nothing was drawn: one seat over all keys, and from 1 to 65,536 passes. Each pass has 2^40
    /// permits, which are all that there ever are. The opening is a value that only clauses see.
    pub fn open(
        alloc: Global,
        passes: u64,
        opening: Snapshot<C::Opening>,
    ) -> Result<(Office<C>, RangeSeat<C>, Vec<CallerPass<C>>), Memory>
        requires { (1 ≤ passes) × (passes ≤ 65536) }
        ensures office { IfOk result (λ r. (r.0.office ≡ r.1.office) × (r.0.office.passes ≡ passes) × (r.0.office.opening ≡ opening.value)) }
        ensures seat { IfOk result (λ r. r.1.view ≡ seat_over everything 0) }
        ensures passes { IfOk result (λ r. (length r.2.items ≡ passes) × All (λ p. p ≡ record { office = r.1.office; view = new_pass (2 ^ 40) }) r.2.items) }
    {
        let mut member = Member::open(alloc, passes, opening)?;
        let office = member.hand_nothing()?;
        let mut all = Vec::new(alloc);
        for _i in 0..passes {
            let pass = CallerPass::new(member.hand_out()?);
            all.push(pass)?;
        }
        Ok((Office { member: office }, RangeSeat::new(member), all))
    }

    /// How many strokes were drawn: all that the seats and passes know are below it, and each call of a pass is one.
    pub fn close(self, mut seats: Vec<RangeSeat<C>>, mut passes: Vec<CallerPass<C>>) -> u64
        requires seats { All (λ s. s.office ≡ self.office) seats.items }
        requires passes { All (λ p. p.office ≡ self.office) passes.items }
        ensures seats { All (λ s. next_number s.view.log ≤ result) seats.items }
        ensures passes { All (λ p. next_number p.view.log ≤ result) passes.items }
        ensures calls { sum_by (λ p. length p.view.rights) passes.items ≤ result }
        ensures permits { result + sum_by (λ p. p.view.permits) passes.items ≤ most_strokes self.office.passes }
    {
        let Office { mut member } = self;
        while let Some(seat) = seats.pop() {
            member.meet(seat.into_member());
        }
        while let Some(pass) = passes.pop() {
            member.meet(pass.into_member());
        }
        member.check_as::<Brand>()
    }
}
