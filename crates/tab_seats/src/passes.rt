//! A pass: what one caller has seen, and the numbers of its calls.
ghost use Rattle.std.specs.Prelude.{◌≡◌, ℕ, ◌+◌, ◌*◌, ◌^◌, ◌<◌, ◌≤◌, List, [], ◌∷◌, ◌++◌, Some, None, Option, IfOk, OnErr, length};
ghost use Rattle.tab_seats.specs.Lists.{one_if};
ghost use Rattle.tab_seats.specs.Logs.{next_number};
ghost use Rattle.tab_seats.specs.Views.{new_pass, slip_of, less_permits, after_meet};
ghost use Rattle.tab_seats.specs.Rule.{WordTells, most_strokes};
ghost use Rattle.tab_seats.specs.Offices.{MemberView, IsPass};

use crate::members::Member;
use crate::slips::{Note, Slip};
use crate::steps::Keyed;
use std::marker::{Brand, Model};
use tab_keys::Memory;

/// The most strokes that are drawn by one pass's permits.
pub const PASS_PERMITS: u64 = 1 << 40;

/// What one caller knows of the strokes of an office. Its `mine`, the rights of its view, are the numbers of its calls.
#[derive(Drop)]
pub struct CallerPass<C: Keyed> {
    member: Member<C>,
    permits: u64,
    calls: u64,
}

impl<C: Keyed> Model for CallerPass<C> {
    ghost use Rattle.std.specs.Prelude.{◌≡◌, length};
    ghost use Rattle.tab_seats.specs.Offices.{MemberView, IsPass};

    ghost Value = { MemberView C C.Opening };

    ghost view = { λ pass. pass.member };

    ghost invariant = { λ pass. IsPass pass.member.view × (pass.permits ≡ pass.member.view.permits) × (pass.calls ≡ length pass.member.view.rights) };
}

impl<C: Keyed> CallerPass<C> {
    /// A pass that knows nothing.
    pub(crate) fn new(member: Member<C>) -> CallerPass<C>
        requires { member.view ≡ new_pass (2 ^ 40) }
        ensures { result ≡ member }
    {
        CallerPass {
            member,
            permits: PASS_PERMITS,
            calls: 0,
        }
    }

    pub(crate) fn into_member(self) -> Member<C>
        ensures { result ≡ self }
    {
        let CallerPass {
            member,
            permits: _,
            calls: _,
        } = self;
        member
    }

    /// What every pass keeps.
    pub fn keeps(&self)
        ensures { IsPass self.now.view }
    {
        let _ = &self.member;
    }

    /// How many strokes may still be drawn for this pass. It takes no memory.
    pub fn permits(&self) -> u64
        ensures { result ≡ self.now.view.permits }
    {
        self.permits
    }

    /// How many numbers the pass lists as its own. It takes no memory.
    pub fn calls(&self) -> u64
        ensures { result ≡ length self.now.view.rights }
    {
        self.calls
    }

    /// Parts a slip from the pass, with one permit and a front above all that the pass knows.
    pub fn slip(&mut self) -> Result<Slip<C>, Memory>
        requires { 0 < self.old.view.permits }
        ensures ok { IfOk result (λ slip. (slip ≡ record { office = self.old.office; view = slip_of self.old.view }) × (self.new ≡ record { office = self.old.office; view = less_permits 1 self.old.view })) }
        ensures err { OnErr result (self.new ≡ self.old) }
    {
        let member = self.member.slip()?;
        self.permits -= 1;
        Ok(Slip::new(member))
    }

    /// Takes in a note: the pass knows its strokes too, keeps the note, and lists the number that the note had the
    /// right to.
    pub fn meet(&mut self, note: Note<C>)
        requires { note.office ≡ self.old.office }
        ensures view { self.new ≡ record { office = self.old.office; view = after_meet self.old.view note.view } }
        ensures last { (n : ℕ) → note.view.rights ≡ n ∷ [] → next_number self.old.view.log ≤ n → self.new.view.rights ≡ self.old.view.rights ++ n ∷ [] }
    {
        let (member, has_right) = note.into_member();
        self.member.meet(member);
        self.member.check_as::<Brand>();
        if has_right {
            self.calls += 1;
        }
    }

    /// The word of the office, which is above every number that the pass knows.
    pub fn check(&mut self) -> u64
        ensures same { self.new ≡ self.old }
        ensures told { WordTells C.key (most_strokes self.old.office.passes) result self.old.view }
    {
        self.member.check_as::<Brand>()
    }
}
