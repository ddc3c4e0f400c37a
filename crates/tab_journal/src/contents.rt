//! What a store's frames stand for, and the steps by which it changes.

ghost use Rattle.std.specs.Prelude.{◌≡◌, IsTrue, IsFalse, IfOk};
ghost use Rattle.tab_journal.specs.Areas.{AreFrames};
ghost use Rattle.tab_journal.specs.Keeping.{Sense, GoesOn, ChecksOut, StandsFor, StandsWith, IsDone};

use std::alloc::Global;
use tab_codec::{Frame, Prepared};
use tab_keys::Memory;

/// What a store's frames stand for, with what is held beside it in memory alone.
pub trait Content: Drop {
    /// One step of it, which is one frame.
    type Step: Drop;

    /// What frames tell of it, which frames stand for that, and what a step makes of it.
    ghost sense: { Sense Self Self.Step };

    /// The frame of a step.
    fn prepare(&self, alloc: Global, step: &Self::Step) -> Result<Prepared, Memory>
        requires { sense.fits (sense.tells self.now) step.now }
        ensures { IfOk result (λ prepared. prepared ≡ sense.frame_of step.now) };

    /// The frames of a checkpoint.
    fn pieces(&self, alloc: Global) -> Result<Vec<Prepared>, Memory>
        ensures { IfOk result (λ pieces. sense.is_checkpoint pieces.items (sense.tells self.now)) };

    /// Does a step; this takes no memory.
    fn apply(&mut self, step: Self::Step)
        requires fits { sense.fits (sense.tells self.old) step }
        requires ready { sense.ready self.old step }
        ensures { IsDone sense self.old step self.new };

    /// Whether the frames of a store stand for it.
    fn is_read(&self, alloc: Global, frames: &[Frame]) -> Result<bool, Memory>
        requires are { AreFrames sense.kind frames.now }
        ensures yes { IfOk result (λ is. IsTrue is → StandsFor sense self.now frames.now) }
        ensures no { IfOk result (λ is. IsFalse is → StandsFor sense self.now frames.now → ⊥) };

    /// Whether they stand for it with the step.
    fn is_read_with(
        &self,
        alloc: Global,
        step: &Self::Step,
        frames: &[Frame],
    ) -> Result<bool, Memory>
        requires are { AreFrames sense.kind frames.now }
        requires fits { sense.fits (sense.tells self.now) step.now }
        ensures yes { IfOk result (λ is. IsTrue is → StandsWith sense self.now step.now frames.now) }
        ensures no { IfOk result (λ is. IsFalse is → StandsWith sense self.now step.now frames.now → ⊥) };

    /// A step's frame goes on from frames of a store that stand for what is told.
    ghost goes_on: { GoesOn sense };

    /// The frames of a checkpoint stand for what is told.
    ghost checks_out: { ChecksOut sense };
}
