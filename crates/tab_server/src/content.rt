//! The ranges that a server holds, as the content of its store.
ghost use Rattle.tab_server.specs.Contents.{ranges_sense};

use crate::{RangeChange, Ranges};
use std::alloc::Global;
use tab_codec::{Frame, Prepared};
use tab_journal::Content;
use tab_keys::Memory;
use tab_range::Backing;

impl<T: Backing> Content for Ranges<T> {
    type Step = RangeChange;

    ghost sense = { ranges_sense T.drew T.ready T.kin };

    fn prepare(&self, alloc: Global, step: &RangeChange) -> Result<Prepared, Memory> {
        step.prepared(alloc)
    }

    #[tactic(auto, using(crate::proofs::Checkpoints::server_checkpoint))]
    fn pieces(&self, alloc: Global) -> Result<Vec<Prepared>, Memory> {
        let pieces = self.checkpoint_pieces(alloc)?;
        Ok(pieces)
    }

    fn apply(&mut self, step: RangeChange) {
        self.change(step)
    }

    #[tactic(auto, using(crate::proofs::Holding::told_still, crate::proofs::Holding::told_so))]
    fn is_read(&self, alloc: Global, frames: &[Frame]) -> Result<bool, Memory> {
        let are_read = self.are_read(alloc, frames, None)?;
        Ok(are_read)
    }

    fn is_read_with(
        &self,
        alloc: Global,
        step: &RangeChange,
        frames: &[Frame],
    ) -> Result<bool, Memory> {
        let are_read = self.are_read(alloc, frames, Some(step))?;
        Ok(are_read)
    }

    ghost goes_on = { λ frames ranges step are fits stand. fits.goes_on frames stand };

    ghost checks_out = { λ frames ranges checkpoint. (checkpoint.are, checkpoint.stand) };
}
