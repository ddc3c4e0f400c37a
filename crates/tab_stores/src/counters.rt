//! A counter as the content of a store.

ghost use Rattle.std.specs.Prelude.{◌≡◌};
ghost use Rattle.tab_stores.specs.Counting.{counting, count_of};
ghost use Rattle.tab_stores.specs.CountLaws.{goes_on, checks_out};

use crate::frames::{count_of, prepared};
use std::alloc::Global;
use tab_codec::{Frame, Prepared};
use tab_journal::Content;
use tab_keys::Memory;

/// A counter, which its frames tell whole.
#[derive(Drop)]
pub struct Counter {
    pub count: u64,
}

impl Content for Counter {
    // The number to count up to.
    type Step = u64;

    ghost sense = { counting };

    fn prepare(&self, alloc: Global, step: &u64) -> Result<Prepared, Memory> {
        prepared(alloc, *step)
    }

    fn pieces(&self, alloc: Global) -> Result<Vec<Prepared>, Memory> {
        let piece = prepared(alloc, self.count)?;
        Ok(vec![in alloc; piece]?)
    }

    fn apply(&mut self, step: u64) {
        self.count = step;
    }

    fn is_read(&self, _alloc: Global, frames: &[Frame]) -> Result<bool, Memory> {
        Ok(count_of(frames) == self.count)
    }

    fn is_read_with(&self, _alloc: Global, step: &u64, frames: &[Frame]) -> Result<bool, Memory> {
        Ok(count_of(frames) == *step)
    }

    ghost goes_on = { goes_on };

    ghost checks_out = { checks_out };
}
