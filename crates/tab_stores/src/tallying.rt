//! The tally of the ranges of a server over disks in memory.

use tab_keys::{Bound, Memory};
use tab_range::{Backing, Told};
use tab_seats::Tally;

/// A tally that keeps nothing: its numbers are all 0.
#[derive(Drop)]
pub struct Unnumbered;

impl Tally<Told> for Unnumbered {
    ghost use Rattle.std.specs.Prelude.{⊤};

    ghost ready = { λ tally n. ⊤ };

    ghost covers = { λ tally s. ⊤ };

    ghost drew = { λ tally stroke after. ⊤ };

    ghost kin = { λ tally other. ⊤ };

    fn draw(&mut self, _command: &Told, _now: u64) -> u64 {
        0
    }

    fn cut(self, _at: &Bound) -> Result<(Self, Self), (Self, Memory)> {
        Ok((Unnumbered, Unnumbered))
    }

    fn fuse(self, _other: Self) -> Self {
        Unnumbered
    }
}

impl Backing for Unnumbered {
    ghost use Rattle.std.specs.Prelude.{⊤};

    ghost allows = { λ tally s rows next_tick. ⊤ };

    fn stroke(&mut self, _told: &Told, _now: u64) -> u64 {
        0
    }
}
