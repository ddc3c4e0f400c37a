//! What holds of each change that a server makes.
ghost use Rattle.tab_server.specs.Contents.{told_ranges, ChangeFits, IsAcceptedChange};

use crate::{RangeChange, Ranges};
use tab_range::Backing;

/// The changes that a command was answered fit the ranges that are held. It does nothing.
#[tactic(auto, using(crate::proofs::Accepted::fits_answer))]
pub fn accepted_changes_fit<T: Backing>(_held: &Ranges<T>, _step: &RangeChange)
    requires { IsAcceptedChange _held.now _step.now }
    ensures { ChangeFits (told_ranges _held.now) _step.now }
{}
