//! What the rule of an office says of its views.
ghost use Rattle.std.specs.Prelude.{ℕ, List, slice_index};
ghost use Rattle.tab_seats.specs.declared.views.View.{View};
ghost use Rattle.tab_seats.specs.Rule.{SeatRule};
ghost use Rattle.tab_seats.specs.Parts.{SevenParts};

use crate::steps::Keyed;

/// The rule that each step keeps has seven parts.
pub fn seven_parts<C: Keyed>()
    ensures { (bound : ℕ) (words : List ℕ) (views : List (View C)) → SeatRule C.key bound words views → SevenParts C.key bound (slice_index words 0) views }
{}
