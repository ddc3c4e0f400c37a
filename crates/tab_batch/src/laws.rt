//! What follows from the definitions of a batch alone.
ghost use Rattle.std.specs.Prelude.{◌≡◌, ℕ, List, Ok};
ghost use Rattle.std.specs.List.{AllByRecursion};
ghost use Rattle.tab_batch.specs.Parts.{requests_of};
ghost use Rattle.tab_batch.specs.Refusals.{Answer, IsBatchAnswer};
ghost use Rattle.tab_batch.specs.Replies.{IsPlain, batch_text, outer_boundary};

/// The bytes of a batch decide its answer, where memory is found.
pub fn a_batch_has_one_answer()
    ensures { (boundary bytes : List ℕ) (a b : Answer) → IsBatchAnswer boundary bytes a → IsBatchAnswer boundary bytes b → a ≡ b }
{}

/// There are no bytes of a batch without an answer.
pub fn a_batch_has_some_answer()
    ensures { (boundary bytes : List ℕ) → ((answer : Answer) → IsBatchAnswer boundary bytes answer → ⊥) → ⊥ }
{}

/// What is written of replies whose lines mark off no part is read as these replies again.
pub fn replies_are_read_again()
    ensures { (replies : List (List ℕ)) → AllByRecursion IsPlain replies → requests_of outer_boundary (batch_text replies) ≡ Ok replies }
{}
