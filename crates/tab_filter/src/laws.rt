//! Laws of the filter language that need no code: where a filter that exceeds a limit is refused (OData 3.0, part "URL
//! conventions", sections on `$filter`; the limits are this service's own).

ghost use Rattle.std.specs.Prelude.{List, ℕ, Err, IsUtf8, chars};
ghost use Rattle.tab_filter.specs.declared.filter_text.FilterRefused.{FilterRefused as RefusalType};
ghost use Rattle.tab_filter.specs.Parser.{filter_at};
ghost use Rattle.tab_filter.specs.Offsets.{Answers};
ghost use Rattle.tab_filter.specs.Limits.{IsPlaced};

/// The offset of a syntax refusal is one at which the grammar goes no further, or that of a `(` or `not` before which 64
/// are open; and a filter is refused for its comparisons where a 16th begins behind 15.
pub fn refusals_are_placed()
    ensures { (text : List ℕ) (refused : RefusalType) → IsUtf8 text → Answers text (Err refused) (filter_at (chars text)) → IsPlaced (chars text) refused }
{}
