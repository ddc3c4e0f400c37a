//! Laws of queries, each the contract of a function that does nothing ("Query Timeout and Pagination" in the REST reference).
ghost use Rattle.std.specs.Prelude.{◌≡◌, ℕ, List, IsTrue};
ghost use Rattle.tab_keys.specs.KeyTexts.{IsKeyText};
ghost use Rattle.tab_keys.specs.Spans.{Interval, has};
ghost use Rattle.tab_keys.specs.declared.bounds.Bound.{Bound};
ghost use Rattle.tab_rows.specs.Rows.{RowView};
ghost use Rattle.tab_rows.specs.Spans.{rows_in};
ghost use Rattle.tab_page.specs.Continuations.{IsReadAlone, IsReadBehind};
ghost use Rattle.tab_page.specs.Pages.{start_key, end_above, looked_at, page_below, page_of};
ghost use Rattle.tab_page.specs.declared.pages.Options.{Options};

/// A query that hands back the tokens of a key asks for just the start that they name.
pub fn tokens_are_handed_back()
    ensures { (pk rk : List ℕ) → IsKeyText pk → IsKeyText rk → IsReadAlone (pk, rk) }
{}

/// A query with the tokens of a key behind it asks for the same as before, from that key on.
pub fn queries_go_on_where_tokens_say()
    ensures { (query pk rk : List ℕ) (options : Options) → IsKeyText pk → IsKeyText rk → IsReadBehind query options (pk, rk) }
{}

/// The page of a world whose ranges begin at these bounds is the page of the span that has its start and ends at the next of
/// the bounds, from the rows of that span alone; it looks at as many of them.
pub fn pages_of_a_span_are_pages_of_all()
    ensures page { (span : Interval) (rows : List RowView) (bounds : List Bound) (table : ℕ) (options : Options)
        → IsTrue (has span (start_key table options)) → end_above (start_key table options) bounds ≡ span.hi
        → page_of rows bounds table options ≡ page_below (rows_in span rows) table options span.hi }
    ensures looked_at { (span : Interval) (rows : List RowView) (table : ℕ) (options : Options)
        → IsTrue (has span (start_key table options))
        → looked_at (rows_in span rows) table options span.hi ≡ looked_at rows table options span.hi }
{}
