//! Laws of the rows of a span, each the contract of a function that does nothing.
ghost use Rattle.std.specs.Prelude.{◌≡◌, List, ◌++◌, IsTrue, IsFalse};
ghost use Rattle.tab_keys.specs.Order.{bound_lt};
ghost use Rattle.tab_keys.specs.Spans.{Interval, has};
ghost use Rattle.tab_keys.specs.declared.bounds.Bound.{Bound};
ghost use Rattle.tab_keys.specs.declared.keys.Key.{Key};
ghost use Rattle.tab_rows.specs.Rows.{RowView, AreRising, row_at};
ghost use Rattle.tab_rows.specs.Spans.{rows_in};

/// At a key of a span stands the same among the span's rows as among all.
pub fn reads_of_a_span_are_reads_of_all()
    ensures { (span : Interval) (rows : List RowView) (key : Key) → IsTrue (has span key)
        → row_at (rows_in span rows) key ≡ row_at rows key }
{}

/// The rows of a span within another are those among the other's, and a span's rows are those of its parts below and above a
/// bound in it, one after another.
pub fn spans_part_and_join()
    ensures part { (inner outer : Interval) (rows : List RowView) → IsFalse (bound_lt inner.lo outer.lo)
        → IsFalse (bound_lt outer.hi inner.hi) → rows_in inner (rows_in outer rows) ≡ rows_in inner rows }
    ensures joined { (lo middle hi : Bound) (rows : List RowView) → AreRising rows → IsFalse (bound_lt middle lo) → IsFalse (bound_lt hi middle)
        → rows_in (record { lo = lo; hi = hi }) rows
        ≡ rows_in (record { lo = lo; hi = middle }) rows ++ rows_in (record { lo = middle; hi = hi }) rows }
{}
