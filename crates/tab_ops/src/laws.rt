//! Laws of groups and of merges, each the contract of a function that does nothing.
ghost use Rattle.std.specs.Prelude.{◌≡◌, ℕ, Option, List, ◌∷◌, map, All, IsTrue, IsFalse, None, Some, Ok, Err, IsOk, IsUtf8, slice_get};
ghost use Rattle.tab_keys.specs.Order.{same_key};
ghost use Rattle.tab_keys.specs.Spans.{Interval, has};
ghost use Rattle.tab_keys.specs.declared.keys.Key.{Key};
ghost use Rattle.tab_edm.specs.Entities.{EntityView, IsRising};
ghost use Rattle.tab_rows.specs.Rows.{RowView, AreRising, row_at};
ghost use Rattle.tab_rows.specs.Spans.{rows_in, rows_beside};
ghost use Rattle.tab_rows.specs.declared.changes.Change.{Change};
ghost use Rattle.tab_ops.specs.Groups.{ItemView, AreApart, item_key, group_refusal};
ghost use Rattle.tab_ops.specs.Changes.{group_outcome, group_keys, merge_outcome, applied, change_key};
ghost use Rattle.tab_ops.specs.Spans.{outcome_in};
ghost use Rattle.tab_ops.specs.Laws.{IsKeptOrPut, SawRowsBefore, IsRefusedByItem, MakesMerge, IsPastLimits};
ghost use Rattle.tab_ops.specs.declared.groups.OpRefused.{OpRefused};

/// Whether a group is refused, and why, does not depend on the tick that it would have.
pub fn groups_are_judged_without_their_tick()
    ensures refused { (rows : List RowView) (table tick other : ℕ) (group : List ItemView) (why : OpRefused) → AreApart group
        → group_outcome rows table tick group ≡ Err why → group_outcome rows table other group ≡ Err why }
    ensures accepted { (rows after : List RowView) (table tick other : ℕ) (group : List ItemView) → AreApart group
        → group_outcome rows table tick group ≡ Ok after → IsOk (group_outcome rows table other group) }
{}

/// A group is refused as one of its operations is, which acts on the rows as they were before the group.
pub fn groups_are_refused_by_an_item()
    ensures { (rows : List RowView) (table tick : ℕ) (group : List ItemView) (why : OpRefused) → AreApart group
        → group_outcome rows table tick group ≡ Err why → IsRefusedByItem rows table group why }
{}

/// Rows in rising order are so after a group.
pub fn groups_keep_order()
    ensures { (rows after : List RowView) (table tick : ℕ) (group : List ItemView) → AreRising rows
        → group_outcome rows table tick group ≡ Ok after → AreRising after }
{}

/// A row after a group is one that stood before, or has one of the group's keys and its tick.
pub fn groups_give_their_keys_one_tick()
    ensures { (rows after : List RowView) (table tick : ℕ) (group : List ItemView)
        → group_outcome rows table tick group ≡ Ok after → All (IsKeptOrPut rows table tick group) after }
{}

/// A key that no operation of a group has keeps its row or its absence.
pub fn groups_leave_other_keys()
    ensures { (rows after : List RowView) (table tick : ℕ) (group : List ItemView) (key : Key)
        → All (λ own. IsFalse (same_key own key)) (group_keys table group)
        → group_outcome rows table tick group ≡ Ok after → row_at after key ≡ row_at rows key }
{}

/// Each operation of a group acts on the rows as they were before the group.
pub fn items_see_the_rows_before_their_group()
    ensures { (rows after : List RowView) (table tick index : ℕ) (group : List ItemView) (item : ItemView) → AreApart group
        → group_outcome rows table tick group ≡ Ok after → slice_get group index ≡ Some item
        → SawRowsBefore rows after table tick index item }
{}

/// The keys of a group lie in one partition.
pub fn groups_act_in_one_partition()
    ensures { (first : ItemView) (items : List ItemView) → group_refusal (first ∷ items) ≡ None
        → All (λ item. item.pk ≡ first.pk) items }
{}

/// A span that has one key of a group has all of them, and one that lacks one has none.
pub fn groups_lie_in_one_span()
    ensures inside { (span : Interval) (table : ℕ) (first : ItemView) (items : List ItemView) → group_refusal (first ∷ items) ≡ None
        → IsTrue (has span (item_key table first)) → All (λ key. IsTrue (has span key)) (group_keys table (first ∷ items)) }
    ensures outside { (span : Interval) (table : ℕ) (first : ItemView) (items : List ItemView) → group_refusal (first ∷ items) ≡ None
        → IsFalse (has span (item_key table first)) → All (λ key. IsFalse (has span key)) (group_keys table (first ∷ items)) }
{}

/// A group whose keys lie in a span comes to on the span's rows what it comes to on all rows, and changes no row beside the
/// span. One none of whose keys lie in a span changes none of its rows.
pub fn groups_act_on_a_span_as_on_all()
    ensures inside { (span : Interval) (rows : List RowView) (table tick : ℕ) (group : List ItemView)
        → All (λ key. IsTrue (has span key)) (group_keys table group)
        → group_outcome (rows_in span rows) table tick group ≡ outcome_in span (group_outcome rows table tick group) }
    ensures beside { (span : Interval) (rows after : List RowView) (table tick : ℕ) (group : List ItemView) → AreRising rows
        → All (λ key. IsTrue (has span key)) (group_keys table group)
        → group_outcome rows table tick group ≡ Ok after → rows_beside span after ≡ rows_beside span rows }
    ensures elsewhere { (span : Interval) (rows after : List RowView) (table tick : ℕ) (group : List ItemView) → AreRising rows
        → All (λ key. IsFalse (has span key)) (group_keys table group)
        → group_outcome rows table tick group ≡ Ok after → rows_in span after ≡ rows_in span rows }
{}

/// Changes whose keys lie in a span make of the span's rows what they make of them among all rows, and changes none of whose
/// keys do leave them. Rows in rising order are so after changes.
pub fn changes_act_on_a_span_as_on_all()
    ensures inside { (span : Interval) (rows : List RowView) (changes : List Change)
        → All (λ key. IsTrue (has span key)) (map change_key changes)
        → applied (rows_in span rows) changes ≡ rows_in span (applied rows changes) }
    ensures elsewhere { (span : Interval) (rows : List RowView) (changes : List Change) → AreRising rows
        → All (λ key. IsFalse (has span key)) (map change_key changes) → rows_in span (applied rows changes) ≡ rows_in span rows }
    ensures rising { (rows : List RowView) (changes : List Change) → AreRising rows → AreRising (applied rows changes) }
{}

/// No two operations of a group have one row key, and so no two of its keys are one.
pub fn groups_have_rows_of_their_own()
    ensures { (items : List ItemView) → All (λ item. IsUtf8 item.rk) items → group_refusal items ≡ None → AreApart items }
{}

/// A merge is refused for the number of its properties or for its size alone.
pub fn merges_are_refused_past_limits()
    ensures { (index : ℕ) (kept given : EntityView) (why : OpRefused) → merge_outcome index kept given ≡ Err why
        → IsPastLimits index why }
{}

/// An accepted merge has under each name the given value, where one is given, and else the kept one.
pub fn merges_give_values_by_name()
    ensures { (index : ℕ) (kept given : EntityView) (outcome : Option EntityView) → IsRising kept.properties → IsRising given.properties
        → merge_outcome index kept given ≡ Ok outcome → MakesMerge index kept given outcome }
{}
