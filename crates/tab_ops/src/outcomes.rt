//! What one operation makes of a row or of its absence.
ghost use Rattle.std.specs.Prelude.{◌≡◌, ◌≤◌, IfErr, Ok, Err, Some, None, if◌then◌else◌};
ghost use Rattle.std.specs.Option.{option_copied};
ghost use Rattle.tab_keys.specs.Results.{Gives};
ghost use Rattle.tab_ops.specs.Changes.{meets, outcome_of, IsTimely};
ghost use Rattle.tab_edm.specs.declared.TheConstants.{GREATEST};

use crate::merges::merge;
use crate::ops::copied;
use crate::{Match, Op, OpRefused};
use std::alloc::Global;
use tab_edm::Entity;
use tab_rows::Row;

/// What the operation at this index of its group makes of a row or its absence.
pub(crate) fn outcome_of(
    alloc: Global,
    index: usize,
    kept: Option<&Row>,
    op: &Op,
) -> Result<Option<Entity>, OpRefused>
    ensures outcome { Gives OpRefused.Memory (λ outcome. outcome) result (outcome_of index (option_copied kept.entry) op.now) }
    ensures timely { IfErr result IsTimely }
{
    match kept {
        None => outcome_of_absence(alloc, index, op),
        Some(row) => outcome_of_row(alloc, index, row, op),
    }
}

fn outcome_of_absence(alloc: Global, index: usize, op: &Op) -> Result<Option<Entity>, OpRefused>
    ensures outcome { Gives OpRefused.Memory (λ outcome. outcome) result (outcome_of index None op.now) }
    ensures timely { IfErr result IsTimely }
{
    match op {
        Op::Insert(entity) | Op::Replace(entity) | Op::MergeIn(entity) => {
            Ok(Some(copied(alloc, entity)?))
        }
        Op::Update(..) | Op::Merge(..) | Op::Delete(_) => Err(OpRefused::NotThere { index }),
    }
}

fn outcome_of_row(
    alloc: Global,
    index: usize,
    row: &Row,
    op: &Op,
) -> Result<Option<Entity>, OpRefused>
    ensures outcome { Gives OpRefused.Memory (λ outcome. outcome) result (outcome_of index (Some row.now) op.now) }
    ensures timely { IfErr result IsTimely }
{
    match op {
        Op::Insert(_) => Err(OpRefused::AlreadyThere { index }),
        Op::Update(entity, condition) => {
            check(index, *condition, row.tick)?;
            Ok(Some(copied(alloc, entity)?))
        }
        Op::Replace(entity) => Ok(Some(copied(alloc, entity)?)),
        Op::Merge(entity, condition) => {
            check(index, *condition, row.tick)?;
            Ok(Some(merge(alloc, index, &row.entity, entity)?))
        }
        Op::MergeIn(entity) => Ok(Some(merge(alloc, index, &row.entity, entity)?)),
        Op::Delete(condition) => {
            check(index, *condition, row.tick)?;
            Ok(None)
        }
    }
}

// Refuses a row with this tick, unless it is the one that the condition wants.
fn check(index: usize, condition: Match, kept: u64) -> Result<(), OpRefused>
    requires { kept ≤ GREATEST }
    ensures outcome { result ≡ (if meets condition kept then Ok tt else Err (OpRefused.Condition index kept)) }
    ensures timely { IfErr result IsTimely }
{
    match condition {
        Match::Any => Ok(()),
        Match::Tick(tick) if tick == kept => Ok(()),
        Match::Tick(_) => Err(OpRefused::Condition { index, tick: kept }),
    }
}
