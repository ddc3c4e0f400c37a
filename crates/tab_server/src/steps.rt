//! Steps of what a server holds, each of which is one frame.
ghost use Rattle.std.specs.Prelude.{◌≡◌, ◌≤◌, ◌<◌, ◌+◌, ◌^◌, length, IfOk};
ghost use Rattle.std.specs.List.{AllByRecursion};
ghost use Rattle.tab_codec.specs.Frames.{IsChange};
ghost use Rattle.tab_keys.specs.Keys.{IsKey};
ghost use Rattle.tab_ops.specs.declared.TheConstants.{MOST_ITEMS};
ghost use Rattle.tab_server.specs.Contents.{change_frame};

use std::alloc::Global;
use tab_codec::{Frame, FrameList, Prepared, prepare};
use tab_keys::{Key, Memory};
use tab_ops::Changes;
use tab_range::Told;
use tab_rows::Change;

/// An accepted change of one range, and the command that asked for it.
#[derive(Drop)]
pub struct RangeChange {
    /// The range's number.
    pub range: u64,
    /// What is changed.
    pub changes: Changes,
    /// The command, with the tick of the changes.
    pub told: Told,
    /// The moment of the command, in ticks.
    pub moment: u64,
}

impl RangeChange {
    /// The frame of a change.
    #[tactic(auto, using(crate::proofs::RowSizes::change_body_short))]
    pub fn prepared(&self, alloc: Global) -> Result<Prepared, Memory>
        requires few { length self.now.changes.list ≤ MOST_ITEMS }
        requires in_time { self.now.changes.tick + 1 < 2 ^ 64 }
        ensures { IfOk result (λ prepared. prepared ≡ change_frame self.now) }
    {
        are_changes(self.changes.list.as_slice());
        let copy = self.changes.list.try_copy(alloc)?;
        prepare(
            alloc,
            &Frame::Change {
                range: self.range,
                next_tick: self.changes.tick + 1,
                changes: FrameList::new(copy.into_vec()),
            },
        )
    }
}

/// What all changes of the program are. It does nothing.
#[tactic(auto, using(tab_codec::proofs::Sums::all_more))]
fn are_changes(changes: &[Change])
    ensures { AllByRecursion IsChange changes.now }
{
    for change in changes {
        is_change(change);
    }
}

fn is_change(change: &Change)
    ensures { IsChange change.now }
{
    match change {
        Change::Put(row) => row.kept(),
        Change::Take(key) => is_key(key),
    }
}

fn is_key(key: &Key)
    ensures { IsKey key.now }
{
    read_table(key.table);
    let _ = key.pk.as_str();
    let _ = key.rk.as_str();
}

fn read_table(_table: u64)
    ensures { _table < 2 ^ 64 }
{}
