//! How a range is split, merged with its neighbour or moved to another server: the states of such a plan, its turns,
//! and why a step of it is refused.

/// Where a plan stands.
#[derive(Clone, Copy, Debug)]
pub enum PlanState {
    /// There is no such plan, or it has ended.
    NoPlan,
    /// It was made, and its old ranges serve.
    Planned,
    /// Its old ranges serve no more.
    Sealed,
    /// The rows of its new ranges are written.
    Adopted,
    /// The map has its new ranges.
    Committed,
}

/// A turn of a plan.
#[derive(Clone, Copy, Debug)]
pub enum Turn {
    /// It was made.
    Planned,
    /// Its old ranges were sealed.
    Sealed,
    /// Its new ranges' rows were written.
    Adopted,
    /// The map has its new ranges from here on.
    Committed,
    /// Its new ranges serve, and it has ended.
    Served,
    /// Its old ranges serve again, and it has ended.
    Cancelled,
}

/// Why a step of a plan, or a rewriting of a store, is refused.
#[derive(Clone, Copy, Debug)]
pub enum MapRefused {
    /// No range has the number.
    NoSuchRange,
    /// The bound at which the range is to be cut is not strictly inside it.
    BoundOutside,
    /// The second range is not the upper neighbour of the first.
    NotNeighbours,
    /// No server has the number.
    NoSuchServer,
    /// This plan, which has not ended, has the range already.
    InPlan { plan: u64 },
    /// The map has as many ranges as it may have, with those of the splits that are planned.
    TooManyRanges,
    /// No number is left for a range or a plan.
    IdsSpent,
    /// A call of this disk failed.
    DiskFault { disk: u64 },
    /// No memory was found.
    Memory,
    /// The plan is in this state, which is not the one that the step needs.
    WrongTurn { state: PlanState },
    /// The store was rewritten as often as its epochs allow.
    EpochSpent,
    /// At this byte of this disk stands what the store did not write.
    Damaged { disk: u64, at: u64 },
}
