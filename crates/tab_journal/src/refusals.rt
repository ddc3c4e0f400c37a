//! Why a store's call was refused.

/// Why a store's call was refused.
#[derive(Clone, Copy, Debug, PartialEq, Eq)]
pub enum StoreRefused {
    /// A call on the disk of this area failed.
    DiskFault { area: u8 },
    /// The bytes of this area have no spelling at this offset.
    NotAStore { area: u8, at: u64 },
    /// The last epoch is reached, so the store cannot be compacted again.
    EpochSpent,
    /// No memory was found.
    Memory,
}

/// The disks of a store that was not made or opened, and why.
#[derive(Drop)]
pub struct Back<D> {
    /// The disk of area 0.
    pub a: D,
    /// The disk of area 1.
    pub b: D,
    pub refused: StoreRefused,
}
