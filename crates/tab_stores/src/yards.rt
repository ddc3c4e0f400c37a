//! What stands between two calls: two disks, or a store over them.

use crate::disks::Disks;
use std::alloc::Global;
use tab_journal::Store;
use tab_outside::MemDisk;

/// Two disks, or a store over them.
#[derive(Drop)]
pub enum Yard {
    Closed(Disks),
    Open(Store<MemDisk>),
}

/// Two empty disks.
pub fn fresh(alloc: Global) -> Yard {
    Yard::Closed(Disks::new(alloc))
}

impl Yard {
    /// The disks.
    pub fn closed(self) -> Disks {
        match self {
            Yard::Closed(disks) => disks,
            Yard::Open(store) => disks_of(store),
        }
    }
}

/// The disks of a store.
pub fn disks_of(store: Store<MemDisk>) -> Disks {
    let (a, b) = store.into_disks();
    Disks { a, b }
}
