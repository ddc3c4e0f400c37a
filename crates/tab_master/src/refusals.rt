//! Why a call on the names was refused.

ghost use Rattle.std.specs.Prelude.{◌≡◌};
ghost use Rattle.tab_master.specs.NamesCalls.{names_refused};

use tab_journal::KeptRefused;
use tab_keys::Memory;

/// The number of the first of the names' two disks.
const FIRST_DISK: u64 = 2;

/// Why a call on the names was refused.
#[derive(Clone, Copy, Debug, PartialEq, Eq)]
pub enum NamesRefused {
    /// A table has the name, whatever its case.
    AlreadyThere,
    /// No table has the name.
    NotThere,
    /// The next table's number would be the greatest one.
    IdsSpent,
    /// A call of this disk failed.
    DiskFault { disk: u64 },
    /// No memory was found.
    Memory,
    /// The store was rewritten as often as its epochs allow.
    EpochSpent,
    /// At this byte of this disk stands what the store did not write.
    Damaged { disk: u64, at: u64 },
}

impl From<Memory> for NamesRefused {
    fn from(_memory: Memory) -> NamesRefused
        ensures { result ≡ NamesRefused.Memory }
    {
        NamesRefused::Memory
    }
}

/// The refusal of what is kept, by the number of the disk.
pub(crate) fn names_refused(refused: KeptRefused) -> NamesRefused
    ensures { result ≡ names_refused refused }
{
    match refused {
        KeptRefused::DiskFault { area } => NamesRefused::DiskFault {
            disk: FIRST_DISK + u64::from(area),
        },
        KeptRefused::Damaged { area, at } => NamesRefused::Damaged {
            disk: FIRST_DISK + u64::from(area),
            at,
        },
        KeptRefused::EpochSpent => NamesRefused::EpochSpent,
        KeptRefused::Memory => NamesRefused::Memory,
    }
}
