//! Why a call on a server was refused.

ghost use Rattle.std.specs.Prelude.{◌≡◌, ◌≢◌, IsFalse};
ghost use Rattle.tab_server.specs.ServerCauses.{act_refused, IsRangeDenial, denied_as};

use tab_history::Denied;
use tab_journal::KeptRefused;
use tab_keys::Memory;
use tab_ops::OpRefused;

/// Why a call on a server was refused.
#[derive(Debug, Drop)]
pub enum ActRefused {
    /// No range that serves or is sealed, and has a tally, has the key.
    NotHeld,
    /// The range that has the key is sealed.
    Sealed { range: u64 },
    /// A call on the disk of this area failed.
    DiskFault { area: u8 },
    /// No moment is left for the tick of a change.
    TimeSpent,
    /// An operation of the group was refused.
    Op(OpRefused),
    /// No row is at the key.
    NotFound,
    /// No memory was found.
    Memory,
    /// The store was rewritten as often as its epochs allow.
    EpochSpent,
    /// The bytes of this area have no spelling at this offset, or the frames end there and stand for something else than
    /// what was held.
    Damaged { area: u8, at: u64 },
}

impl From<Memory> for ActRefused {
    fn from(_memory: Memory) -> ActRefused
        ensures { result ≡ ActRefused.Memory }
    {
        ActRefused::Memory
    }
}

/// The refusal of what is kept.
pub(crate) fn act_refused(refused: KeptRefused) -> ActRefused
    ensures { result ≡ act_refused refused }
{
    match refused {
        KeptRefused::DiskFault { area } => ActRefused::DiskFault { area },
        KeptRefused::Damaged { area, at } => ActRefused::Damaged { area, at },
        KeptRefused::EpochSpent => ActRefused::EpochSpent,
        KeptRefused::Memory => ActRefused::Memory,
    }
}

/// Whether a range found no memory.
pub(crate) fn is_memory(denied: &Denied) -> bool
    ensures { IsFalse result → denied.now ≢ Denied.Memory }
{
    match denied {
        Denied::Memory => true,
        _ => false,
    }
}

/// The refusal of a range.
pub(crate) fn denied_as(denied: Denied) -> ActRefused
    requires { IsRangeDenial denied }
    ensures { result ≡ denied_as denied }
{
    match denied {
        Denied::NotFound => ActRefused::NotFound,
        Denied::Op(why) => ActRefused::Op(why),
        Denied::TimeSpent => ActRefused::TimeSpent,
        _ => unreachable!(),
    }
}
