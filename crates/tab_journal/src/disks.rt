//! Reads the whole of two disks, after a sync of both.

ghost use Rattle.std.specs.Prelude.{◌≡◌, ℕ, List, OnOk, IfOk, Err};
ghost use Rattle.tab_outside.specs.Disks.{LeavesOnly};
ghost use Rattle.tab_outside.specs.Faults.{HasCauseFor};
ghost use Rattle.tab_outside.specs.Pairs.{AddsNone};
ghost use Rattle.tab_journal.specs.Stores.{HasCauses, IsFaultOrMemory};
ghost use Rattle.tab_journal.specs.declared.disks.Lost.TheVariants.{Failed};
ghost use Rattle.tab_journal.specs.declared.refusals.StoreRefused.TheVariants.{DiskFault};

use crate::StoreRefused;
use std::alloc::Global;
use tab_outside::Disk;

/// Why a disk was not read.
#[derive(Clone, Copy, Debug, PartialEq, Eq)]
pub enum Lost {
    /// A call failed.
    Failed,
    /// No memory was found.
    Memory,
}

/// All bytes of a disk.
pub fn read_all<D: Disk>(alloc: Global, disk: &mut D) -> Result<Vec<u8>, Lost>
    ensures bytes { D.honest → IfOk result (λ bytes. bytes.items ≡ D.watch.seen disk.old) }
    ensures seen { D.honest → D.watch.seen disk.new ≡ D.watch.seen disk.old }
    ensures each { D.honest → (c : List ℕ) → D.watch.may_leave disk.new c → D.watch.may_leave disk.old c }
    ensures images { D.honest → AddsNone D.watch disk.old disk.new }
    ensures stops { D.has_stops disk.new ≡ D.has_stops disk.old }
    ensures cause { HasCauseFor (D.faults disk.old) (D.faults disk.new) result Lost.Failed }
{
    let Ok(size) = disk.len() else {
        return Err(Lost::Failed);
    };
    let mut bytes = Vec::new(alloc);
    let Ok(()) = bytes.resize(size as usize, 0) else {
        return Err(Lost::Memory);
    };
    let Ok(count) = disk.read_at(0, &mut bytes) else {
        return Err(Lost::Failed);
    };
    bytes.truncate(count);
    Ok(bytes)
}

/// Syncs both disks, and then reads all bytes of both: of the first and then of the second.
pub fn read_both<D: Disk>(
    alloc: Global,
    a: &mut D,
    b: &mut D,
) -> Result<(Vec<u8>, Vec<u8>), StoreRefused>
    ensures bytes_a { D.honest → IfOk result (λ read. read.0.items ≡ D.watch.seen a.old) }
    ensures bytes_b { D.honest → IfOk result (λ read. read.1.items ≡ D.watch.seen b.old) }
    ensures only_a { D.honest → OnOk result (LeavesOnly D.watch a.new (D.watch.seen a.old)) }
    ensures only_b { D.honest → OnOk result (LeavesOnly D.watch b.new (D.watch.seen b.old)) }
    ensures seen_a { D.honest → D.watch.seen a.new ≡ D.watch.seen a.old }
    ensures seen_b { D.honest → D.watch.seen b.new ≡ D.watch.seen b.old }
    ensures each_a { D.honest → (c : List ℕ) → D.watch.may_leave a.new c → D.watch.may_leave a.old c }
    ensures each_b { D.honest → (c : List ℕ) → D.watch.may_leave b.new c → D.watch.may_leave b.old c }
    ensures images_a { D.honest → AddsNone D.watch a.old a.new }
    ensures images_b { D.honest → AddsNone D.watch b.old b.new }
    ensures stops_a { D.has_stops a.new ≡ D.has_stops a.old }
    ensures stops_b { D.has_stops b.new ≡ D.has_stops b.old }
    ensures alone { IsFaultOrMemory result }
    ensures causes { HasCauses D.faults a.old b.old a.new b.new result }
{
    if a.sync().is_err() {
        return Err(StoreRefused::DiskFault { area: 0 });
    }
    if b.sync().is_err() {
        return Err(StoreRefused::DiskFault { area: 1 });
    }
    let first = match read_all(alloc, a) {
        Ok(bytes) => bytes,
        Err(lost) => return Err(refusal(lost, 0)),
    };
    match read_all(alloc, b) {
        Ok(second) => Ok((first, second)),
        Err(lost) => Err(refusal(lost, 1)),
    }
}

/// What is answered of the disk of an area that was not read.
fn refusal(lost: Lost, area: u8) -> StoreRefused
    ensures fault { (other : ℕ) → result ≡ DiskFault other → (other ≡ area) × (lost ≡ Failed) }
    ensures alone { IsFaultOrMemory {T = Unit} (Err result) }
{
    match lost {
        Lost::Failed => StoreRefused::DiskFault { area },
        Lost::Memory => StoreRefused::Memory,
    }
}
