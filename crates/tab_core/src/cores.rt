//! The service over a yard of disks.

ghost use Rattle.std.specs.Prelude.{◌≡◌, ◌≢◌, ℕ, ◌≤◌, ◌⊎◌, length, vec_len, IfErr, OnOk, Ok, Err};
ghost use Rattle.std.specs.List.{All, AllZip};
ghost use Rattle.tab_outside.specs.Disks.{Rests};
ghost use Rattle.tab_core.specs.Courses.{Course, first_course};
ghost use Rattle.tab_core.specs.Points.{Holds};
ghost use Rattle.tab_core.specs.Making.{IsYard, IsFirstFilled, RoseAt};

use crate::making::make_stores;
use std::alloc::Global;
use std::marker::PhantomData;
use tab_outside::{Disk, Failed};

/// The service over a yard of disks. Disks 0 and 1 are the map's, 2 and 3 the names', and 4 + 2s and 5 + 2s those of server s.
pub struct Core<D> {
    disks: PhantomData<D>,
}

/// Why no store was made over a yard of disks.
#[derive(Clone, Copy, Debug, PartialEq, Eq)]
pub enum InitRefused {
    /// This disk is not empty, and each before it is.
    NotEmpty { disk: u64 },
    /// A call of this disk failed.
    DiskFault { disk: u64 },
    /// No memory was found.
    Memory,
}

impl<D: Disk> Core<D> {
    /// Makes a store without tables over empty disks: one range has all keys, and server 0 holds it. It asks all disks for
    /// their lengths first. After a disk fault behind that, and after want of memory, the disks may be written in part.
    pub fn init(alloc: Global, yard: &mut Vec<D>) -> Result<(), InitRefused>
        // After Ok the disks hold a store that was just made.
        ensures holds { D.honest → IsYard (vec_len yard.old) → OnOk result (Holds D.watch first_course yard.new.items) }

        // Disks that hold a store hold it still, whatever comes.
        ensures kept { D.honest → (course : Course) → Holds D.watch course yard.old.items → Holds D.watch course yard.new.items }

        // Where a disk is not empty, nothing is written.
        ensures rests { D.honest → (disk : ℕ) → result ≡ Err (InitRefused.NotEmpty disk) → AllZip (Rests D.watch) yard.old.items yard.new.items }

        // The first disk that is not empty decides, unless that one or one before it does not tell its length.
        ensures not_empty { D.tells → (disk : ℕ) → result ≡ Err (InitRefused.NotEmpty disk) → IsFirstFilled D.watch yard.old.items disk }
        ensures first { D.tells → (disk : ℕ) → IsFirstFilled D.watch yard.old.items disk
            → (result ≡ Err (InitRefused.NotEmpty disk)) ⊎ ((other : ℕ) × (other ≤ disk) × (result ≡ Err (InitRefused.DiskFault other))) }

        // A fault is that of a disk whose count rose, and no count falls.
        ensures fault { (disk : ℕ) → result ≡ Err (InitRefused.DiskFault disk) → RoseAt D.faults yard.old.items yard.new.items disk }
        ensures later { AllZip (λ old new. D.faults old ≤ D.faults new) yard.old.items yard.new.items }
    {
        find_empty(yard.as_mut_slice())?;
        make_stores(alloc, yard)
    }
}

/// Asks the disks for their lengths, in their order, up to the first that is not empty or does not tell.
fn find_empty<D: Disk>(disks: &mut [D]) -> Result<(), InitRefused>
    ensures empty { D.tells → OnOk result (All (λ disk. length (D.watch.seen disk) ≡ 0) disks.old) }
    ensures not_empty { D.tells → (disk : ℕ) → result ≡ Err (InitRefused.NotEmpty disk) → IsFirstFilled D.watch disks.old disk }
    ensures fault { (disk : ℕ) → result ≡ Err (InitRefused.DiskFault disk) → RoseAt D.faults disks.old disks.new disk }
    ensures before { D.tells → (disk : ℕ) → result ≡ Err (InitRefused.DiskFault disk) → (k : ℕ) → IsFirstFilled D.watch disks.old k → disk ≤ k }
    ensures memory { result ≢ Err InitRefused.Memory }
    ensures rests { D.honest → AllZip (Rests D.watch) disks.old disks.new }
    ensures later { AllZip (λ old new. D.faults old ≤ D.faults new) disks.old disks.new }
{
    for (index, disk) in disks.iter_mut().enumerate() {
        match disk.len() {
            Ok(0) => {}
            Ok(_) => return Err(InitRefused::NotEmpty { disk: index as u64 }),
            Err(Failed) => return Err(InitRefused::DiskFault { disk: index as u64 }),
        }
    }
    Ok(())
}
