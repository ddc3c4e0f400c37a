//! The command `init`.
ghost use Rattle.std.specs.Prelude.{◌≡◌, ◌≢◌, ◌⊎◌, ℕ, ◌≤◌, ◌<◌, ◌^◌, [], vec_len};
ghost use Rattle.std.specs.List.{AllZip};
ghost use Rattle.tab_core.specs.Courses.{Course, first_course};
ghost use Rattle.tab_core.specs.Making.{IsYard, IsFirstFilled};
ghost use Rattle.tab_core.specs.Points.{Holds};
ghost use Rattle.tab_drive.specs.Inits.{Inits, disk_line};
ghost use Rattle.tab_drive.specs.Runs.{traffic, TookLine};

use crate::Ended;
use crate::runs::{OUT_OF_MEMORY, said_only, write_line};
use itoa::Buffer;
use std::alloc::Global;
use tab_core::{Core, InitRefused};
use tab_history::History;
use tab_outside::{Disk, Sink};

/// Makes a store over the disks, or says why not.
pub fn init<K: Sink, D: Disk>(alloc: Global, output: &mut K, yard: &mut Vec<D>) -> Ended
    ensures inits { (left : _) → Inits D.tells D.watch D.faults yard.old.items yard.new.items
        (traffic left left (K.taken output.old) (K.taken output.new))
        (K.faults output.old) (K.faults output.new) result.status result.history result.done }
    ensures not_empty { D.tells → (disk : ℕ) → IsFirstFilled D.watch yard.old.items disk → (result.status ≡ 8) ⊎ (result.status ≡ 5) }
    ensures holds { D.honest → IsYard (vec_len yard.old) → result.status ≡ 0 → Holds D.watch first_course yard.new.items }
    ensures kept { D.honest → (course : Course) → Holds D.watch course yard.old.items → Holds D.watch course yard.new.items }
    ensures history { result.history ≡ [] }
    ensures later { AllZip (λ old new. D.faults old ≤ D.faults new) yard.old.items yard.new.items }
{
    match Core::init(alloc, yard) {
        Ok(()) => said_nothing(alloc),
        Err(InitRefused::NotEmpty { disk }) => {
            said_of_disk(alloc, 8, disk, b" is not empty\n", output)
        }
        Err(InitRefused::DiskFault { disk }) => said_of_disk(alloc, 5, disk, b" fault\n", output),
        Err(InitRefused::Memory) => said_only(alloc, 7, OUT_OF_MEMORY, output),
    }
}

/// Ends well with no line.
fn said_nothing(alloc: Global) -> Ended
    ensures status { result.status ≡ 0 }
    ensures history { result.history ≡ [] }
    ensures done { result.done ≡ 0 }
{
    Ended {
        status: 0,
        history: History::new(alloc),
        done: 0,
    }
}

/// Writes a line about a disk, and ends with that status.
fn said_of_disk<K: Sink>(alloc: Global, status: u8, disk: u64, what: &[u8], output: &mut K) -> Ended
    ensures status { result.status ≡ status }
    ensures history { result.history ≡ [] }
    ensures done { result.done ≡ 0 }
    ensures line { TookLine (K.taken output.old) (K.taken output.new) (K.faults output.old) (K.faults output.new) (disk_line disk what.now) }
    ensures later { K.faults output.old ≤ K.faults output.new }
{
    let mut buffer = Buffer::new();
    let number = buffer.format(disk).as_bytes();
    write_line(output, &[b"disk ".as_slice(), number, what]);
    Ended {
        status,
        history: History::new(alloc),
        done: 0,
    }
}
