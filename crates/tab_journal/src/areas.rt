//! The device calls on one area: a frame is appended, an area is closed, written and opened. Each gate is written alone,
//! after a sync, so that whatever a crash makes of it, it is open or it is not.

ghost use Rattle.std.specs.Prelude.{◌≡◌, ℕ, ◌+◌, ◌^◌, ◌≤◌, ◌⊎◌, List, [], ◌∷◌, ◌++◌, length, take, drop, IfOk, OnOk};
ghost use Rattle.tab_outside.specs.Armed.{after_call};
ghost use Rattle.tab_outside.specs.Disks.{LeavesOnly};
ghost use Rattle.tab_outside.specs.Faults.{HasCause};
ghost use Rattle.tab_codec.specs.Spelling.{spelling};
ghost use Rattle.tab_codec.specs.Frames.{HasSpelling};
ghost use Rattle.tab_journal.specs.Areas.{IsClosed};
ghost use Rattle.tab_journal.specs.Steps.{EachNow, Adds, IsClosedOr, IsShutOn, MayAppend, IsEitherShut, IsBuilt};

use tab_codec::Prepared;
use tab_outside::{Disk, Failed};

/// An open gate.
pub const OPEN: u8 = 1;

/// A closed gate, as it is written; any byte that is not 01 is one.
pub const CLOSED: u8 = 0;

/// Appends a frame behind the closed gate at `end`: its spelling with the next gate, which is closed, and after a sync
/// the gate before it, which is opened.
pub fn append_to<D: Disk>(disk: &mut D, end: u64, piece: &[u8]) -> Result<(), Failed>
    ensures done { D.honest → (before spelled : List ℕ) → MayAppend D.watch disk.old end piece.now before spelled
        → OnOk result (IsShutOn D.watch (before ++ 1 ∷ spelled) disk.new) }
    ensures images { D.honest → (before spelled : List ℕ) → MayAppend D.watch disk.old end piece.now before spelled
        → Adds D.watch (IsEitherShut before spelled) disk.old disk.new }
    ensures far { D.honest → OnOk result (end + 1 + length piece.now ≤ 2 ^ 62) }
    ensures calls { OnOk result (D.armed disk.new ≡ after_call (after_call (after_call (after_call (D.armed disk.old))))) }
    ensures stops { D.has_stops disk.new ≡ D.has_stops disk.old }
    ensures cause { HasCause (D.faults disk.old) (D.faults disk.new) result }
{
    disk.write_at(end.saturating_add(1), piece)?;
    disk.sync()?;
    disk.write_at(end, &[OPEN])?;
    disk.sync()
}

/// Closes the gate of an area.
pub fn close_area<D: Disk>(disk: &mut D) -> Result<(), Failed>
    ensures done { D.honest → OnOk result (EachNow D.watch IsClosed disk.new) }
    ensures images { D.honest → (rest : List ℕ) → D.watch.seen disk.old ≡ 1 ∷ rest → LeavesOnly D.watch disk.old (1 ∷ rest)
        → Adds D.watch (IsClosedOr (1 ∷ rest)) disk.old disk.new }
    ensures stops { D.has_stops disk.new ≡ D.has_stops disk.old }
    ensures cause { HasCause (D.faults disk.old) (D.faults disk.new) result }
{
    disk.write_at(0, &[CLOSED])?;
    disk.sync()
}

/// Writes behind the gate of a closed area.
pub fn write_closed<D: Disk>(disk: &mut D, at: u64, piece: &[u8]) -> Result<(), Failed>
    ensures closed { D.honest → 1 ≤ at → EachNow D.watch IsClosed disk.old → EachNow D.watch IsClosed disk.new }
    ensures images { D.honest → 1 ≤ at → EachNow D.watch IsClosed disk.old → Adds D.watch IsClosed disk.old disk.new }
    ensures built { D.honest → (built : List ℕ) → IsBuilt D.watch built disk.old → at ≡ 1 + length built
        → OnOk result (IsBuilt D.watch (built ++ piece.now) disk.new) }
    ensures far { D.honest → OnOk result (at + length piece.now ≤ 2 ^ 62) }
    ensures stops { D.has_stops disk.new ≡ D.has_stops disk.old }
    ensures cause { HasCause (D.faults disk.old) (D.faults disk.new) result }
{
    disk.write_at(at, piece)
}

/// Opens a closed area that is built up to `end`: a closed gate there, and after a sync the area's gate.
pub fn open_area<D: Disk>(disk: &mut D, end: u64) -> Result<(), Failed>
    ensures done { D.honest → (built : List ℕ) → IsBuilt D.watch built disk.old → end ≡ 1 + length built
        → OnOk result (IsShutOn D.watch (1 ∷ built) disk.new) }
    ensures images { D.honest → (built : List ℕ) → IsBuilt D.watch built disk.old → end ≡ 1 + length built
        → Adds D.watch (IsEitherShut [] built) disk.old disk.new }
    ensures far { D.honest → OnOk result (end + 1 ≤ 2 ^ 62) }
    ensures stops { D.has_stops disk.new ≡ D.has_stops disk.old }
    ensures cause { HasCause (D.faults disk.old) (D.faults disk.new) result }
{
    disk.write_at(end, &[CLOSED])?;
    disk.sync()?;
    disk.write_at(0, &[OPEN])?;
    disk.sync()
}

/// Writes a frame with its gate open behind those of a closed area, and answers where it ends.
pub fn write_piece<D: Disk>(disk: &mut D, at: u64, piece: &Prepared) -> Result<u64, Failed>
    ensures closed { D.honest → 1 ≤ at → EachNow D.watch IsClosed disk.old → EachNow D.watch IsClosed disk.new }
    ensures images { D.honest → 1 ≤ at → EachNow D.watch IsClosed disk.old → Adds D.watch IsClosed disk.old disk.new }
    ensures built { D.honest → (built : List ℕ) → IsBuilt D.watch built disk.old → at ≡ 1 + length built
        → OnOk result (IsBuilt D.watch (built ++ 1 ∷ spelling piece.now) disk.new) }
    ensures spelled { HasSpelling piece.now }
    ensures end { D.honest → IfOk result (λ end. end ≡ at + 1 + length (spelling piece.now)) }
    ensures far { D.honest → IfOk result (λ end. end ≤ 2 ^ 62) }
    ensures stops { D.has_stops disk.new ≡ D.has_stops disk.old }
    ensures cause { HasCause (D.faults disk.old) (D.faults disk.new) result }
{
    let bytes = piece.bytes();
    let (spelling, _gate) = bytes.split_at(bytes.len() - 1);
    write_closed(disk, at, &[OPEN])?;
    write_closed(disk, at.saturating_add(1), spelling)?;
    Ok(at.saturating_add(bytes.len() as u64))
}
