//! Makes a store on any disks, and opens one that is there.

ghost use Rattle.std.specs.Prelude.{◌≡◌, ◌≤◌, ℕ, true, false, IfOk, IfErr};
ghost use Rattle.std.specs.List.{AllByRecursion};
ghost use Rattle.tab_outside.specs.Pairs.{AddsNone};
ghost use Rattle.tab_codec.specs.Spelling.{body};
ghost use Rattle.tab_codec.specs.Frames.{IsOrderly, IsShort};
ghost use Rattle.tab_journal.specs.Areas.{AreFrames, IsClosed, first_gate};
ghost use Rattle.tab_journal.specs.Fitting.{takes_all, told_first, told_by, is_whole_store};
ghost use Rattle.tab_journal.specs.Reading.{read_areas};
ghost use Rattle.tab_journal.specs.Steps.{EachNow};
ghost use Rattle.tab_journal.specs.Stores.{area_a, area_b, gates_from, IsInArea, HasFrames};
ghost use Rattle.tab_journal.specs.Making.{Opens, IsRefusedFor, IsMade};
ghost use Rattle.tab_outside.specs.Faults.{HasCause, HasCauseFor};
ghost use Rattle.tab_journal.specs.declared.refusals.StoreRefused.TheVariants.{NotAStore};

use crate::areas::{close_area, open_area, write_closed, write_piece};
use crate::headers::{FIRST_GATE, header_bytes};
use crate::{Back, Store, StoreRefused};
use std::alloc::Global;
use tab_codec::{Frame, Prepared, prepare};
use tab_keys::Memory;
use tab_outside::{Disk, Failed};

/// The epoch of a store that is made.
const FIRST_EPOCH: u64 = 1;

impl<D: Disk> Store<D> {
    /// Makes a store with these frames on any two disks, whatever they hold. After a refusal the disks are back, written in
    /// part unless no memory was found.
    pub fn init(
        alloc: Global,
        a: D,
        b: D,
        kind: u8,
        number: u8,
        base: &[Frame],
    ) -> Result<Store<D>, Back<D>>
        requires orderly { AllByRecursion IsOrderly base.now }
        requires short { AllByRecursion (λ frame. IsShort (body frame)) base.now }
        requires fit { takes_all (told_first kind) base.now ≡ true }
        requires whole { is_whole_store (told_by kind base.now) ≡ true }
        ensures ok { D.honest → IfOk result (λ store. HasFrames D.watch store base.now) }
        ensures is { IfOk result (λ store. (store.kind ≡ kind) × (store.number ≡ number) × (store.epoch ≡ 1) × (store.second ≡ false) × (store.failed ≡ false)) }
        ensures memory { IfErr result (λ back. back.refused ≡ StoreRefused.Memory → (back.a ≡ a) × (back.b ≡ b)) }
        ensures causes_ok { IfOk result (λ store. (D.faults a ≤ D.faults (area_a store)) × (D.faults b ≤ D.faults (area_b store))) }
        ensures causes { IfErr result (λ back. IsRefusedFor D.faults a b back) }
        ensures never { IfErr result (λ back. (area at : ℕ) → back.refused ≡ NotAStore area at → ⊥) }
        ensures stops { IfOk result (λ store. (D.has_stops (area_a store) ≡ D.has_stops a) × (D.has_stops (area_b store) ≡ D.has_stops b)) }
        ensures stops_back { IfErr result (λ back. (D.has_stops back.a ≡ D.has_stops a) × (D.has_stops back.b ≡ D.has_stops b)) }
    {
        let Ok(pieces) = prepared(alloc, base) else {
            return Err(Back {
                a,
                b,
                refused: StoreRefused::Memory,
            });
        };
        let mut a = a;
        let mut b = b;
        match make(&mut a, &mut b, kind, number, &pieces) {
            Ok(end) => Ok(Store::made(alloc, a, b, kind, number, end)),
            Err(area) => Err(Back {
                a,
                b,
                refused: StoreRefused::DiskFault { area },
            }),
        }
    }

    /// Opens the store that two disks hold, and gives its frames. It begins with a sync of both. After a refusal the disks
    /// are back.
    pub fn open_store(
        alloc: Global,
        a: D,
        b: D,
        kind: u8,
        number: u8,
    ) -> Result<(Store<D>, Vec<Frame>), Back<D>>
        ensures ok { D.honest → IfOk result (λ opened. HasFrames D.watch opened.0 opened.1.items
            × AddsNone D.watch a (area_a opened.0) × AddsNone D.watch b (area_b opened.0)) }
        ensures are { IfOk result (λ opened. AreFrames kind opened.1.items) }
        ensures area { IfErr result (λ back. IsInArea back.refused) }
        ensures is { IfOk result (λ opened. (opened.0.kind ≡ kind) × (opened.0.number ≡ number) × (opened.0.failed ≡ false)) }
        ensures places { IfOk result (λ opened. opened.0.places ≡ gates_from first_gate opened.1.items) }
        ensures exact { D.honest → Opens result (read_areas kind number (D.watch.seen a) (D.watch.seen b)) }
        ensures images { D.honest → IfErr result (λ back. AddsNone D.watch a back.a × AddsNone D.watch b back.b) }
        ensures causes { IfErr result (λ back. IsRefusedFor D.faults a b back) }
        ensures causes_ok { IfOk result (λ opened. (D.faults a ≤ D.faults (area_a opened.0)) × (D.faults b ≤ D.faults (area_b opened.0))) }
        ensures stops { IfOk result (λ opened. (D.has_stops (area_a opened.0) ≡ D.has_stops a) × (D.has_stops (area_b opened.0) ≡ D.has_stops b)) }
        ensures stops_back { IfErr result (λ back. (D.has_stops back.a ≡ D.has_stops a) × (D.has_stops back.b ≡ D.has_stops b)) }
    {
        let mut store = Store::unread(alloc, a, b, kind, number);
        match store.reopen(alloc) {
            Ok(frames) => Ok((store, frames)),
            Err(refused) => {
                let (a, b) = store.into_disks();
                Err(Back { a, b, refused })
            }
        }
    }
}

/// The frames made ready, in order.
fn prepared(alloc: Global, frames: &[Frame]) -> Result<Vec<Prepared>, Memory>
    requires orderly { AllByRecursion IsOrderly frames.now }
    requires short { AllByRecursion (λ frame. IsShort (body frame)) frames.now }
    ensures { IfOk result (λ pieces. pieces.items ≡ frames.now) }
{
    let mut pieces = Vec::with_capacity(alloc, frames.len())?;
    for frame in frames {
        pieces.push(prepare(alloc, frame)?)?;
    }
    Ok(pieces)
}

/// Closes both areas, and makes area 0 so that it is open with these frames. It answers where they end, or the area whose
/// disk failed.
fn make<D: Disk>(a: &mut D, b: &mut D, kind: u8, number: u8, pieces: &[Prepared]) -> Result<u64, u8>
    ensures done { D.honest → IfOk result (λ end. IsMade D.watch kind number pieces.now end a.new × EachNow D.watch IsClosed b.new) }
    ensures cause_a { HasCauseFor (D.faults a.old) (D.faults a.new) result 0 }
    ensures cause_b { HasCauseFor (D.faults b.old) (D.faults b.new) result 1 }
    ensures area { IfErr result (λ area. area ≤ 1) }
    ensures stops_a { D.has_stops a.new ≡ D.has_stops a.old }
    ensures stops_b { D.has_stops b.new ≡ D.has_stops b.old }
{
    if close_area(a).is_err() {
        return Err(0);
    }
    if close_area(b).is_err() {
        return Err(1);
    }
    match build(a, kind, number, pieces) {
        Ok(end) => Ok(end),
        Err(Failed) => Err(0),
    }
}

/// Makes a closed area so that it is open with these frames, and answers where they end.
fn build<D: Disk>(disk: &mut D, kind: u8, number: u8, pieces: &[Prepared]) -> Result<u64, Failed>
    ensures done { D.honest → EachNow D.watch IsClosed disk.old → IfOk result (λ end. IsMade D.watch kind number pieces.now end disk.new) }
    ensures cause { HasCause (D.faults disk.old) (D.faults disk.new) result }
    ensures stops { D.has_stops disk.new ≡ D.has_stops disk.old }
{
    write_closed(disk, 1, &header_bytes(kind, number, FIRST_EPOCH))?;
    let mut at = FIRST_GATE as u64;
    for piece in pieces {
        at = write_piece(disk, at, piece)?;
    }
    open_area(disk, at)?;
    Ok(at)
}
