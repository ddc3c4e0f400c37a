//! A store over two areas: frames are appended to the current one, and a compaction writes the other one anew.

ghost use Rattle.std.specs.Prelude.{get_or, min, nat_lt, not, ◌==◌, ◌≡◌, ◌≢◌, ℕ, ◌+◌, ◌-◌, ◌^◌, ◌<◌, ◌≤◌, ◌⊎◌, ◌↔◌, ◌||◌, ◌&&◌, List, [], ◌∷◌, ◌++◌, length, true, false, cond, Some, None, IsTrue, IsFalse, IfOk, IfErr, OnOk, OnErr, Ok, Err, IfSome};
ghost use Rattle.std.specs.Option.{is_some};
ghost use Rattle.tab_outside.specs.Armed.{after_call, with_fail, with_stop};
ghost use Rattle.tab_outside.specs.Disks.{LeavesOnly, Rests};
ghost use Rattle.tab_outside.specs.Faults.{HasCause};
ghost use Rattle.tab_outside.specs.Pairs.{Extends, AddsNone};
ghost use Rattle.tab_codec.specs.declared.frames.Frame.{Frame};
ghost use Rattle.tab_codec.specs.Frames.{AreBytes};
ghost use Rattle.tab_journal.specs.Areas.{Spells, AreFrames, IsClosed, IsUnder, opened, first_gate};
ghost use Rattle.tab_journal.specs.Fitting.{Fits};
ghost use Rattle.tab_journal.specs.Reading.{front_of, is_open, read_areas};
ghost use Rattle.tab_journal.specs.Stores.{StoreView, area_a, area_b, current_area, area_of, is_fault, IsFaultOrMemory, IsSameStore, IsUnmoved, StoreCauses, fails_by, IsFaultAlone, IsFaultOrSpent, IsInArea, ReadsAreas, Answers, adopted, IsSpare, HasFrames, HasPieces, KeepsStops, KeptSince, SpellsEither, gates_from};
ghost use Rattle.tab_journal.specs.Steps.{EachNow, Adds};
ghost use Rattle.tab_journal.specs.declared.refusals.StoreRefused.TheVariants.{DiskFault, EpochSpent};

use crate::StoreRefused;
use crate::areas::{append_to, close_area, open_area, write_closed, write_piece};
use crate::disks::read_both;
use crate::headers::{FIRST_GATE, header_bytes};
use crate::reading::{Reading, read_areas};
use std::alloc::Global;
use std::marker::Model;
use std::mem;
use tab_codec::{Frame, Prepared};
use tab_outside::{Disk, Failed};

/// A store of frames over two disks. Contracts see its disks and whether it has failed; `HasFrames` says which frames
/// it has.
#[derive(Drop)]
pub struct Store<D> {
    kind: u8,
    number: u8,
    // The disk of the area that counts.
    current: D,
    other: D,
    // Whether the area that counts is area 1.
    second: bool,
    epoch: u64,
    // Where the frames end: the gate there stands closed.
    end: u64,
    // Whether the gate of the other area may be open.
    other_open: bool,
    // Where the pieces of a compaction end, while there is one.
    building: Option<u64>,
    // The gates of the first frames.
    places: Vec<u64>,
    failed: bool,
}

impl<D> Model for Store<D> {
    ghost use Rattle.std.specs.Prelude.{vec_items};
    ghost use Rattle.tab_journal.specs.Stores.{StoreView};

    ghost Value = { StoreView D };

    ghost view = { λ store. record {
      kind = store.kind;
      number = store.number;
      current = store.current;
      other = store.other;
      second = store.second;
      epoch = store.epoch;
      end = store.end;
      other_open = store.other_open;
      building = store.building;
      places = store.places.items;
      failed = store.failed;
    } };
}

impl<D: Disk> Store<D> {
    /// A store with area 0 as its current area, which was made with its first epoch.
    pub(crate) fn made(alloc: Global, a: D, b: D, kind: u8, number: u8, end: u64) -> Store<D>
        ensures { result ≡ record { kind = kind; number = number; current = a; other = b; second = false; epoch = 1; end = end; other_open = false; building = None; places = []; failed = false } }
    {
        Store {
            kind,
            number,
            current: a,
            other: b,
            second: false,
            epoch: 1,
            end,
            other_open: false,
            building: None,
            places: Vec::new(alloc),
            failed: false,
        }
    }

    /// A store whose areas are not read yet: it counts as failed.
    pub(crate) fn unread(alloc: Global, a: D, b: D, kind: u8, number: u8) -> Store<D>
        ensures { result ≡ record { kind = kind; number = number; current = a; other = b; second = false; epoch = 0; end = 0; other_open = false; building = None; places = []; failed = true } }
    {
        Store {
            kind,
            number,
            current: a,
            other: b,
            second: false,
            epoch: 0,
            end: 0,
            other_open: false,
            building: None,
            places: Vec::new(alloc),
            failed: true,
        }
    }

    /// Appends a frame: it makes four device calls and takes no memory. Each image of a crash during the call spells the
    /// frames before, or these and the new one.
    pub fn append(&mut self, prepared: &Prepared) -> Result<(), StoreRefused>
        requires running { IsFalse self.old.failed }
        ensures ok { D.honest → (frames : List Frame) → HasFrames D.watch self.old frames → Fits self.old.kind frames prepared.now
            → OnOk result (HasFrames D.watch self.new (frames ++ prepared.now ∷ [])) }
        ensures images { D.honest → (frames : List Frame) → HasFrames D.watch self.old frames → Fits self.old.kind frames prepared.now
            → Extends D.watch (Spells self.old.kind self.old.number) (λ others. others ≡ frames ++ prepared.now ∷ [])
            (area_a self.old) (area_b self.old) (area_a self.new) (area_b self.new) }
        ensures calls { OnOk result (D.armed self.new.current ≡ after_call (after_call (after_call (after_call (D.armed self.old.current))))) }
        ensures other { self.new.other ≡ self.old.other }
        ensures same { IsSameStore self.old self.new }
        ensures place { self.new.second ≡ self.old.second }
        ensures epoch { self.new.epoch ≡ self.old.epoch }
        ensures places { self.new.places ≡ self.old.places }
        ensures fault { IsFaultAlone result }
        ensures failed { self.new.failed ≡ fails_by false result }
        ensures stops { KeepsStops D.has_stops self.old self.new }
        ensures causes { StoreCauses D.faults self.old self.new result }
    {
        let piece = prepared.bytes();
        match append_to(&mut self.current, self.end, piece) {
            Ok(()) => {
                self.end = self.end.saturating_add(piece.len() as u64);
                Ok(())
            }
            Err(Failed) => Err(self.fault(self.second)),
        }
    }

    /// Begins a compaction: the other area is closed and gets a header of the next epoch.
    pub fn compact_begin(&mut self) -> Result<(), StoreRefused>
        requires running { IsFalse self.old.failed }
        ensures ok { D.honest → (frames : List Frame) → HasFrames D.watch self.old frames
            → OnOk result (HasFrames D.watch self.new frames × HasPieces D.watch self.new []) }
        ensures images { D.honest → (frames : List Frame) → HasFrames D.watch self.old frames
            → KeptSince D.watch self.new frames (D.watch.moment (area_a self.old)) (D.watch.moment (area_b self.old)) }
        ensures begun { OnOk result (self.new.building ≢ None) }
        ensures below { OnOk result (self.old.epoch + 1 < 2 ^ 64) }
        ensures alone { IsFaultOrSpent result }
        ensures spent { (result ≡ Err EpochSpent) ↔ (self.old.epoch ≡ 2 ^ 64 - 1) }
        ensures untouched { result ≡ Err EpochSpent → self.new ≡ self.old }
        ensures current { self.new.current ≡ self.old.current }
        ensures unmoved { IsUnmoved self.old (record self.new { other_open = self.old.other_open }) }
        ensures failed { self.new.failed ≡ fails_by false result }
        ensures stops { KeepsStops D.has_stops self.old self.new }
        ensures causes { StoreCauses D.faults self.old self.new result }
    {
        let Some(epoch) = self.epoch.checked_add(1) else {
            return Err(StoreRefused::EpochSpent);
        };
        if let Err(Failed) = self.close_other() {
            return Err(self.fault(!self.second));
        }
        let header = header_bytes(self.kind, self.number, epoch);
        if let Err(Failed) = write_closed(&mut self.other, 1, &header) {
            return Err(self.fault(!self.second));
        }
        self.building = Some(FIRST_GATE as u64);
        Ok(())
    }

    /// Closes the other area, unless it is closed.
    fn close_other(&mut self) -> Result<(), Failed>
        ensures done { D.honest → IsSpare D.watch self.old.kind self.old.number self.old.epoch self.old.other_open self.old.other
            → OnOk result (EachNow D.watch IsClosed self.new.other) }
        ensures images { D.honest → IsSpare D.watch self.old.kind self.old.number self.old.epoch self.old.other_open self.old.other
            → Adds D.watch (IsUnder self.old.kind self.old.number self.old.epoch) self.old.other self.new.other }
        ensures view { self.new ≡ record self.old { other = self.new.other; other_open = self.new.other_open } }
        ensures shut { OnOk result (self.new.other_open ≡ false) }
        ensures stops { D.has_stops self.new.other ≡ D.has_stops self.old.other }
        ensures cause { HasCause (D.faults self.old.other) (D.faults self.new.other) result }
    {
        if !self.other_open {
            return Ok(());
        }
        close_area(&mut self.other)?;
        self.other_open = false;
        Ok(())
    }

    /// Writes a piece of a compaction: a frame behind those that were written, with its gate open.
    pub fn compact_piece(&mut self, prepared: &Prepared) -> Result<(), StoreRefused>
        requires running { IsFalse self.old.failed }
        requires begun { self.old.building ≢ None }
        ensures ok { D.honest → (frames pieces : List Frame) → HasFrames D.watch self.old frames → HasPieces D.watch self.old pieces
            → OnOk result (HasFrames D.watch self.new frames × HasPieces D.watch self.new (pieces ++ prepared.now ∷ [])) }
        ensures images { D.honest → (frames pieces : List Frame) (ta tb : ℕ) → HasFrames D.watch self.old frames → HasPieces D.watch self.old pieces
            → KeptSince D.watch self.old frames ta tb → KeptSince D.watch self.new frames ta tb }
        ensures begun { OnOk result (self.new.building ≢ None) }
        ensures current { self.new.current ≡ self.old.current }
        ensures unmoved { IsUnmoved self.old self.new }
        ensures fault { IsFaultAlone result }
        ensures failed { self.new.failed ≡ fails_by false result }
        ensures stops { KeepsStops D.has_stops self.old self.new }
        ensures causes { StoreCauses D.faults self.old self.new result }
    {
        let at = self.building.unwrap_or(0);
        match write_piece(&mut self.other, at, prepared) {
            Ok(end) => {
                self.building = Some(end);
                Ok(())
            }
            Err(Failed) => Err(self.fault(!self.second)),
        }
    }

    /// Ends a compaction: the other area becomes the current one, with the pieces as its frames.
    pub fn compact_end(&mut self) -> Result<(), StoreRefused>
        requires running { IsFalse self.old.failed }
        requires begun { self.old.building ≢ None }
        ensures ok { D.honest → (frames pieces : List Frame) → HasFrames D.watch self.old frames → HasPieces D.watch self.old pieces → AreFrames self.old.kind pieces
            → OnOk result (HasFrames D.watch self.new pieces) }
        ensures images { D.honest → (frames pieces : List Frame) (ta tb : ℕ) → HasFrames D.watch self.old frames → HasPieces D.watch self.old pieces → AreFrames self.old.kind pieces
            → KeptSince D.watch self.old frames ta tb
            → SpellsEither D.watch self.old.kind self.old.number frames pieces ta tb (area_a self.new) (area_b self.new) }
        ensures same { IsSameStore self.old self.new }
        ensures epoch { OnOk result (self.new.epoch ≡ min (self.old.epoch + 1) (2 ^ 64 - 1)) }
        ensures second { OnOk result (self.new.second ≡ not self.old.second) }
        ensures unmoved { OnErr result (IsUnmoved self.old self.new) }
        ensures fault { IsFaultAlone result }
        ensures failed { self.new.failed ≡ fails_by false result }
        ensures stops { KeepsStops D.has_stops self.old self.new }
        ensures causes { StoreCauses D.faults self.old self.new result }
    {
        let end = self.building.unwrap_or(0);
        if let Err(Failed) = open_area(&mut self.other, end) {
            return Err(self.fault(!self.second));
        }
        mem::swap(&mut self.current, &mut self.other);
        self.second = !self.second;
        self.epoch = self.epoch.saturating_add(1);
        self.end = end;
        self.other_open = true;
        self.building = None;
        self.places.clear();
        Ok(())
    }

    /// Syncs both areas and reads them anew. It adds no image of a crash, and after Ok a crash leaves just the frames that
    /// it gives.
    pub fn reopen(&mut self, alloc: Global) -> Result<Vec<Frame>, StoreRefused>
        ensures ok { D.honest → IfOk result (λ frames. HasFrames D.watch self.new frames.items) }
        ensures are { IfOk result (λ frames. AreFrames self.old.kind frames.items) }
        ensures area { IfErr result IsInArea }
        ensures exact { D.honest → Answers self.new result
            (read_areas self.old.kind self.old.number (D.watch.seen (area_a self.old)) (D.watch.seen (area_b self.old))) }
        ensures images_a { D.honest → AddsNone D.watch (area_a self.old) (area_a self.new) }
        ensures images_b { D.honest → AddsNone D.watch (area_b self.old) (area_b self.new) }
        ensures same { IsSameStore self.old self.new }
        ensures kept { D.honest → (frames : List Frame) → HasFrames D.watch self.old frames → OnErr result (fails_by false result ≡ false → HasFrames D.watch self.new frames) }
        ensures unspent { result ≡ Err EpochSpent → ⊥ }
        ensures places { IfOk result (λ frames. self.new.places ≡ gates_from first_gate frames.items) }
        ensures unmoved { OnErr result (IsUnmoved self.old self.new) }
        ensures running { OnOk result (IsFalse self.new.failed) }
        ensures failed { OnErr result (self.new.failed ≡ fails_by self.old.failed result) }
        ensures stops { KeepsStops D.has_stops self.old self.new }
        ensures causes { StoreCauses D.faults self.old self.new result }
    {
        let (a, b) = match self.read_disks(alloc) {
            Ok(bytes) => bytes,
            Err(refused) => return Err(self.refused(refused)),
        };
        match self.spelled(alloc, &a, &b) {
            Ok(reading) => Ok(self.adopt(reading)),
            Err(refused) => Err(refused),
        }
    }

    /// What the bytes of both areas spell in a store of this kind and number.
    fn spelled(&self, alloc: Global, a: &[u8], b: &[u8]) -> Result<Reading, StoreRefused>
        ensures read { ReadsAreas result (read_areas self.now.kind self.now.number a.now b.now) }
        ensures area { IfOk result (λ reading. reading.area ≤ 1) }
        ensures other { IfOk result (λ reading. reading.other_open ≡ is_open (front_of self.now.kind self.now.number (cond (reading.area == 1) a.now b.now))) }
        ensures fit_a { AreBytes a.now }
        ensures fit_b { AreBytes b.now }
        ensures short_a { length a.now < 2 ^ 64 }
        ensures short_b { length b.now < 2 ^ 64 }
    {
        read_areas(alloc, self.kind, self.number, a, b)
    }

    /// Syncs both disks, and reads all bytes of area 0 and of area 1.
    fn read_disks(&mut self, alloc: Global) -> Result<(Vec<u8>, Vec<u8>), StoreRefused>
        ensures bytes_a { D.honest → IfOk result (λ read. read.0.items ≡ D.watch.seen (area_a self.new)) }
        ensures bytes_b { D.honest → IfOk result (λ read. read.1.items ≡ D.watch.seen (area_b self.new)) }
        ensures only_a { D.honest → OnOk result (LeavesOnly D.watch (area_a self.new) (D.watch.seen (area_a self.new))) }
        ensures only_b { D.honest → OnOk result (LeavesOnly D.watch (area_b self.new) (D.watch.seen (area_b self.new))) }
        ensures seen_a { D.honest → D.watch.seen (area_a self.new) ≡ D.watch.seen (area_a self.old) }
        ensures seen_b { D.honest → D.watch.seen (area_b self.new) ≡ D.watch.seen (area_b self.old) }
        ensures each_a { D.honest → (c : List ℕ) → D.watch.may_leave (area_a self.new) c → D.watch.may_leave (area_a self.old) c }
        ensures each_b { D.honest → (c : List ℕ) → D.watch.may_leave (area_b self.new) c → D.watch.may_leave (area_b self.old) c }
        ensures images_a { D.honest → AddsNone D.watch (area_a self.old) (area_a self.new) }
        ensures images_b { D.honest → AddsNone D.watch (area_b self.old) (area_b self.new) }
        ensures view { self.new ≡ record self.old { current = self.new.current; other = self.new.other } }
        ensures alone { IsFaultOrMemory result }
        ensures stops { KeepsStops D.has_stops self.old self.new }
        ensures causes { StoreCauses D.faults self.old self.new result }
    {
        if self.second {
            read_both(alloc, &mut self.other, &mut self.current)
        } else {
            read_both(alloc, &mut self.current, &mut self.other)
        }
    }

    /// Takes up what was read of the areas.
    fn adopt(&mut self, reading: Reading) -> Vec<Frame>
        ensures frames { result ≡ reading.found.frames }
        ensures view { self.new ≡ adopted self.old reading }
    {
        if (reading.area == 1) != self.second {
            mem::swap(&mut self.current, &mut self.other);
            self.second = !self.second;
        }
        self.epoch = reading.epoch;
        self.other_open = reading.other_open;
        self.building = None;
        self.failed = false;
        let found = reading.found;
        self.end = found.end as u64;
        self.places = found.places;
        found.frames
    }

    /// Marks the store as failed by the disk of an area.
    fn fault(&mut self, second: bool) -> StoreRefused
        ensures area { result ≡ DiskFault (cond second 1 0) }
        ensures failed { self.new ≡ record self.old { failed = true } }
    {
        self.refused(StoreRefused::DiskFault {
            area: if second { 1 } else { 0 },
        })
    }

    /// Marks the store as failed where the refusal is a disk fault.
    fn refused(&mut self, refused: StoreRefused) -> StoreRefused
        ensures same { result ≡ refused }
        ensures failed { self.new ≡ record self.old { failed = is_fault refused || self.old.failed } }
    {
        if let StoreRefused::DiskFault { .. } = refused {
            self.failed = true;
        }
        refused
    }

    /// Whether a call on a disk has failed since the store was opened.
    pub fn failed(&self) -> bool
        ensures { result ≡ self.now.failed }
    {
        self.failed
    }

    /// The disks of area 0 and of area 1.
    pub fn into_disks(self) -> (D, D)
        ensures a { result.0 ≡ area_a self }
        ensures b { result.1 ≡ area_b self }
    {
        if self.second {
            (self.other, self.current)
        } else {
            (self.current, self.other)
        }
    }

    /// The current area, and the offset in it where the frames end: that of the gate behind them, which stands closed.
    pub fn end(&self) -> (u8, u64)
        ensures area { result.0 ≡ current_area self.now }
        ensures end { D.honest → (frames : List Frame) → HasFrames D.watch self.now frames → result.1 ≡ first_gate + length (opened frames) }
    {
        (self.current_area(), self.end)
    }

    /// The current area, and the offset of a frame's gate in it. It is known of the frames that were read as the store was
    /// opened, until they are rewritten; a frame that was appended since has it behind these.
    pub fn place(&self, frame: usize) -> Option<(u8, u64)>
        ensures known { is_some result ≡ nat_lt frame (length self.now.places) }
        ensures area { IfSome result (λ place. place.0 ≡ current_area self.now) }
        ensures gate { D.honest → (frames : List Frame) → HasFrames D.watch self.now frames
            → IfSome result (λ place. place.1 ≡ get_or (gates_from first_gate frames) frame 0) }
    {
        let gate = *self.places.get(frame)?;
        Some((self.current_area(), gate))
    }

    fn current_area(&self) -> u8
        ensures { result ≡ current_area self.now }
    {
        if self.second { 1 } else { 0 }
    }

    /// Makes the call number `after` from now on the disk of an area fail once; false where the disk has no such thing.
    pub fn arm_fail(&mut self, area: u8, after: u64) -> bool
        requires { area ≤ 1 }
        ensures has { result ≡ D.has_stops (area_of self.old area) }
        ensures armed { IsTrue result → D.armed (area_of self.new area) ≡ with_fail (D.armed (area_of self.old area)) after }
        ensures beside { area_of self.new (1 - area) ≡ area_of self.old (1 - area) }
        ensures unchanged { IsFalse result → self.new ≡ self.old }
        ensures rests { D.honest → Rests D.watch (area_of self.old area) (area_of self.new area) }
        ensures faults { D.faults (area_of self.new area) ≡ D.faults (area_of self.old area) }
        ensures kept { D.honest → (frames : List Frame) → HasFrames D.watch self.old frames → HasFrames D.watch self.new frames }
        ensures unmoved { IsUnmoved self.old self.new }
        ensures failed { self.new.failed ≡ self.old.failed }
        ensures stops { KeepsStops D.has_stops self.old self.new }
    {
        if (area == 1) == self.second {
            self.current.arm_fail(after)
        } else {
            self.other.arm_fail(after)
        }
    }

    /// Makes the call number `after` from now on the disk of an area, and all that follow it, fail; false where the disk
    /// has no such thing.
    pub fn arm_stop(&mut self, area: u8, after: u64) -> bool
        requires { area ≤ 1 }
        ensures has { result ≡ D.has_stops (area_of self.old area) }
        ensures armed { IsTrue result → D.armed (area_of self.new area) ≡ with_stop (D.armed (area_of self.old area)) after }
        ensures beside { area_of self.new (1 - area) ≡ area_of self.old (1 - area) }
        ensures unchanged { IsFalse result → self.new ≡ self.old }
        ensures rests { D.honest → Rests D.watch (area_of self.old area) (area_of self.new area) }
        ensures faults { D.faults (area_of self.new area) ≡ D.faults (area_of self.old area) }
        ensures kept { D.honest → (frames : List Frame) → HasFrames D.watch self.old frames → HasFrames D.watch self.new frames }
        ensures unmoved { IsUnmoved self.old self.new }
        ensures failed { self.new.failed ≡ self.old.failed }
        ensures stops { KeepsStops D.has_stops self.old self.new }
    {
        if (area == 1) == self.second {
            self.current.arm_stop(after)
        } else {
            self.other.arm_stop(after)
        }
    }

    /// Whether a call on one of the disks has met an armed stop.
    pub fn stopped(&self) -> bool
        ensures { result ≡ ((D.armed (area_a self.now)).stopped || (D.armed (area_b self.now)).stopped) }
    {
        self.current.stopped() || self.other.stopped()
    }

    /// Whether both disks have failures and stops, and can be restarted.
    pub fn has_stops(&self) -> bool
        ensures { result ≡ (D.has_stops (area_a self.now) && D.has_stops (area_b self.now)) }
    {
        self.current.has_stops() && self.other.has_stops()
    }
}
