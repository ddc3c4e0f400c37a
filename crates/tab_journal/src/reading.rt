//! Reads two areas: the frames that they spell, or the first place that has no spelling.

ghost use Rattle.std.specs.Prelude.{◌≡◌, ◌==◌, ◌≤◌, ◌<◌, ◌+◌, ◌^◌, cond, IfOk, Err, length, take, drop};
ghost use Rattle.std.specs.Int.{w64, from_be_bytes};
ghost use Rattle.tab_journal.specs.Reading.{agreeing, header_of, front_of, is_open, frames_of, found_in, not_before, read_areas};
ghost use Rattle.tab_journal.specs.Stores.{ReadsFrames, ReadsAreas};
ghost use Rattle.tab_journal.specs.NextFrames.{ReadsNext};
ghost use Rattle.tab_journal.specs.declared.refusals.StoreRefused.TheVariants.{NotAStore};

use crate::StoreRefused;
use crate::areas::OPEN;
use crate::fitting::{SERVER_KIND, Told};
use crate::headers::{FIRST_GATE, HEADER, STAMP, stamp_bytes};
use std::alloc::Global;
use tab_codec::{CodecRefused, Frame, read_frame};

/// What stands at the front of an area.
#[derive(Clone, Copy, Debug, PartialEq, Eq)]
pub enum Front {
    /// Nothing: the area has no bytes.
    Empty,
    /// A gate that is not open.
    Closed,
    /// An open gate, and from this offset on no header of the store.
    NoHeader(usize),
    /// A header with this epoch.
    Open(u64),
}

/// Why no frames are read.
#[derive(Debug, Drop)]
pub enum Unread {
    /// The bytes at this offset have no spelling.
    At(usize),
    /// No memory was found.
    Memory,
}

/// The frames of an area: where the gate of each stands, and where they end.
#[derive(Drop)]
pub struct AreaFrames {
    pub frames: Vec<Frame>,
    pub places: Vec<u64>,
    pub end: usize,
}

/// The frames that two areas spell, and what the store has to know of the areas.
#[derive(Drop)]
pub struct Reading {
    /// The number of the area that counts.
    pub area: u8,
    /// Its epoch.
    pub epoch: u64,
    /// Whether the other area is open too.
    pub other_open: bool,
    /// Its frames.
    pub found: AreaFrames,
}

/// What stands at the front of an area.
#[tactic(auto, unfolding(crate::specs::Reading::front_of))]
fn front_of(kind: u8, number: u8, area: &[u8]) -> Front
    ensures { result ≡ front_of kind number area.now }
{
    let Some((gate, bytes)) = area.split_first() else {
        return Front::Empty;
    };
    if *gate == OPEN {
        header_of(kind, number, bytes)
    } else {
        Front::Closed
    }
}

/// The header behind an open gate.
#[tactic(auto, unfolding(crate::specs::Reading::header_of))]
fn header_of(kind: u8, number: u8, bytes: &[u8]) -> Front
    ensures { result ≡ header_of kind number bytes.now }
{
    let agreeing = agreeing(&stamp_bytes(kind, number), bytes);
    if kind > SERVER_KIND {
        Front::NoHeader(1 + agreeing.min(KIND_PLACE - 1))
    } else if agreeing < STAMP {
        Front::NoHeader(1 + agreeing)
    } else if bytes.len() < HEADER {
        Front::NoHeader(1 + bytes.len())
    } else {
        Front::Open(epoch_of(bytes))
    }
}

/// The epoch of a header.
fn epoch_of(bytes: &[u8]) -> u64
    requires { 19 ≤ length bytes.now }
    ensures { result ≡ from_be_bytes w64 (take 8 (drop 11 bytes.now)) }
{
    let (_, rest) = bytes.split_at(STAMP);
    u64::from_be_bytes([
        rest[0], rest[1], rest[2], rest[3], rest[4], rest[5], rest[6], rest[7],
    ])
}

/// How many of the first bytes agree.
fn agreeing(bytes: &[u8], others: &[u8]) -> usize
    ensures { result ≡ agreeing bytes.now others.now }
{
    let mut count = 0;
    while count < bytes.len() && count < others.len() && bytes[count] == others[count] {
        count += 1;
    }
    count
}

/// The frames of an area from the first gate on.
fn frames_of(alloc: Global, kind: u8, area: &[u8]) -> Result<AreaFrames, Unread>
    ensures { ReadsFrames result (frames_of kind area.now) }
{
    let mut told = Told::first(alloc, kind);
    let mut frames = Vec::new(alloc);
    let mut places = Vec::new(alloc);
    let mut at = FIRST_GATE;
    while at < area.len() {
        if area[at] != OPEN {
            return if told.is_whole() {
                Ok(AreaFrames {
                    frames,
                    places,
                    end: at,
                })
            } else {
                Err(Unread::At(at))
            };
        }
        let (frame, size) = match next_frame(alloc, &mut told, at, &area[at + 1..]) {
            Ok(read) => read,
            Err(unread) => return Err(unread),
        };
        let (Ok(()), Ok(())) = (frames.push(frame), places.push(at as u64)) else {
            return Err(Unread::Memory);
        };
        at += 1 + size;
    }
    Err(Unread::At(at))
}

/// The frame behind an open gate at an offset, which fits those before it, and how long its spelling is.
fn next_frame(
    alloc: Global,
    told: &mut Told,
    at: usize,
    bytes: &[u8],
) -> Result<(Frame, usize), Unread>
    requires { at + 1 + length bytes.now < 2 ^ 64 }
    ensures { ReadsNext told.old told.new at bytes.now result }
{
    let (frame, size) = match read_frame(alloc, bytes) {
        Ok(read) => read,
        Err(CodecRefused::NoSpelling { at: place }) => return Err(Unread::At(at + 1 + place)),
        Err(CodecRefused::Memory) => return Err(Unread::Memory),
    };
    match told.take(alloc, &frame) {
        Ok(true) => Ok((frame, size)),
        Ok(false) => Err(Unread::At(at)),
        Err(_) => Err(Unread::Memory),
    }
}

/// What two areas of a store of this kind and number spell.
#[tactic(auto, unfolding(crate::specs::Reading::found))]
pub fn read_areas(
    alloc: Global,
    kind: u8,
    number: u8,
    a: &[u8],
    b: &[u8],
) -> Result<Reading, StoreRefused>
    ensures read { ReadsAreas result (read_areas kind number a.now b.now) }
    ensures area { IfOk result (λ reading. reading.area ≤ 1) }
    ensures other { IfOk result (λ reading. reading.other_open ≡ is_open (front_of kind number (cond (reading.area == 1) a.now b.now))) }
{
    let fronts = (front_of(kind, number, a), front_of(kind, number, b));
    match fronts {
        (Front::Empty, _) | (Front::Closed, Front::Empty | Front::Closed) => {
            Err(not_a_store(0, 0))
        }
        (Front::NoHeader(at), _) => Err(not_a_store(0, at)),
        (Front::Closed, Front::NoHeader(at)) => Err(not_a_store(1, at)),
        (Front::Closed, Front::Open(epoch)) => current(alloc, 1, kind, epoch, b, false),
        (Front::Open(epoch), Front::Closed) => current(alloc, 0, kind, epoch, a, false),
        (Front::Open(_), Front::Empty) => Err(unless_before(alloc, kind, a, 0)),
        (Front::Open(_), Front::NoHeader(at)) => Err(unless_before(alloc, kind, a, at)),
        (Front::Open(epoch), Front::Open(other)) => {
            if epoch == other {
                Err(not_a_store(0, EPOCH_PLACE))
            } else if other < epoch {
                current(alloc, 0, kind, epoch, a, true)
            } else {
                current(alloc, 1, kind, other, b, true)
            }
        }
    }
}

/// Where the kind stands.
const KIND_PLACE: usize = 10;

/// Where the epoch stands.
const EPOCH_PLACE: usize = 12;

fn not_a_store(area: u8, at: usize) -> StoreRefused
    ensures { result ≡ NotAStore area at }
{
    StoreRefused::NotAStore {
        area,
        at: at as u64,
    }
}

/// The frames of the area that counts.
fn current(
    alloc: Global,
    area: u8,
    kind: u8,
    epoch: u64,
    bytes: &[u8],
    other_open: bool,
) -> Result<Reading, StoreRefused>
    ensures read { ReadsAreas result (found_in area epoch (frames_of kind bytes.now)) }
    ensures area { IfOk result (λ reading. reading.area ≡ area) }
    ensures other { IfOk result (λ reading. reading.other_open ≡ other_open) }
{
    match frames_of(alloc, kind, bytes) {
        Ok(found) => Ok(Reading {
            area,
            epoch,
            other_open,
            found,
        }),
        Err(Unread::At(at)) => Err(not_a_store(area, at)),
        Err(Unread::Memory) => Err(StoreRefused::Memory),
    }
}

/// Area 1 has no spelling at a place; but a place among the frames of area 0 comes first.
fn unless_before(alloc: Global, kind: u8, a: &[u8], at: usize) -> StoreRefused
    ensures { ReadsAreas (Err result) (not_before (frames_of kind a.now) at) }
{
    match frames_of(alloc, kind, a) {
        Ok(_) => not_a_store(1, at),
        Err(Unread::At(place)) => not_a_store(0, place),
        Err(Unread::Memory) => StoreRefused::Memory,
    }
}
