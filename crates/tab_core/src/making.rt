//! Makes the stores of a yard, each over its two disks.

ghost use Rattle.std.specs.Prelude.{◌≡◌, ◌≢◌, ℕ, ◌+◌, ◌*◌, ◌<◌, ◌≤◌, ◌^◌, [], ◌∷◌, ◌++◌, vec_len, vec_capacity, IfOk, IfErr, OnOk, Err};
ghost use Rattle.std.specs.List.{AllZip};
ghost use Rattle.tab_journal.specs.Making.{IsRefusedFor};
ghost use Rattle.tab_journal.specs.declared.refusals.StoreRefused.TheVariants.{NotAStore, EpochSpent};
ghost use Rattle.tab_core.specs.Courses.{first_row};
ghost use Rattle.tab_core.specs.Points.{kind_of, number_of};
ghost use Rattle.tab_core.specs.Making.{RoseAt, IsMade, AreMade, first_frames};

use crate::InitRefused;
use std::alloc::Global;
use tab_codec::{Frame, FrameList, RangeRow};
use tab_journal::{Back, MAP_KIND, NAMES_KIND, SERVER_KIND, Store, StoreRefused};
use tab_keys::{Bound, KeyText, Memory, Span};
use tab_outside::Disk;

/// The number of the range that a new store has.
const FIRST_RANGE: u64 = 1;

/// The store of the map, that of the names, and that of the first server.
const MAP: usize = 0;

const NAMES: usize = 1;

const FIRST_SERVER: usize = 2;

/// Makes the stores of these disks, the last one first, so that the map is there only when all others are.
pub fn make_stores<D: Disk>(alloc: Global, yard: &mut Vec<D>) -> Result<(), InitRefused>
    ensures made { D.honest → (count : ℕ) → vec_len yard.old ≡ 2 * count → count ≤ 2 ^ 8 → OnOk result (AreMade D.watch yard.new.items) }
    ensures empty { (disk : ℕ) → result ≢ Err (InitRefused.NotEmpty disk) }
    ensures fault { (disk : ℕ) → result ≡ Err (InitRefused.DiskFault disk) → RoseAt D.faults yard.old.items yard.new.items disk }
    ensures later { AllZip (λ old new. D.faults old ≤ D.faults new) yard.old.items yard.new.items }
    ensures size { vec_len yard.new ≡ vec_len yard.old }
    ensures room { vec_capacity yard.new ≡ vec_capacity yard.old }
{
    let Some(first) = yard.len().checked_sub(2) else {
        return Ok(());
    };
    let b = yard.pop().unwrap();
    let a = yard.pop().unwrap();
    match make_store(alloc, a, b, first / 2) {
        Ok((a, b)) => {
            let made = make_stores(alloc, yard);
            put_back(yard, a, b);
            made
        }
        Err(back) => {
            put_back(yard, back.a, back.b);
            Err(refused_at(first, back.refused))
        }
    }
}

/// Puts two disks behind the others, from where they were taken.
fn put_back<D>(yard: &mut Vec<D>, a: D, b: D)
    requires { vec_len yard.old + 2 ≤ vec_capacity yard.old }
    ensures items { yard.new.items ≡ yard.old.items ++ a ∷ b ∷ [] }
    ensures size { vec_len yard.new ≡ vec_len yard.old + 2 }
    ensures room { vec_capacity yard.new ≡ vec_capacity yard.old }
{
    yard.push_reserved(a);
    yard.push_reserved(b);
}

/// Makes a store with its first frames, and gives its disks back.
fn make_store<D: Disk>(alloc: Global, a: D, b: D, store: usize) -> Result<(D, D), Back<D>>
    ensures made { D.honest → store < 2 ^ 8 → IfOk result (λ disks. IsMade D.watch store disks.0 disks.1) }
    ensures later { IfOk result (λ disks. (D.faults a ≤ D.faults disks.0) × (D.faults b ≤ D.faults disks.1)) }
    ensures causes { IfErr result (λ back. IsRefusedFor D.faults a b back) }
    ensures never { IfErr result (λ back. (area at : ℕ) → back.refused ≢ NotAStore area at) }
{
    let Ok(frames) = first_frames(alloc, store) else {
        return Err(Back {
            a,
            b,
            refused: StoreRefused::Memory,
        });
    };
    let (kind, number) = kind_of(store);
    let made = Store::init(alloc, a, b, kind, number, &frames)?;
    Ok(made.into_disks())
}

/// The kind of a store, and its server's number.
fn kind_of(store: usize) -> (u8, u8)
    ensures kind { result.0 ≡ kind_of store }
    ensures number { store < 2 ^ 8 → result.1 ≡ number_of store }
{
    match store {
        MAP => (MAP_KIND, 0),
        NAMES => (NAMES_KIND, 0),
        _ => {
            let server = u8::try_from(store - FIRST_SERVER).unwrap_or(u8::MAX);
            (SERVER_KIND, server)
        }
    }
}

/// Why no store was made over this disk and the next one.
fn refused_at(first: usize, refused: StoreRefused) -> InitRefused
    requires room { first + 1 < 2 ^ 64 }
    requires area { (area : ℕ) → refused ≡ StoreRefused.DiskFault area → area ≤ 1 }
    requires read { (area at : ℕ) → refused ≢ NotAStore area at }
    requires last { refused ≢ EpochSpent }
    ensures empty { (disk : ℕ) → result ≢ InitRefused.NotEmpty disk }
    ensures fault { (disk : ℕ) → result ≡ InitRefused.DiskFault disk → (area : ℕ) × (refused ≡ StoreRefused.DiskFault area) × (disk ≡ first + area) }
{
    match refused {
        StoreRefused::DiskFault { area } => InitRefused::DiskFault {
            disk: first as u64 + u64::from(area),
        },
        StoreRefused::Memory => InitRefused::Memory,
        StoreRefused::NotAStore { .. } | StoreRefused::EpochSpent => unreachable!(),
    }
}

/// The frames with which a store begins.
#[tactic(auto, unfolding(crate::specs::Making::first_frames))]
fn first_frames(alloc: Global, store: usize) -> Result<Vec<Frame>, Memory>
    ensures { IfOk result (λ frames. frames.items ≡ first_frames store) }
{
    match store {
        MAP => map_frames(alloc),
        NAMES => names_frames(alloc),
        FIRST_SERVER => range_frames(alloc),
        _ => Ok(Vec::new(alloc)),
    }
}

/// The first frame of the map, in which one range has all keys.
#[tactic(auto, unfolding(crate::specs::Making::first_frames))]
fn map_frames(alloc: Global) -> Result<Vec<Frame>, Memory>
    ensures { IfOk result (λ frames. frames.items ≡ first_frames 0) }
{
    let mut frames = Vec::new(alloc);
    frames.push(first_map(alloc)?)?;
    Ok(frames)
}

/// The first frame of the names, of which there are none.
#[tactic(auto, unfolding(crate::specs::Making::first_frames))]
fn names_frames(alloc: Global) -> Result<Vec<Frame>, Memory>
    ensures { IfOk result (λ frames. frames.items ≡ first_frames 1) }
{
    let mut frames = Vec::new(alloc);
    frames.push(Frame::Names {
        next_table: 1,
        names: FrameList::new(Vec::new(alloc)),
    })?;
    Ok(frames)
}

/// The first frames of server 0, which holds the range of all keys, without rows.
#[tactic(auto, unfolding(crate::specs::Making::first_frames))]
fn range_frames(alloc: Global) -> Result<Vec<Frame>, Memory>
    ensures { IfOk result (λ frames. frames.items ≡ first_frames 2) }
{
    let mut frames = Vec::new(alloc);
    frames.push(Frame::Begin {
        range: FIRST_RANGE,
        span: all_keys(alloc)?,
        next_tick: 0,
    })?;
    frames.push(Frame::Whole {
        range: FIRST_RANGE,
        next_tick: 0,
    })?;
    Ok(frames)
}

/// The frame of a map with one range, which has all keys and which server 0 holds.
fn first_map(alloc: Global) -> Result<Frame, Memory>
    ensures { IfOk result (λ frame. frame ≡ Frame.Map 2 1 (record { range = first_row.range; server = first_row.server; span = first_row.span } ∷ [])) }
{
    let row = RangeRow {
        range: FIRST_RANGE,
        server: 0,
        span: all_keys(alloc)?,
    };
    let mut rows = Vec::new(alloc);
    rows.push(row)?;
    Ok(Frame::Map {
        next_range: FIRST_RANGE + 1,
        next_plan: 1,
        rows: FrameList::new(rows),
    })
}

/// The span of all keys.
fn all_keys(alloc: Global) -> Result<Span, Memory>
    ensures { IfOk result (λ span. span ≡ first_row.span) }
{
    let Ok(first) = KeyText::new(alloc, "") else {
        return Err(Memory);
    };
    Ok(Span::new(Bound::At(0, first), Bound::End).unwrap())
}
