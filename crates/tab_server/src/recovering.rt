//! Opening a server on its disks.

ghost use Rattle.std.specs.Prelude.{◌≡◌, ◌≤◌, ℕ, List, None, Some, false, IfOk, IfErr, MatchOption};
ghost use Rattle.tab_outside.specs.Pairs.{AddsNone};
ghost use Rattle.tab_codec.specs.declared.frames.Frame.{Frame};
ghost use Rattle.tab_journal.specs.Areas.{AreFrames};
ghost use Rattle.tab_journal.specs.Making.{IsRefusedFor};
ghost use Rattle.tab_journal.specs.Reading.{read_areas};
ghost use Rattle.tab_journal.specs.Stores.{area_a, area_b, IsInArea};
ghost use Rattle.tab_journal.specs.Keeping.{IsSound};
ghost use Rattle.tab_journal.specs.declared.refusals.StoreRefused.TheVariants.{NotAStore};
ghost use Rattle.tab_server.specs.Contents.{ranges_sense};
ghost use Rattle.tab_server.specs.Recovering.{IsRecovered, IsSpelledOver, LacksListed, IsNoServer, IsReadFrom, IsReadOver, Recovers};

use crate::comparing::same_span;
use crate::replays::replayed;
use crate::{Mark, Marked, Ranges, Server};
use std::alloc::Global;
use tab_codec::Frame;
use tab_journal::{Back, Kept, Store, StoreRefused};
use tab_keys::{Memory, Span};
use tab_outside::Disk;
use tab_range::{Backing, HeldRange};

/// The kind of a server's store.
const SERVER_KIND: u8 = 2;

impl<D: Disk, T: Backing> Server<D, T> {
    /// Opens the server of this number that two disks hold: the listed ranges serve, and all else that its frames spell is
    /// ignored. After a refusal the disks are back.
    pub fn recover(
        alloc: Global,
        a: D,
        b: D,
        number: u8,
        held: &[(u64, Span)],
    ) -> Result<Server<D, T>, Back<D>>
        ensures sound { D.honest → IfOk result (λ server. IsSound D.watch (ranges_sense T.drew T.ready T.kin) server) }
        ensures recovers { D.honest → IfOk result (λ server. Recovers D.watch held.now a b server) }
        ensures read { D.honest → IfOk result (λ server. IsReadFrom held.now (read_areas 2 number (D.watch.seen a) (D.watch.seen b)) server) }
        ensures holds { IfOk result (λ server. (frames : List Frame) × AreFrames 2 frames × IsRecovered frames held.now server.held) }
        ensures is { IfOk result (λ server. (server.store.number ≡ number) × (server.doubt ≡ None) × (server.failed ≡ false)) }
        ensures exact { D.honest → IfErr result (λ back. (area at : ℕ) → back.refused ≡ NotAStore area at
            → IsNoServer held.now (read_areas 2 number (D.watch.seen a) (D.watch.seen b)) area at) }
        ensures area { IfErr result (λ back. IsInArea back.refused) }
        ensures images { D.honest → IfErr result (λ back. AddsNone D.watch a back.a × AddsNone D.watch b back.b) }
        ensures causes { IfErr result (λ back. IsRefusedFor D.faults a b back) }
        ensures causes_ok { IfOk result (λ server. (D.faults a ≤ D.faults (area_a server.store)) × (D.faults b ≤ D.faults (area_b server.store))) }
        ensures stops { IfOk result (λ server. (D.has_stops (area_a server.store) ≡ D.has_stops a) × (D.has_stops (area_b server.store) ≡ D.has_stops b)) }
        ensures stops_back { IfErr result (λ back. (D.has_stops back.a ≡ D.has_stops a) × (D.has_stops back.b ≡ D.has_stops b)) }
    {
        let (store, frames) = Store::open_store(alloc, a, b, SERVER_KIND, number)?;
        match recovered(alloc, &frames, held) {
            Ok(Some(ranges)) => Ok(Server::over(Kept::new(store, ranges))),
            Ok(None) => {
                let (area, at) = store.end();
                Err(given_back(store, StoreRefused::NotAStore { area, at }))
            }
            Err(_) => Err(given_back(store, StoreRefused::Memory)),
        }
    }
}

/// The disks of a store that is no server's, and why.
fn given_back<D: Disk>(store: Store<D>, refused: StoreRefused) -> Back<D>
    ensures { result ≡ record { a = area_a store; b = area_b store; refused = refused } }
{
    let (a, b) = store.into_disks();
    Back { a, b, refused }
}

/// The listed ranges, or nothing where the frames do not spell one of them.
fn recovered<T: Backing>(
    alloc: Global,
    frames: &[Frame],
    listed: &[(u64, Span)],
) -> Result<Option<Ranges<T>>, Memory>
    requires { AreFrames 2 frames.now }
    ensures { IfOk result (λ ranges. MatchOption ranges (LacksListed frames.now listed.now) (IsRecovered frames.now listed.now)) }
{
    let mut ranges = Ranges::new(alloc);
    for (number, span) in listed {
        let Some(range) = recovered_range(alloc, frames, *number, span)? else {
            return Ok(None);
        };
        ranges.hold(Marked {
            range,
            mark: Mark::Serving,
        })?;
    }
    Ok(Some(ranges))
}

/// The range of a number without a tally, or nothing where the frames do not spell it whole over this span.
fn recovered_range<T: Backing>(
    alloc: Global,
    frames: &[Frame],
    number: u64,
    span: &Span,
) -> Result<Option<HeldRange<T>>, Memory>
    requires { AreFrames 2 frames.now }
    ensures { IfOk result (λ range. MatchOption range (IsSpelledOver frames.now number span.now → ⊥) (IsReadOver frames.now number span.now)) }
{
    let Some(replay) = replayed(alloc, frames, number)? else {
        return Ok(None);
    };
    if !replay.is_whole {
        return Ok(None);
    }
    if !same_span(&replay.span, span) {
        return Ok(None);
    }
    Ok(Some(HeldRange::new(number, replay.span, replay.rows, replay.next_tick)))
}
