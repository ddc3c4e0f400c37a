//! Opens the names that two disks hold.

ghost use Rattle.std.specs.Prelude.{◌≡◌, ◌≤◌, None, false, IfOk, IfErr};
ghost use Rattle.tab_outside.specs.Pairs.{AddsNone};
ghost use Rattle.tab_journal.specs.Making.{IsRefusedFor};
ghost use Rattle.tab_journal.specs.Reading.{read_areas};
ghost use Rattle.tab_journal.specs.Stores.{area_a, area_b, IsInArea};
ghost use Rattle.tab_master.specs.Spelled.{names_kind};
ghost use Rattle.tab_master.specs.NamesOpening.{AreOpened, OpensNames};

use crate::{Names, NamesContent};
use std::alloc::Global;
use tab_journal::{Back, Kept, NAMES_KIND, Store, StoreRefused};
use tab_outside::Disk;

impl<D: Disk> Names<D> {
    /// Opens the names that two disks hold. It begins with a sync of both. After a refusal the disks are back.
    pub fn open(alloc: Global, a: D, b: D) -> Result<Names<D>, Back<D>>
        ensures ok { D.honest → IfOk result (AreOpened D.watch a b) }
        ensures exact { D.honest → OpensNames result (read_areas names_kind 0 (D.watch.seen a) (D.watch.seen b)) }
        ensures is { IfOk result (λ names. (names.store.number ≡ 0) × (names.doubt ≡ None) × (names.failed ≡ false)) }
        ensures area { IfErr result (λ back. IsInArea back.refused) }
        ensures images { D.honest → IfErr result (λ back. AddsNone D.watch a back.a × AddsNone D.watch b back.b) }
        ensures causes { IfErr result (λ back. IsRefusedFor D.faults a b back) }
        ensures causes_ok { IfOk result (λ names. (D.faults a ≤ D.faults (area_a names.store)) × (D.faults b ≤ D.faults (area_b names.store))) }
        ensures stops { IfOk result (λ names. (D.has_stops (area_a names.store) ≡ D.has_stops a) × (D.has_stops (area_b names.store) ≡ D.has_stops b)) }
        ensures stops_back { IfErr result (λ back. (D.has_stops back.a ≡ D.has_stops a) × (D.has_stops back.b ≡ D.has_stops b)) }
    {
        let (store, frames) = Store::open_store(alloc, a, b, NAMES_KIND, 0)?;
        let Ok(held) = NamesContent::read(alloc, &frames) else {
            let (a, b) = store.into_disks();
            return Err(Back {
                a,
                b,
                refused: StoreRefused::Memory,
            });
        };
        Ok(Names::of(Kept::new(store, held)))
    }
}
