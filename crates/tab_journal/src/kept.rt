//! What a store stands for, in memory and on its two disks, with at most one step in doubt.

ghost use Rattle.std.specs.Prelude.{◌≡◌, ℕ, ◌+◌, ◌-◌, ◌^◌, ◌≤◌, ◌⊎◌, ◌||◌, ◌&&◌, List, false, true, None, Some, IsTrue, IsFalse, IfOk, IfErr, OnOk, OnErr, IfSome, Ok, Err};
ghost use Rattle.std.specs.Borrow.{sem};
ghost use Rattle.std.specs.Option.{option_copied};
ghost use Rattle.tab_outside.specs.Armed.{with_fail, with_stop};
ghost use Rattle.tab_outside.specs.Disks.{Rests};
ghost use Rattle.tab_outside.specs.Pairs.{Extends, AddsNone, Since};
ghost use Rattle.tab_codec.specs.declared.frames.Frame.{Frame};
ghost use Rattle.tab_journal.specs.Areas.{Spells};
ghost use Rattle.tab_journal.specs.Stores.{area_a, area_b, area_of, IsSameStore, IsUnmoved, KeepsStops, HasFrames};
ghost use Rattle.tab_journal.specs.Keeping.{StandsFor, StandsWith, IfDoubt, IsSound, IsClear, IsReady, IsRewritten, StandsStill};
ghost use Rattle.tab_journal.specs.KeptCauses.{passed_on, AfterChange, AfterSettling, AfterCheckpoint, IsKeptFaultAlone, IsDamaged, KeptCauses};
ghost use Rattle.tab_journal.specs.KeptLends.{lends_held};
ghost use Rattle.tab_journal.specs.declared.kept.KeptRefused.TheVariants.{Damaged};

use crate::{Content, Store, StoreRefused};
use std::alloc::Global;
use std::marker::Model;
use tab_codec::Prepared;
use tab_outside::Disk;

/// Why a call on something kept was refused.
#[derive(Clone, Copy, Debug, PartialEq, Eq)]
pub enum KeptRefused {
    /// A call on the disk of this area failed.
    DiskFault { area: u8 },
    /// The bytes of this area have no spelling at this offset, or the frames end there and stand for something else than
    /// what was held.
    Damaged { area: u8, at: u64 },
    /// The last epoch is reached.
    EpochSpent,
    /// No memory was found.
    Memory,
}

/// The refusal of a store, as it is passed on.
fn passed_on(refused: StoreRefused) -> KeptRefused
    ensures { result ≡ passed_on refused }
{
    match refused {
        StoreRefused::DiskFault { area } => KeptRefused::DiskFault { area },
        StoreRefused::NotAStore { area, at } => KeptRefused::Damaged { area, at },
        StoreRefused::EpochSpent => KeptRefused::EpochSpent,
        StoreRefused::Memory => KeptRefused::Memory,
    }
}

/// A content in memory, its store, and at most one step in doubt.
#[derive(Drop)]
pub struct Kept<D, C: Content> {
    store: Store<D>,
    held: C,
    doubt: Option<C::Step>,
    // Whether the store has to be read anew. A store that has failed is always so.
    failed: bool,
}

impl<D, C: Content> Model for Kept<D, C> {
    ghost use Rattle.std.specs.Prelude.{◌≡◌, false, None};
    ghost use Rattle.tab_journal.specs.Keeping.{KeptView};

    ghost Value = { KeptView D C C.Step };

    ghost view = { λ kept. record { store = kept.store; held = kept.held; doubt = kept.doubt; failed = kept.failed } };

    ghost invariant = { λ kept. (kept.store.kind ≡ C.sense.kind) × (kept.failed ≡ false → (kept.store.failed ≡ false) × (kept.doubt ≡ None)) };
}

impl<D: Disk, C: Content> Kept<D, C> {
    /// A store that runs, and what its frames stand for.
    pub fn new(store: Store<D>, held: C) -> Kept<D, C>
        requires kind { store.kind ≡ C.sense.kind }
        ensures view { result ≡ record { store = store; held = held; doubt = None; failed = store.failed } }
        ensures sound { D.honest → (frames : List Frame) → HasFrames D.watch store frames → StandsFor C.sense held frames → IsSound D.watch C.sense result }
    {
        let failed = store.failed();
        Kept {
            store,
            held,
            doubt: None,
            failed,
        }
    }

    /// Does a step: on the disks, and then in memory.
    pub fn change(&mut self, alloc: Global, step: C::Step) -> Result<(), KeptRefused>
        requires running { IsFalse self.old.failed }
        requires fits { C.sense.fits (C.sense.tells self.old.held) step }
        requires ready { C.sense.ready self.old.held step }
        requires sound { D.honest → IsSound D.watch C.sense self.old }
        ensures sound { D.honest → IsSound D.watch C.sense self.new }
        ensures after { AfterChange C.sense self.old self.new step result }
        ensures images { D.honest → Extends D.watch (Spells self.old.store.kind self.old.store.number) (StandsWith C.sense self.old.held step)
            (area_a self.old.store) (area_b self.old.store) (area_a self.new.store) (area_b self.new.store) }
        ensures same { IsSameStore self.old.store self.new.store }
        ensures stops { KeepsStops D.has_stops self.old.store self.new.store }
        ensures causes { KeptCauses D.faults self.old self.new result }
    {
        let Ok(prepared) = self.held.prepare(alloc, &step) else {
            return Err(KeptRefused::Memory);
        };
        self.change_prepared(&prepared, step)
    }

    /// The same with the frame of the step made ready before: it takes no memory.
    pub fn change_prepared(&mut self, prepared: &Prepared, step: C::Step) -> Result<(), KeptRefused>
        requires frame { prepared.now ≡ C.sense.frame_of step }
        requires running { IsFalse self.old.failed }
        requires fits { C.sense.fits (C.sense.tells self.old.held) step }
        requires ready { C.sense.ready self.old.held step }
        requires sound { D.honest → IsSound D.watch C.sense self.old }
        ensures sound { D.honest → IsSound D.watch C.sense self.new }
        ensures after { AfterChange C.sense self.old self.new step result }
        ensures faults_alone { IsKeptFaultAlone result }
        ensures images { D.honest → Extends D.watch (Spells self.old.store.kind self.old.store.number) (StandsWith C.sense self.old.held step)
            (area_a self.old.store) (area_b self.old.store) (area_a self.new.store) (area_b self.new.store) }
        ensures same { IsSameStore self.old.store self.new.store }
        ensures stops { KeepsStops D.has_stops self.old.store self.new.store }
        ensures causes { KeptCauses D.faults self.old self.new result }
    {
        match self.store.append(prepared) {
            Ok(()) => {
                self.held.apply(step);
                Ok(())
            }
            Err(refused) => {
                self.failed = true;
                self.doubt = Some(step);
                Err(passed_on(refused))
            }
        }
    }

    /// Reads the store anew, and answers whether the step in doubt stands.
    pub fn settle(&mut self, alloc: Global) -> Result<bool, KeptRefused>
        requires failed { IsTrue self.old.failed }
        requires ready { IsReady C.sense self.old.held self.old.doubt }
        requires sound { D.honest → IsSound D.watch C.sense self.old }
        ensures sound { D.honest → IsSound D.watch C.sense self.new }
        ensures after { AfterSettling C.sense self.old self.new result }
        ensures never { D.honest → (area at : ℕ) → result ≡ Err (Damaged area at) → ⊥ }
        ensures damaged { IsDamaged result }
        ensures images_a { D.honest → AddsNone D.watch (area_a self.old.store) (area_a self.new.store) }
        ensures images_b { D.honest → AddsNone D.watch (area_b self.old.store) (area_b self.new.store) }
        ensures same { IsSameStore self.old.store self.new.store }
        ensures stops { KeepsStops D.has_stops self.old.store self.new.store }
        ensures causes { KeptCauses D.faults self.old self.new result }
    {
        let frames = match self.store.reopen(alloc) {
            Ok(frames) => frames,
            Err(refused) => return Err(passed_on(refused)),
        };
        let Ok(is_read) = self.held.is_read(alloc, &frames) else {
            return Err(KeptRefused::Memory);
        };
        if is_read {
            self.doubt = None;
            self.failed = false;
            return Ok(false);
        }
        let Some(step) = self.doubt.take() else {
            return Err(self.damaged());
        };
        let Ok(stands) = self.held.is_read_with(alloc, &step, &frames) else {
            self.doubt = Some(step);
            return Err(KeptRefused::Memory);
        };
        if stands {
            self.held.apply(step);
            self.failed = false;
            return Ok(true);
        }
        self.doubt = Some(step);
        Err(self.damaged())
    }

    /// The frames that were read end at a place, and stand for something else.
    fn damaged(&self) -> KeptRefused
        ensures { (area : ℕ) × (at : ℕ) × (result ≡ Damaged area at) × (area ≤ 1) }
    {
        let (area, at) = self.store.end();
        KeptRefused::Damaged { area, at }
    }

    /// Lets go of the step in doubt, which is nothing that is held any more: frames that stand for what is held with it
    /// stand for what is held.
    pub fn forget(&mut self)
        requires { (frames : List Frame) → IfDoubt C.sense self.old.held self.old.doubt frames → StandsFor C.sense self.old.held frames }
        ensures is { self.new ≡ record self.old { doubt = None } }
        ensures sound { D.honest → IsSound D.watch C.sense self.old → IsSound D.watch C.sense self.new }
    {
        self.doubt = None;
    }

    /// Rewrites the store to what is held. All pieces are prepared before the first write.
    pub fn checkpoint(&mut self, alloc: Global) -> Result<(), KeptRefused>
        requires running { IsFalse self.old.failed }
        requires sound { D.honest → IsSound D.watch C.sense self.old }
        ensures sound { D.honest → IsSound D.watch C.sense self.new }
        ensures ok { D.honest → OnOk result (IsRewritten D.watch C.sense self.new) }
        ensures after { AfterCheckpoint self.old self.new result }
        ensures epoch { OnOk result (self.new.store.epoch ≡ self.old.store.epoch + 1) }
        ensures spent { self.old.store.epoch ≡ 2 ^ 64 - 1 → (result ≡ Err KeptRefused.EpochSpent) ⊎ (result ≡ Err KeptRefused.Memory) }
        ensures images { D.honest → Since D.watch (Spells self.old.store.kind self.old.store.number) (StandsFor C.sense self.old.held)
            (D.watch.moment (area_a self.old.store)) (D.watch.moment (area_b self.old.store)) (area_a self.new.store) (area_b self.new.store) }
        ensures same { IsSameStore self.old.store self.new.store }
        ensures stops { KeepsStops D.has_stops self.old.store self.new.store }
        ensures causes { KeptCauses D.faults self.old self.new result }
    {
        let Ok(pieces) = self.held.pieces(alloc) else {
            return Err(KeptRefused::Memory);
        };
        match self.store.rewrite(&pieces) {
            Ok(()) => Ok(()),
            Err(refused) => {
                self.failed = self.store.failed();
                Err(passed_on(refused))
            }
        }
    }

    /// Whether the store has to be read anew.
    pub fn failed(&self) -> bool
        ensures is { result ≡ self.now.failed }
        ensures clear { IsClear self.now }
        ensures kind { self.now.store.kind ≡ C.sense.kind }
    {
        self.failed
    }

    /// The step of which it is open whether it stands.
    pub fn doubt(&self) -> Option<&C::Step>
        ensures { option_copied result ≡ self.now.doubt }
    {
        self.doubt.as_ref()
    }

    /// What is held in memory.
    pub fn held(&self) -> &C
        ensures { result.now ≡ self.now.held }
    {
        &self.held
    }

    /// What is held in memory, to change what frames do not tell of it, or need not tell any longer.
    pub fn held_mut(&mut self) -> &mut C
        ensures* lends { sem 𝓛 (lends_held D.row C.row C.Step.row C.Content self.entry result) }
        ensures value { result.now ≡ self.old.held }
        ensures sound { D.honest → IsSound D.watch C.sense self.old → (held : C) → StandsStill C.sense self.old.held self.old.doubt held
            → IsSound D.watch C.sense (record self.old { held = held }) }
    {
        &mut self.held
    }

    /// The disks of area 0 and of area 1.
    pub fn into_disks(self) -> (D, D)
        ensures a { result.0 ≡ area_a self.store }
        ensures b { result.1 ≡ area_b self.store }
    {
        self.store.into_disks()
    }

    /// Makes the call number `after` from now on the disk of an area fail once; false where the disk
    /// has no such thing.
    pub fn arm_fail(&mut self, area: u8, after: u64) -> bool
        requires { area ≤ 1 }
        ensures has { result ≡ D.has_stops (area_of self.old.store area) }
        ensures armed { IsTrue result → D.armed (area_of self.new.store area) ≡ with_fail (D.armed (area_of self.old.store area)) after }
        ensures beside { area_of self.new.store (1 - area) ≡ area_of self.old.store (1 - area) }
        ensures unchanged { IsFalse result → self.new ≡ self.old }
        ensures rests { D.honest → Rests D.watch (area_of self.old.store area) (area_of self.new.store area) }
        ensures faults { D.faults (area_of self.new.store area) ≡ D.faults (area_of self.old.store area) }
        ensures sound { D.honest → IsSound D.watch C.sense self.old → IsSound D.watch C.sense self.new }
        ensures kept { (self.new.held ≡ self.old.held) × (self.new.doubt ≡ self.old.doubt) × (self.new.failed ≡ self.old.failed) }
        ensures unmoved { IsUnmoved self.old.store self.new.store }
        ensures stops { KeepsStops D.has_stops self.old.store self.new.store }
    {
        self.store.arm_fail(area, after)
    }

    /// Makes the call number `after` from now on the disk of an area, and all that follow it, fail; false where the disk
    /// has no such thing.
    pub fn arm_stop(&mut self, area: u8, after: u64) -> bool
        requires { area ≤ 1 }
        ensures has { result ≡ D.has_stops (area_of self.old.store area) }
        ensures armed { IsTrue result → D.armed (area_of self.new.store area) ≡ with_stop (D.armed (area_of self.old.store area)) after }
        ensures beside { area_of self.new.store (1 - area) ≡ area_of self.old.store (1 - area) }
        ensures unchanged { IsFalse result → self.new ≡ self.old }
        ensures rests { D.honest → Rests D.watch (area_of self.old.store area) (area_of self.new.store area) }
        ensures faults { D.faults (area_of self.new.store area) ≡ D.faults (area_of self.old.store area) }
        ensures sound { D.honest → IsSound D.watch C.sense self.old → IsSound D.watch C.sense self.new }
        ensures kept { (self.new.held ≡ self.old.held) × (self.new.doubt ≡ self.old.doubt) × (self.new.failed ≡ self.old.failed) }
        ensures unmoved { IsUnmoved self.old.store self.new.store }
        ensures stops { KeepsStops D.has_stops self.old.store self.new.store }
    {
        self.store.arm_stop(area, after)
    }

    /// Whether a call on one of the disks has met an armed stop.
    pub fn stopped(&self) -> bool
        ensures { result ≡ ((D.armed (area_a self.now.store)).stopped || (D.armed (area_b self.now.store)).stopped) }
    {
        self.store.stopped()
    }

    /// Whether both disks have failures and stops, and can be restarted.
    pub fn has_stops(&self) -> bool
        ensures { result ≡ (D.has_stops (area_a self.now.store) && D.has_stops (area_b self.now.store)) }
    {
        self.store.has_stops()
    }
}
