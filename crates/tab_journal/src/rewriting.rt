//! A whole compaction: a store's frames are rewritten to others.

ghost use Rattle.std.specs.Prelude.{◌≡◌, ◌≢◌, ℕ, ◌+◌, ◌-◌, ◌^◌, ◌⊎◌, ◌↔◌, List, [], false, None, IsFalse, OnOk, Err};
ghost use Rattle.tab_codec.specs.declared.frames.Frame.{Frame};
ghost use Rattle.tab_journal.specs.Areas.{AreFrames};
ghost use Rattle.tab_journal.specs.Stores.{area_a, area_b, IsSameStore, IsUnmoved, IsFaultAlone, IsFaultOrSpent, StoreCauses, fails_by, HasFrames, HasPieces, KeepsStops, KeptSince, SpellsEither};
ghost use Rattle.tab_journal.specs.declared.refusals.StoreRefused.TheVariants.{EpochSpent};

use crate::{Store, StoreRefused};
use tab_codec::Prepared;
use tab_outside::Disk;

impl<D: Disk> Store<D> {
    /// Puts these frames in the place of the store's, in a compaction.
    pub fn rewrite(&mut self, pieces: &[Prepared]) -> Result<(), StoreRefused>
        requires running { IsFalse self.old.failed }
        ensures ok { D.honest → (frames : List Frame) → HasFrames D.watch self.old frames → AreFrames self.old.kind pieces.now → OnOk result (HasFrames D.watch self.new pieces.now) }
        ensures images { D.honest → (frames : List Frame) → HasFrames D.watch self.old frames → AreFrames self.old.kind pieces.now
            → SpellsEither D.watch self.old.kind self.old.number frames pieces.now (D.watch.moment (area_a self.old)) (D.watch.moment (area_b self.old)) (area_a self.new) (area_b self.new) }
        ensures epoch { OnOk result (self.new.epoch ≡ self.old.epoch + 1) }
        ensures alone { IsFaultOrSpent result }
        ensures spent { (result ≡ Err EpochSpent) ↔ (self.old.epoch ≡ 2 ^ 64 - 1) }
        ensures untouched { result ≡ Err EpochSpent → self.new ≡ self.old }
        ensures same { IsSameStore self.old self.new }
        ensures failed { self.new.failed ≡ fails_by false result }
        ensures stops { KeepsStops D.has_stops self.old self.new }
        ensures causes { StoreCauses D.faults self.old self.new result }
    {
        self.compact_begin()?;
        self.write_pieces(pieces)?;
        self.compact_end()
    }

    /// Writes the pieces of a compaction that was begun.
    fn write_pieces(&mut self, pieces: &[Prepared]) -> Result<(), StoreRefused>
        requires running { IsFalse self.old.failed }
        requires begun { self.old.building ≢ None }
        ensures ok { D.honest → (frames : List Frame) → HasFrames D.watch self.old frames → HasPieces D.watch self.old []
            → OnOk result (HasFrames D.watch self.new frames × HasPieces D.watch self.new pieces.now) }
        ensures images { D.honest → (frames : List Frame) (ta tb : ℕ) → HasFrames D.watch self.old frames → HasPieces D.watch self.old []
            → KeptSince D.watch self.old frames ta tb → KeptSince D.watch self.new frames ta tb }
        ensures begun { OnOk result (self.new.building ≢ None) }
        ensures unmoved { IsUnmoved self.old self.new }
        ensures fault { IsFaultAlone result }
        ensures failed { self.new.failed ≡ fails_by false result }
        ensures stops { KeepsStops D.has_stops self.old self.new }
        ensures causes { StoreCauses D.faults self.old self.new result }
    {
        for piece in pieces {
            self.compact_piece(piece)?;
        }
        Ok(())
    }
}
