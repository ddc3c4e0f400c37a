//! What holds of the bytes of two areas, whoever writes and reads.

ghost use Rattle.std.specs.Prelude.{◌≡◌, List, ℕ, Ok, Err, true};
ghost use Rattle.tab_keys.specs.declared.keys.Key.{Key};
ghost use Rattle.tab_codec.specs.declared.frames.RangeRow.{RangeRow};
ghost use Rattle.tab_codec.specs.declared.frames.Frame.{Frame};
ghost use Rattle.tab_codec.specs.Frames.{AreBytes};
ghost use Rattle.tab_journal.specs.Areas.{Spells};
ghost use Rattle.tab_journal.specs.Reading.{Found, read_areas};
ghost use Rattle.tab_journal.specs.Told.{same_keys, covers};

/// What is read of two areas is what they spell; they spell one list of frames at most, and none where a place without a
/// spelling is read.
pub fn areas_spell_what_is_read()
    ensures read { (kind number : ℕ) (found : Found) (a b : List ℕ) → AreBytes a → AreBytes b → read_areas kind number a b ≡ Ok found → Spells kind number found.frames a b }
    ensures one { (kind number : ℕ) (frames others : List Frame) (a b : List ℕ) → Spells kind number frames a b → Spells kind number others a b → frames ≡ others }
    ensures none { (kind number : ℕ) (frames : List Frame) (a b : List ℕ) (place : ℕ × ℕ) → read_areas kind number a b ≡ Err place → Spells kind number frames a b → ⊥ }
{}

/// Rows that agree at the bounds of all of them have the same keys together.
pub fn rows_that_agree_have_the_same_keys()
    ensures { (rows others : List RangeRow) → same_keys rows others ≡ true → (key : Key) → covers rows key ≡ covers others key }
{}
