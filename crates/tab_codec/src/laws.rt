//! What holds of spellings and of reading, whoever writes and reads.

ghost use Rattle.std.specs.Prelude.{◌≡◌, ◌≤◌, ◌++◌, List, ℕ, length, Ok, Err};
ghost use Rattle.tab_codec.specs.declared.frames.Frame.{Frame};
ghost use Rattle.tab_codec.specs.Spelling.{spelling};
ghost use Rattle.tab_codec.specs.Frames.{AreBytes, HasSpelling, BeginsWith};
ghost use Rattle.tab_codec.specs.Reading.{frame_at};

/// Each spelling is read as its frame, whatever follows it.
pub fn each_spelling_is_read()
    ensures { (frame : Frame) (rest : List ℕ) → HasSpelling frame → frame_at (spelling frame ++ rest) ≡ Ok (frame, length (spelling frame)) }
{}

/// What is read of bytes is a frame whose spelling they begin with.
pub fn only_spellings_are_read()
    ensures { (bytes : List ℕ) (frame : Frame) (size : ℕ) → AreBytes bytes → frame_at bytes ≡ Ok (frame, size) → BeginsWith frame size bytes }
{}

/// No spelling begins another: bytes that begin with the spellings of two frames begin with one, and what follows is
/// the same. So no two frames have one spelling.
pub fn no_spelling_begins_another()
    ensures { (a b : Frame) (x y : List ℕ) → HasSpelling a → HasSpelling b → spelling a ++ x ≡ spelling b ++ y → (a ≡ b) × (x ≡ y) }
{}

/// A refusal names one offset, which the bytes determine: among them or at their end.
pub fn a_refusal_is_within_the_bytes()
    ensures { (bytes : List ℕ) (at : ℕ) → frame_at bytes ≡ Err at → at ≤ length bytes }
{}
