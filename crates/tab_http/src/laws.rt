//! What follows from the definitions of a message alone.
ghost use Rattle.std.specs.Prelude.{◌≡◌, ℕ, ◌-◌, ◌≤◌, ◌⊎◌, max, List, ◌++◌, length, Option, Ok, Err};
ghost use Rattle.tab_http.specs.Heads.{HasNoHead};
ghost use Rattle.tab_http.specs.Messages.{Answer, Spells, IsOpen, IsParsers};
ghost use Rattle.tab_http.specs.Reading.{TookMessage};
ghost use Rattle.tab_http.specs.declared.messages.Message.{Message as TheMessage};
ghost use Rattle.tab_http.specs.declared.refusals.HttpRefused.TheVariants.{ReadFault, Memory};
ghost use Rattle.tab_http.specs.declared.TheConstants.{LONGEST_READ};

/// No bytes spell two answers, but where they begin with no head and the parser decides between two refusals.
pub fn bytes_spell_one_answer()
    ensures { (bytes : List ℕ) (a b : Answer) → Spells bytes a → Spells bytes b → (a ≡ b) ⊎ (HasNoHead bytes × IsParsers a × IsParsers b) }
{}

/// There are no bytes that spell no answer.
pub fn bytes_spell_some_answer()
    ensures { (bytes : List ℕ) → ((answer : Answer) → Spells bytes answer → ⊥) → ⊥ }
{}

/// Bytes are refused for what they are: they spell no fault of a read, and no want of memory.
pub fn bytes_spell_no_fault()
    ensures fault { (bytes : List ℕ) → Spells bytes (Err ReadFault) → ⊥ }
    ensures memory { (bytes : List ℕ) → Spells bytes (Err Memory) → ⊥ }
{}

/// What follows a message does not change it.
pub fn same_message_before_more()
    ensures { (bytes more : List ℕ) (message : TheMessage) (rest : List ℕ) → Spells bytes (Ok (message, rest)) → Spells (bytes ++ more) (Ok (message, rest ++ more)) }
{}

/// Bytes that are open spell no message.
pub fn open_bytes_spell_no_message()
    ensures { (bytes : List ℕ) (message : TheMessage) (rest : List ℕ) → IsOpen bytes → Spells bytes (Ok (message, rest)) → ⊥ }
{}

/// Behind a message that was read stand no more bytes than were carried before, or than 4,095, one fewer than a read
/// asks for.
pub fn little_is_read_past_a_message()
    ensures { (old new : Option (List ℕ)) (before after : List ℕ) (message : TheMessage) → TookMessage old new before after message → length after ≤ max (length before) (LONGEST_READ - 1) }
{}
