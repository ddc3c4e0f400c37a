//! Laws over definitions, each on a function with an empty body.
ghost use Rattle.std.specs.Prelude.{◌≡◌, ℕ, List, ◌++◌, length, Some};
ghost use Rattle.tab_auth.specs.declared.signatures.Keys.{Keys};
ghost use Rattle.tab_history.specs.declared.entries.Entry.{Entry};
ghost use Rattle.tab_service.specs.declared.requests.decide.Decided.{Decided};
ghost use Rattle.tab_service.specs.declared.requests.decide.Decided.TheVariants as Decided;
ghost use Rattle.tab_service.specs.declared.forms.Request.{Request};
ghost use Rattle.tab_drive.specs.Messages.{AreSigned, ComeTo};
ghost use Rattle.tab_drive.specs.RunStates.{RunState, Exchange, Follows, bytes_of, entries_of, text_of};

use tab_http::{bytes_spell_no_fault, bytes_spell_one_answer, bytes_spell_some_answer};
use tab_service::{messages_have_one_decision, messages_have_some_decision, requests_are_signed};

/// The bytes of a message come to one request, or to the reply to one refusal.
pub fn one_decision()
    ensures { (keys : Keys) (moment : ℕ) (bytes : List ℕ) (a b : Decided) → ComeTo keys moment bytes a → ComeTo keys moment bytes b → a ≡ b }
{
    bytes_spell_one_answer();
    messages_have_one_decision();
}

/// There are no bytes of a call that come to nothing: they are a message, which has a decision, or are refused as none, and
/// each such refusal has a reply.
pub fn calls_come_to_something()
    ensures { (keys : Keys) (moment : ℕ) (bytes : List ℕ) → ((decided : Decided) → ComeTo keys moment bytes decided → ⊥) → ⊥ }
{
    bytes_spell_some_answer();
    bytes_spell_no_fault();
    messages_have_some_decision();
}

/// A call of an account with a key comes to a request only where it is signed, at this moment.
pub fn calls_are_signed()
    ensures { (keys : Keys) (key : List ℕ) (moment : ℕ) (bytes : List ℕ) (request : Request) → keys.key ≡ Some key
        → ComeTo keys moment bytes (Decided.Go request) → AreSigned keys.account key bytes moment }
{
    requests_are_signed();
}

/// What is written is a function of what is read and of the history.
pub fn one_text()
    // Exchanges from one beginning that read the same bytes and take the same entries give the same text.
    ensures text { (keys : Keys) (state : RunState) (xs ys : List Exchange) → Follows keys state xs → Follows keys state ys
        → bytes_of xs ≡ bytes_of ys → entries_of xs ≡ entries_of ys → text_of xs ≡ text_of ys }
    // So do as many exchanges at the front of one input and of one history.
    ensures front { (keys : Keys) (state : RunState) (xs ys : List Exchange) (rest other : List ℕ) (later more : List Entry)
        → Follows keys state xs → Follows keys state ys → bytes_of xs ++ rest ≡ bytes_of ys ++ other → entries_of xs ++ later ≡ entries_of ys ++ more
        → length xs ≡ length ys → text_of xs ≡ text_of ys }
{
    one_decision();
}
