//! What follows from the definitions of requests and replies alone.
ghost use Rattle.std.specs.Prelude.{◌≡◌, ◌≤◌, ◌↔◌, ℕ, List, Some, codes};
ghost use Rattle.tab_auth.specs.SignedRequests.{IsSigned};
ghost use Rattle.tab_auth.specs.declared.signatures.Keys.{Keys};
ghost use Rattle.tab_batch.specs.Boundaries.{boundary_of};
ghost use Rattle.tab_batch.specs.Replies.{outer_boundary};
ghost use Rattle.tab_edm.specs.declared.TheConstants.{GREATEST};
ghost use Rattle.tab_history.specs.declared.asks.Ask.{Ask};
ghost use Rattle.tab_history.specs.declared.asks.Reply.{Reply};
ghost use Rattle.tab_http.specs.declared.messages.Header.{Header};
ghost use Rattle.tab_http.specs.declared.messages.Message.{Message};
ghost use Rattle.tab_json.specs.declared.entities.JsonForm.{JsonForm};
ghost use Rattle.tab_keys.specs.KeyTexts.{IsKeyText};
ghost use Rattle.tab_keys.specs.TableNames.{IsTableName};
ghost use Rattle.tab_page.specs.declared.pages.Options.{Options};
ghost use Rattle.tab_service.specs.Addresses.{SpellsKeys, SpellsRow};
ghost use Rattle.tab_service.specs.Decisions.{IsDecision};
ghost use Rattle.tab_service.specs.Laws.{IsFollowedByPage, IsFollowedByList, IsReadAsTick, IsPlainOrWhole, batch_of};
ghost use Rattle.tab_service.specs.Replies.{Suits, reply_text};
ghost use Rattle.tab_service.specs.Signing.{signed_of};
ghost use Rattle.tab_service.specs.Targets.{keys_in, resource_of};
ghost use Rattle.tab_service.specs.declared.requests.decide.Decided.{Decided};
ghost use Rattle.tab_service.specs.declared.forms.PartForm.{PartForm};
ghost use Rattle.tab_service.specs.declared.forms.Request.{Request};
ghost use Rattle.tab_service.specs.declared.requests.table_queries.TableWindow.{TableWindow};
ghost use Rattle.tab_service.specs.declared.requests.targets.Resource.TheVariants.{Row};

use tab_batch::a_batch_has_some_answer;

/// A query with what the headers of its page say behind it asks for the same, from the next key on.
pub fn pages_are_followed_by_their_headers()
    ensures { (query pk rk : List ℕ) (options : Options) → IsKeyText pk → IsKeyText rk → IsFollowedByPage query options (pk, rk) }
{}

/// The same of a list of tables, from the next name on.
pub fn lists_are_followed_by_their_header()
    ensures { (query next : List ℕ) (window : TableWindow) → IsTableName next → IsFollowedByList query window next }
{}

/// The ETag that a reply names is read by If-Match as its tick.
pub fn versions_are_read_as_their_ticks()
    ensures { (tick : ℕ) (headers : List Header) → tick ≤ GREATEST → IsReadAsTick tick headers }
{}

/// A message of an account with a key comes to a request only where it is signed, at this moment.
pub fn requests_are_signed()
    ensures { (keys : Keys) (key : List ℕ) (now : ℕ) (message : Message) (request : Request) → keys.key ≡ Some key
        → IsDecision keys now message (Decided.Go request) → IsSigned keys.account key (signed_of message) now }
{}

/// The keys of a row are read from an address exactly where it spells them.
pub fn keys_are_read_where_spelled()
    ensures { (text pk rk : List ℕ) → (keys_in text ≡ Some (pk, rk)) ↔ SpellsKeys text pk rk }
{}

/// A segment names a row exactly where it spells it.
pub fn rows_are_read_where_spelled()
    ensures { (text name pk rk : List ℕ) → (resource_of text ≡ Some (Row name pk rk)) ↔ SpellsRow text name pk rk }
{}

/// There is no message that comes to nothing.
pub fn messages_have_some_decision()
    ensures { (keys : Keys) (now : ℕ) (message : Message) → ((decided : Decided) → IsDecision keys now message decided → ⊥) → ⊥ }
{
    a_batch_has_some_answer();
}

/// The reply to a batch is put together from replies whose lines mark off no part, or refuses the whole; and the boundary that
/// it names is the one by which it is cut.
pub fn batch_replies_are_plain()
    ensures plain { (account : List ℕ) (json : JsonForm) (parts : List PartForm) (asked : Ask) (answer : Reply)
        → Suits (batch_of account json parts asked) answer → IsPlainOrWhole (reply_text (batch_of account json parts asked) answer) }
    ensures boundary { boundary_of (codes "multipart/mixed; boundary=batchresponse_1") ≡ Some outer_boundary }
{}
