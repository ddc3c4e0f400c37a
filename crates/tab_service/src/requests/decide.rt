//! What a message comes to: signature, path, name, keys, then what its method asks of its resource. The first refusal in
//! this order is answered.
ghost use Rattle.std.specs.Prelude.{◌≡◌, ℕ, IfOk, Ok};
ghost use Rattle.tab_auth.specs.Checks.{refusal};
ghost use Rattle.tab_auth.specs.declared.signatures.Keys.{Keys};
ghost use Rattle.tab_http.specs.declared.messages.Message.{Message};
ghost use Rattle.tab_service.specs.Answers.{Gives};
ghost use Rattle.tab_service.specs.Targets.{path_of, query_of};
ghost use Rattle.tab_service.specs.Signing.{signed_of};
ghost use Rattle.tab_service.specs.Forms.{IsInForm};
ghost use Rattle.tab_service.specs.Refusals.{refusal_text};
ghost use Rattle.tab_service.specs.Decisions.{on_tables, on_table, on_rows, on_row, on_batch, decided_on, asked_of, ComesTo, IsDecision};
ghost use Rattle.tab_service.specs.declared.requests.decide.Asked.TheVariants.{Many};
ghost use Rattle.tab_service.specs.declared.requests.decide.Decided.{Decided};
ghost use Rattle.tab_service.specs.declared.forms.Request.{Request};

use super::batches::batch_of;
use super::formats::format_with_body;
use super::names::{row_keys, table_name};
use super::rows::{decided_page, decided_row};
use super::signing::signed_by;
use super::tables::{decided_create, decided_drop, decided_tables};
use super::targets::{Resource, resource_at, split_target};
use super::writes::{change_in_rows, change_of_row, change_request};
use crate::replies::denials::refusal_reply;
use crate::{Refusal, Refused, ReplyBytes, Request};
use std::alloc::Global;
use tab_auth::{AuthRefused, Keys, Signed, check, open_refusal};
use tab_batch::a_batch_has_one_answer;
use tab_http::Message;
use tab_json::Scratch;
use tab_keys::{KeyText, Memory, TableName};

/// What a message comes to.
#[derive(Debug, Drop)]
pub enum Decided {
    /// A request to the store.
    Go(Request),
    /// The reply to one that is refused before the store is asked.
    No(ReplyBytes),
}

/// What a message asks for, before the parts of a batch are read.
#[derive(Debug, Drop)]
pub enum Asked {
    /// One request.
    One(Request),
    /// The requests of its parts.
    Many {
        /// Whether it asks for minimal metadata itself.
        minimal: bool,
    },
}

/// What a message to an account comes to at this moment: a request, or the reply to its first refusal.
pub fn decide(alloc: Global, message: &Message, keys: &Keys, now: u64) -> Result<Decided, Memory>
    ensures { IfOk result (IsDecision keys.now now message.now) }
{
    let mut scratch = Scratch::new(alloc);
    decide_with(alloc, message, keys, now, &mut scratch)
}

/// The same, by way of room that is kept from message to message: what it has beforehand does not count.
pub fn decide_with(
    alloc: Global,
    message: &Message,
    keys: &Keys,
    now: u64,
    scratch: &mut Scratch,
) -> Result<Decided, Memory>
    ensures { IfOk result (IsDecision keys.now now message.now) }
{
    match asked_of(alloc, message, keys, now, scratch) {
        Ok(Asked::One(request)) => Ok(Decided::Go(request)),
        Ok(Asked::Many { minimal }) => {
            of_batch(alloc, keys.account.as_str(), minimal, message, scratch)
        }
        Err(Refused::Why(why)) => refused(alloc, None, &why),
        Err(Refused::Memory) => Err(Memory),
    }
}

/// The requests that messages come to are of the account, and have a form for each of their parts.
pub fn requests_are_in_form()
    ensures { (keys : Keys) (now : ℕ) (message : Message) (request : Request)
        → IsDecision keys now message (Decided.Go request) → IsInForm keys.account request }
{}

/// A message comes to one thing alone.
pub fn messages_have_one_decision()
    ensures { (keys : Keys) (now : ℕ) (message : Message) (a b : Decided)
        → IsDecision keys now message a → IsDecision keys now message b → a ≡ b }
{
    a_batch_has_one_answer();
}

/// What a batch comes to.
fn of_batch(
    alloc: Global,
    account: &str,
    minimal: bool,
    message: &Message,
    scratch: &mut Scratch,
) -> Result<Decided, Memory>
    ensures { IfOk result (ComesTo account.now message.now (Ok (Many minimal))) }
{
    match batch_of(alloc, account, minimal, message, scratch) {
        Ok(request) => Ok(Decided::Go(request)),
        Err(Refused::Why(part)) => refused(alloc, part.index, &part.why),
        Err(Refused::Memory) => Err(Memory),
    }
}

/// The reply to a refusal, of the whole or of the part of this index.
fn refused(alloc: Global, index: Option<usize>, why: &Refusal) -> Result<Decided, Memory>
    ensures { IfOk result (λ decided. decided ≡ Decided.No (refusal_text index why.now)) }
{
    let reply = refusal_reply(alloc, index, why)?;
    Ok(Decided::No(ReplyBytes::new(reply)))
}

/// What a message asks for, or its first refusal.
#[tactic(auto, unfolding(crate::specs::Decisions::asked_of, crate::specs::Decisions::decided_at))]
fn asked_of(
    alloc: Global,
    message: &Message,
    keys: &Keys,
    now: u64,
    scratch: &mut Scratch,
) -> Result<Asked, Refused>
    ensures { Gives result (asked_of keys.now now message.now) }
{
    let account = keys.account.as_str();
    let (path, query) = split_target(message.target.as_str());
    if let Some(why) = denial(alloc, message, path, query, keys, now)? {
        return Err(Refused::Why(Refusal::Auth(why)));
    }
    let resource = resource_at(alloc, account, path)?;
    decided_on(alloc, account, message, query, &resource, scratch)
}

/// Why a message is refused for its signature. An account that is open has none, and nothing is copied for it.
#[tactic(auto, unfolding(crate::specs::Signing::signed_of, tab_auth::specs::Checks::refusal))]
fn denial(
    alloc: Global,
    message: &Message,
    path: &str,
    query: &str,
    keys: &Keys,
    now: u64,
) -> Result<Option<AuthRefused>, Memory>
    requires path { path.now ≡ path_of message.now.target }
    requires query { query.now ≡ query_of message.now.target }
    ensures { IfOk result (λ why. why ≡ refusal keys.now (signed_of message.now) now) }
{
    match &keys.key {
        Some(_) => {
            let signed = signed_by(alloc, message.headers.as_slice(), path, query)?;
            checked(alloc, keys, &signed, now)
        }
        None => Ok(open_refusal(keys.account.as_str(), path)),
    }
}

/// Why what is signed is refused.
#[tactic(auto, using(crate::proofs::AuthLemmas::reason_is))]
fn checked(
    alloc: Global,
    keys: &Keys,
    signed: &Signed,
    now: u64,
) -> Result<Option<AuthRefused>, Memory>
    ensures { IfOk result (λ why. why ≡ refusal keys.now signed.now now) }
{
    match check(alloc, keys, signed, now) {
        Ok(()) => Ok(None),
        Err(AuthRefused::Memory) => Err(Memory),
        Err(why) => Ok(Some(why)),
    }
}

/// What is asked of a resource, whose name and keys are read before the method.
fn decided_on(
    alloc: Global,
    account: &str,
    message: &Message,
    query: &str,
    resource: &Resource,
    scratch: &mut Scratch,
) -> Result<Asked, Refused>
    requires { query.now ≡ query_of message.now.target }
    ensures { Gives result (decided_on account.now message.now resource.now) }
{
    match resource {
        Resource::Tables => Ok(Asked::One(on_tables(alloc, account, message, query)?)),
        Resource::Table(name) => {
            let name = table_name(alloc, name.as_str())?;
            Ok(Asked::One(on_table(alloc, account, message, name)?))
        }
        Resource::Rows(name) => {
            let name = table_name(alloc, name.as_str())?;
            let request = on_rows(alloc, account, message, query, name, scratch)?;
            Ok(Asked::One(request))
        }
        Resource::Row(name, pk, rk) => {
            let name = table_name(alloc, name.as_str())?;
            let keys = row_keys(alloc, pk.as_str(), rk.as_str())?;
            let request = on_row(alloc, account, message, query, name, keys, scratch)?;
            Ok(Asked::One(request))
        }
        Resource::Batch => on_batch(alloc, message),
    }
}

// ---- by method

/// What is asked of the list of tables.
#[tactic(auto, unfolding(crate::specs::Decisions::on_tables))]
fn on_tables(
    alloc: Global,
    account: &str,
    message: &Message,
    query: &str,
) -> Result<Request, Refused>
    requires { query.now ≡ query_of message.now.target }
    ensures { Gives result (on_tables account.now message.now) }
{
    let method = message.method.as_str();
    let headers = message.headers.as_slice();
    if method == "GET" {
        decided_tables(alloc, account, query, headers)
    } else if method == "POST" {
        decided_create(alloc, account, headers, message.body.as_slice())
    } else {
        Err(Refused::Why(Refusal::Method))
    }
}

/// What is asked of a table.
#[tactic(auto, unfolding(crate::specs::Decisions::on_table))]
fn on_table(
    alloc: Global,
    account: &str,
    message: &Message,
    name: TableName,
) -> Result<Request, Refused>
    ensures { Gives result (on_table account.now message.now name) }
{
    if message.method.as_str() == "DELETE" {
        decided_drop(alloc, account, message.headers.as_slice(), name)
    } else {
        Err(Refused::Why(Refusal::Method))
    }
}

/// What is asked of a table's rows.
#[tactic(auto, unfolding(crate::specs::Decisions::on_rows))]
fn on_rows(
    alloc: Global,
    account: &str,
    message: &Message,
    query: &str,
    name: TableName,
    scratch: &mut Scratch,
) -> Result<Request, Refused>
    requires { query.now ≡ query_of message.now.target }
    ensures { Gives result (on_rows account.now message.now name) }
{
    if message.method.as_str() == "GET" {
        return decided_page(alloc, account, query, message.headers.as_slice(), name);
    }
    let part = change_in_rows(alloc, message, name, scratch)?;
    Ok(change_request(alloc, account, part)?)
}

/// What is asked of one row.
#[tactic(auto, unfolding(crate::specs::Decisions::on_row))]
fn on_row(
    alloc: Global,
    account: &str,
    message: &Message,
    query: &str,
    name: TableName,
    keys: (KeyText, KeyText),
    scratch: &mut Scratch,
) -> Result<Request, Refused>
    requires { query.now ≡ query_of message.now.target }
    ensures { Gives result (on_row account.now message.now name keys) }
{
    if message.method.as_str() == "GET" {
        return decided_row(
            alloc,
            account,
            query,
            message.headers.as_slice(),
            name,
            keys,
        );
    }
    let part = change_of_row(alloc, message, name, keys, scratch)?;
    Ok(change_request(alloc, account, part)?)
}

/// Whether the reply to a batch is to have minimal metadata, which is said of every request with a body.
#[tactic(auto, unfolding(crate::specs::Decisions::on_batch))]
fn on_batch(alloc: Global, message: &Message) -> Result<Asked, Refused>
    ensures { Gives result (on_batch message.now) }
{
    if message.method.as_str() != "POST" {
        return Err(Refused::Why(Refusal::Method));
    }
    let minimal = format_with_body(alloc, message.headers.as_slice())?;
    Ok(Asked::Many { minimal })
}
