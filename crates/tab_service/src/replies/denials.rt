//! The replies that say why a request is not answered as asked: to a whole request, or as the part of a batch with its index.
ghost use Rattle.std.specs.Prelude.{◌≡◌, ◌≤◌, ◌++◌, IfOk, codes, decimal, string_bytes};
ghost use Rattle.http.specs.StatusCode.{IsStatusCode};
ghost use Rattle.tab_edm.specs.Moments.{text_of_etag};
ghost use Rattle.tab_edm.specs.declared.TheConstants.{GREATEST};
ghost use Rattle.tab_service.specs.Causes.{indexed_text};
ghost use Rattle.tab_service.specs.Causes as cause;
ghost use Rattle.tab_service.specs.CauseViews.{words, cause_view};
ghost use Rattle.tab_service.specs.Refusals.{refusal_text};
ghost use Rattle.tab_service.specs.Replies.{SuitsRefusal, SuitsDenial, fault_reply, error_text, error_text_at, index_in, refused_reply, denied_reply, memory_fault};

use super::batches::batch_reply;
use super::causes::{
    Cause, cause_of, entity_there, entity_too_large, named, no_entity, no_table, numbers_spent,
    table_there, time_spent, too_many_properties,
};
use super::heads::{etag_of, reply_with_body};
use super::ready::memory_reply;
use crate::Refusal;
use std::alloc::Global;
use tab_history::{Ask, Denied};
use tab_json::write_fault;
use tab_keys::Memory;
use tab_ops::OpRefused;

/// The type of the bodies that say why.
const JSON: &str = "application/json";

/// The bytes of the reply to a refused request, or to a batch of which the part of this index is refused.
pub fn refusal_reply(
    alloc: Global,
    index: Option<usize>,
    refusal: &Refusal,
) -> Result<Vec<u8>, Memory>
    ensures { IfOk result (λ bytes. bytes.items ≡ refusal_text index refusal.now) }
{
    cause_reply(alloc, index, &cause_of(refusal))
}

/// The reply to a request that the store denied.
#[tactic(auto, unfolding(crate::specs::Replies::denied_reply, crate::specs::Replies::fault_at))]
pub fn denied_reply(alloc: Global, batch: bool, ask: &Ask, why: Denied) -> Result<Vec<u8>, Memory>
    requires { SuitsDenial batch ask.now why }
    ensures { IfOk result (λ bytes. bytes.items ≡ denied_reply batch why) }
{
    match why {
        Denied::Op(refused) => refused_reply(alloc, batch, ask, refused),
        Denied::NoTable => cause_reply(alloc, index_in(batch, 0), &no_table()),
        Denied::TableThere => cause_reply(alloc, None, &table_there()),
        Denied::NotFound => cause_reply(alloc, None, &no_entity()),
        Denied::Busy { plan } => number_reply(
            alloc,
            503,
            "ServerBusy",
            "The server is busy: plan ",
            plan,
            ".",
        ),
        Denied::TimeSpent => cause_reply(alloc, None, &time_spent()),
        Denied::IdsSpent => cause_reply(alloc, None, &numbers_spent()),
        Denied::DiskFault { disk } => {
            number_reply(alloc, 500, "DiskFault", "Disk ", disk, " failed.")
        }
        Denied::Damaged { disk, at } => damaged_reply(alloc, disk, at),
        Denied::Memory => memory_bytes(alloc),
    }
}

#[tactic(auto, unfolding(crate::specs::Replies::refused_reply))]
fn refused_reply(
    alloc: Global,
    batch: bool,
    ask: &Ask,
    refused: OpRefused,
) -> Result<Vec<u8>, Memory>
    requires { SuitsRefusal ask.now refused }
    ensures { IfOk result (λ bytes. bytes.items ≡ refused_reply batch refused) }
{
    match refused {
        OpRefused::AlreadyThere { index } => {
            cause_reply(alloc, index_in(batch, index), &entity_there())
        }
        OpRefused::NotThere { index } => cause_reply(alloc, index_in(batch, index), &no_entity()),
        OpRefused::Condition { index, tick } => {
            condition_reply(alloc, index_in(batch, index), tick)
        }
        OpRefused::TooMany { index } => {
            cause_reply(alloc, index_in(batch, index), &too_many_properties())
        }
        OpRefused::TooLarge { index } => {
            cause_reply(alloc, index_in(batch, index), &entity_too_large())
        }
        OpRefused::Memory => memory_bytes(alloc),
    }
}

/// The reply to an operation that wants another version than the kept one.
fn condition_reply(alloc: Global, index: Option<usize>, tick: u64) -> Result<Vec<u8>, Memory>
    requires { tick ≤ GREATEST }
    ensures { IfOk result (λ bytes. bytes.items ≡ error_text_at index (cause.other_version (text_of_etag tick))) }
{
    let etag = etag_of(alloc, tick)?;
    let code = "UpdateConditionNotSatisfied";
    let why = named(412, code, "The kept version is ", etag.as_str(), ".");
    cause_reply(alloc, index, &why)
}

/// The reply by a cause that has a number between its words.
#[tactic(auto, unfolding(crate::specs::Replies::fault_at))]
fn number_reply(
    alloc: Global,
    status: u16,
    code: &'static str,
    before: &'static str,
    number: u64,
    after: &'static str,
) -> Result<Vec<u8>, Memory>
    requires { IsStatusCode status }
    ensures { IfOk result (λ bytes. bytes.items ≡ fault_reply status code.now (before.now ++ decimal number ++ after.now)) }
{
    let number = number.to_string(alloc)?;
    let why = named(status, code, before, number.as_str(), after);
    cause_reply(alloc, None, &why)
}

/// The reply to a request for which a disk was read that has, at this byte, what the store did not write.
#[tactic(auto, unfolding(crate::specs::Replies::fault_at))]
fn damaged_reply(alloc: Global, disk: u64, at: u64) -> Result<Vec<u8>, Memory>
    ensures { IfOk result (λ bytes. bytes.items ≡ error_text (cause.disk_damaged disk at)) }
{
    let text = damaged_text(alloc, disk, at)?;
    let why = named(500, "StoreDamaged", "", "", text.as_str());
    cause_reply(alloc, None, &why)
}

fn damaged_text(alloc: Global, disk: u64, at: u64) -> Result<String, Memory>
    ensures { IfOk result (λ text. string_bytes text ≡ (cause.disk_damaged disk at).text) }
{
    Ok(format!(in alloc; "Disk {disk} is damaged at {at}.")?)
}

/// The index of an operation, where it is one of a batch.
fn index_in(batch: bool, index: usize) -> Option<usize>
    ensures { result ≡ index_in batch index }
{
    if batch { Some(index) } else { None }
}

/// A copy of the reply that no memory was found.
fn memory_bytes(alloc: Global) -> Result<Vec<u8>, Memory>
    ensures { IfOk result (λ bytes. bytes.items ≡ memory_fault) }
{
    Vec::from_slice(alloc, memory_reply()).map_err(|_| Memory)
}

// ---- by a cause

/// The reply by a cause: to the whole request, or as the only part of the reply to a batch, with its index.
#[tactic(auto, unfolding(crate::specs::Replies::fault_at))]
fn cause_reply(alloc: Global, index: Option<usize>, cause: &Cause<'_>) -> Result<Vec<u8>, Memory>
    ensures { IfOk result (λ bytes. bytes.items ≡ error_text_at index (cause_view cause.now)) }
{
    let status = cause.status.as_u16();
    let text = said(alloc, cause)?;
    match index {
        None => fault_bytes(alloc, status, cause.code, text.as_str()),
        Some(index) => {
            let text = indexed(alloc, index, text.as_str())?;
            let part = fault_bytes(alloc, status, cause.code, text.as_str())?;
            batch_reply(alloc, &[part])
        }
    }
}

/// The words of a cause.
fn said(alloc: Global, why: &Cause<'_>) -> Result<String, Memory>
    ensures { IfOk result (λ said. string_bytes said ≡ words why.now) }
{
    let (before, name, after) = (why.before, why.name, why.after);
    match why.at {
        None => Ok(format!(in alloc; "{before}{name}{after}")?),
        Some(at) => {
            let front = joined(alloc, before, name)?;
            placed(alloc, front.as_str(), at, after)
        }
    }
}

fn joined(alloc: Global, before: &str, name: &str) -> Result<String, Memory>
    ensures { IfOk result (λ text. string_bytes text ≡ before.now ++ name.now) }
{
    Ok(format!(in alloc; "{before}{name}")?)
}

fn placed(alloc: Global, before: &str, at: usize, after: &str) -> Result<String, Memory>
    ensures { IfOk result (λ text. string_bytes text ≡ before.now ++ decimal at ++ after.now) }
{
    Ok(format!(in alloc; "{before}{at}{after}")?)
}

/// The text behind the index of the operation that it is of.
fn indexed(alloc: Global, index: usize, text: &str) -> Result<String, Memory>
    ensures { IfOk result (λ indexed. string_bytes indexed ≡ indexed_text index text.now) }
{
    Ok(format!(in alloc; "{index}:{text}")?)
}

#[tactic(auto, unfolding(crate::specs::Replies::fault_reply))]
fn fault_bytes(alloc: Global, status: u16, code: &str, text: &str) -> Result<Vec<u8>, Memory>
    requires { IsStatusCode status }
    ensures { IfOk result (λ bytes. bytes.items ≡ fault_reply status code.now text.now) }
{
    let body = write_fault(alloc, code, text)?;
    reply_with_body(alloc, status, JSON, &[], body.as_str())
}
