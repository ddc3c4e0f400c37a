//! The requests of a batch: the operations of its parts as one group, or its first refusal (multipart/mixed, RFC 2046,
//! section 5.1; the reference of Microsoft's Table service, "Performing entity group transactions").
ghost use Rattle.std.specs.Prelude.{◌≡◌, [], ◌∷◌, ◌++◌, IfOk, OnOk, Ok};
ghost use Rattle.std.specs.Option.{option_copied};
ghost use Rattle.tab_service.specs.Answers.{Answers, Gives};
ghost use Rattle.tab_service.specs.Batches.{part_on, part_of, operations_from, group_index, batch_form, grouped_request, unread, boundary_in, of_part, IsBatchOf};
ghost use Rattle.tab_batch.specs.Refusals.{IsDecided};

use super::names::{row_keys, table_name};
use super::targets::{Resource, resource_at, split_target};
use super::writes::{Operation, change_in_rows, change_of_row};
use crate::copies::owned;
use crate::{Form, PartForm, PartForms, PartRefusal, Refusal, Refused, Request};
use std::alloc::Global;
use std::marker::Model;
use tab_batch::{BatchRefused, boundary_of, read_batch};
use tab_history::Ask;
use tab_http::{Message, first_value};
use tab_json::{JsonForm, Scratch};
use tab_keys::Memory;
use tab_ops::{Group, GroupRefused, Item, MOST_ITEMS};
use tab_page::Select;

/// The request of a batch, or its first refusal.
#[tactic(auto, unfolding(crate::specs::Batches::IsBatchOf))]
pub fn batch_of(
    alloc: Global,
    account: &str,
    minimal: bool,
    message: &Message,
    scratch: &mut Scratch,
) -> Result<Request, Refused<PartRefusal>>
    ensures { Answers (IsBatchOf account.now minimal message.now) result }
{
    let Some(boundary) = boundary_in(message) else {
        return Err(Refused::Why(PartRefusal {
            index: None,
            why: Refusal::NoBoundary,
        }));
    };
    match read_batch(alloc, boundary, message.body.as_slice()) {
        Ok(messages) => batch_from(alloc, account, minimal, &messages, scratch),
        Err(why) => Err(Refused::Why(unread(why)?)),
    }
}

/// The refusal of a batch whose requests are not read, where it was not for want of memory.
fn unread(why: BatchRefused) -> Result<PartRefusal, Memory>
    ensures refused { IfOk result (λ refused. refused ≡ unread why) }
    ensures decided { IfOk result (λ refused. IsDecided why) }
{
    let index = match why {
        BatchRefused::BadMultipart { .. } => None,
        BatchRefused::BadPart { index } => Some(index),
        BatchRefused::Memory => return Err(Memory),
    };
    let why = Refusal::Multipart(why);
    Ok(PartRefusal { index, why })
}

/// The boundary that the first Content-Type header gives.
fn boundary_in(message: &Message) -> Option<&[u8]>
    ensures { option_copied result ≡ boundary_in message.now.headers }
{
    boundary_of(first_value(message.headers.as_slice(), "content-type")?)
}

/// The request of a batch with these parts.
fn batch_from(
    alloc: Global,
    account: &str,
    minimal: bool,
    messages: &[Message],
    scratch: &mut Scratch,
) -> Result<Request, Refused<PartRefusal>>
    ensures { Gives result (grouped_request account.now minimal (operations_from 0 account.now messages.now)) }
{
    let operations = operations_of(alloc, account, messages, scratch)?;
    group_from(alloc, account, minimal, operations)
}

// ---- operations

/// Operations, and the forms of their parts.
#[derive(Debug, Drop)]
struct Operations {
    items: Vec<Item>,
    forms: Vec<PartForm>,
}

impl Model for Operations {
    ghost use Rattle.std.specs.Prelude.{List, vec_items};
    ghost use Rattle.tab_service.specs.Batches.{Operations};

    ghost Value = { Operations };

    ghost view = { λ operations. (operations.items.items, operations.forms.items) };
}

impl Operations {
    fn new(alloc: Global) -> Operations
        ensures { result ≡ ([], []) }
    {
        Operations {
            items: Vec::new(alloc),
            forms: Vec::new(alloc),
        }
    }

    fn push(&mut self, part: Operation) -> Result<(), Memory>
        ensures { OnOk result (self.new ≡ (self.old.0 ++ part.item ∷ [], self.old.1 ++ part.form ∷ [])) }
    {
        let Operation { item, form } = part;
        self.items.push(item)?;
        self.forms.push(form)?;
        Ok(())
    }
}

/// The operations of parts, or the refusal of the first that has one.
fn operations_of(
    alloc: Global,
    account: &str,
    messages: &[Message],
    scratch: &mut Scratch,
) -> Result<Operations, Refused<PartRefusal>>
    ensures { Gives result (operations_from 0 account.now messages.now) }
{
    let mut operations = Operations::new(alloc);
    for (index, message) in messages.iter().enumerate() {
        match part_of(alloc, account, message, scratch) {
            Ok(part) => operations.push(part)?,
            Err(refused) => return Err(of_part(index, refused)),
        }
    }
    Ok(operations)
}

/// The same of the batch, for the part of this index.
fn of_part(index: usize, refused: Refused) -> Refused<PartRefusal>
    ensures { result ≡ of_part index refused }
{
    match refused {
        Refused::Why(why) => Refused::Why(PartRefusal {
            index: Some(index),
            why,
        }),
        Refused::Memory => Refused::Memory,
    }
}

/// The operation that a part asks for.
#[tactic(auto, unfolding(crate::specs::Batches::part_of))]
fn part_of(
    alloc: Global,
    account: &str,
    message: &Message,
    scratch: &mut Scratch,
) -> Result<Operation, Refused>
    ensures { Gives result (part_of account.now message.now) }
{
    let (path, _) = split_target(message.target.as_str());
    let resource = resource_at(alloc, account, path)?;
    part_on(alloc, message, &resource, scratch)
}

/// The operation that a part asks for on a resource: rows alone are changed in a batch.
fn part_on(
    alloc: Global,
    message: &Message,
    resource: &Resource,
    scratch: &mut Scratch,
) -> Result<Operation, Refused>
    ensures { Gives result (part_on message.now resource.now) }
{
    match resource {
        Resource::Rows(name) => {
            let name = table_name(alloc, name.as_str())?;
            change_in_rows(alloc, message, name, scratch)
        }
        Resource::Row(name, pk, rk) => {
            let name = table_name(alloc, name.as_str())?;
            let keys = row_keys(alloc, pk.as_str(), rk.as_str())?;
            change_of_row(alloc, message, name, keys, scratch)
        }
        Resource::Tables | Resource::Table(_) | Resource::Batch => {
            Err(Refused::Why(Refusal::Path))
        }
    }
}

// ---- groups

/// The request for operations as one group, or why they make none.
fn group_from(
    alloc: Global,
    account: &str,
    minimal: bool,
    operations: Operations,
) -> Result<Request, Refused<PartRefusal>>
    ensures { Gives result (grouped_request account.now minimal (Ok operations)) }
{
    let Operations { items, forms } = operations;
    match Group::new(items) {
        Ok(group) => {
            let form = batch_form(alloc, account, minimal, forms)?;
            let ask = Ask::Change { group };
            Ok(Request { ask, form })
        }
        Err(GroupRefused::Memory) => Err(Refused::Memory),
        Err(why) => Err(Refused::Why(PartRefusal {
            index: group_index(why),
            why: Refusal::Group(why),
        })),
    }
}

/// The index of the part for which operations make no group: for too many, that of the first behind the most.
fn group_index(why: GroupRefused) -> Option<usize>
    ensures { result ≡ group_index why }
{
    match why {
        GroupRefused::TooMany => Some(MOST_ITEMS),
        GroupRefused::MixedPartitions { index } | GroupRefused::DoubledRow { index } => Some(index),
        GroupRefused::Empty | GroupRefused::Memory => None,
    }
}

/// The form of a batch with these parts.
fn batch_form(
    alloc: Global,
    account: &str,
    minimal: bool,
    parts: Vec<PartForm>,
) -> Result<Form, Memory>
    ensures { IfOk result (λ form. form ≡ batch_form account.now minimal parts.items) }
{
    let select = Select::All;
    Ok(Form {
        account: owned(alloc, account)?,
        batch: true,
        json: JsonForm { minimal, select },
        parts: PartForms::new(parts),
    })
}
