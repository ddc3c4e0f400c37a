//! From an answer to the bytes of its reply (HTTP/1.1, RFC 9112; the bodies of the Table service).
ghost use Rattle.std.specs.Prelude.{◌≡◌, ◌≤◌, IfOk};
ghost use Rattle.tab_edm.specs.declared.TheConstants.{GREATEST};
ghost use Rattle.tab_service.specs.Forms.{IsFormOf};
ghost use Rattle.tab_service.specs.Replies.{IsGet, IsPage, IsChange, Suits, found_reply, listed_reply, changed_reply, reply_text};

pub mod batches;
pub mod causes;
pub mod denials;
pub mod heads;
pub mod ready;
pub mod rows;
pub mod tables;

use self::denials::denied_reply;
use self::heads::bodiless_bytes;
use self::rows::{change_reply, page_reply, row_reply};
use self::tables::{made_reply, tables_reply};
use crate::{Form, Request};
use std::alloc::Global;
use tab_history::{Ask, Reply};
use tab_keys::Memory;
use tab_page::Page;
use tab_rows::Row;

/// The bytes of the reply to a request.
#[tactic(auto, unfolding(crate::specs::Replies::reply_text))]
pub fn reply_bytes(alloc: Global, request: &Request, reply: &Reply) -> Result<Vec<u8>, Memory>
    requires { Suits request.now reply.now }
    ensures { IfOk result (λ bytes. bytes.items ≡ reply_text request.now reply.now) }
{
    let form = &request.form;
    match reply {
        Reply::Found(row) => found_reply(alloc, form, &request.ask, row),
        Reply::Listed(page) => listed_reply(alloc, form, &request.ask, page),
        Reply::Changed(tick) => changed_reply(alloc, form, &request.ask, *tick),
        Reply::Made(name) => made_reply(alloc, form, name),
        Reply::Dropped => bodiless_bytes(alloc, &[]),
        Reply::Tables { names, next } => tables_reply(alloc, form, names, next),
        Reply::Denied(why) => denied_reply(alloc, form.batch, &request.ask, *why),
    }
}

/// The row that was asked for.
fn found_reply(alloc: Global, form: &Form, ask: &Ask, row: &Row) -> Result<Vec<u8>, Memory>
    requires { IsGet ask.now }
    ensures { IfOk result (λ bytes. bytes.items ≡ found_reply form.now ask.now row.now) }
{
    match ask {
        Ask::Get { name, .. } => row_reply(alloc, form, name, row),
        _ => unreachable!(),
    }
}

/// The page that was asked for.
fn listed_reply(alloc: Global, form: &Form, ask: &Ask, page: &Page) -> Result<Vec<u8>, Memory>
    requires { IsPage ask.now }
    ensures { IfOk result (λ bytes. bytes.items ≡ listed_reply form.now ask.now page.now) }
{
    match ask {
        Ask::Page { name, .. } => page_reply(alloc, form, name, page),
        _ => unreachable!(),
    }
}

/// What came of a change.
fn changed_reply(alloc: Global, form: &Form, ask: &Ask, tick: u64) -> Result<Vec<u8>, Memory>
    requires form { IsFormOf ask.now form.now }
    requires change { IsChange ask.now }
    requires in_time { tick ≤ GREATEST }
    ensures { IfOk result (λ bytes. bytes.items ≡ changed_reply form.now ask.now tick) }
{
    match ask {
        Ask::Change { group } => change_reply(alloc, form, group, tick),
        _ => unreachable!(),
    }
}
