//! Requests and replies: from a message of a client to what it asks of the store or why it is refused, and from the
//! answer to the bytes of the reply.
#![tactic(auto)]

mod copies;
mod forms;
mod laws;
mod refusals;
mod replies;
mod requests;

pub use forms::{Form, PartForm, PartForms, Prefer, ReplyBytes, Request};
pub use laws::{
    batch_replies_are_plain, keys_are_read_where_spelled, lists_are_followed_by_their_header,
    messages_have_some_decision, pages_are_followed_by_their_headers, requests_are_signed,
    rows_are_read_where_spelled, versions_are_read_as_their_ticks,
};
pub(crate) use refusals::Refused;
pub use refusals::{PartRefusal, Refusal};
pub use replies::denials::refusal_reply;
pub use replies::ready::{http_fault, memory_reply};
pub use replies::reply_bytes;
pub use requests::decide::{
    Asked, Decided, decide, decide_with, messages_have_one_decision, requests_are_in_form,
};
pub use requests::table_queries::TableWindow;
pub use requests::targets::Resource;
pub use requests::writes::{Operation, Writing};
