//! What a request asks, and in which form its reply is wanted.
ghost use Rattle.std.specs.Prelude.{◌≡◌, [], ◌∷◌, IfOk};
ghost use Rattle.tab_service.specs.Requests.{form_of, plain_part};

use crate::copies::owned;
use std::alloc::Global;
use std::marker::Model;
use std::slice;
use tab_edm::TextValue;
use tab_history::Ask;
use tab_json::JsonForm;
use tab_keys::Memory;
use tab_page::Select;

/// What a client prefers as the reply to an insert.
#[derive(Clone, Copy, Debug, PartialEq, Eq)]
pub enum Prefer {
    /// Nothing that counts.
    Unsaid,
    /// The entity.
    Content,
    /// No body.
    NoContent,
}

/// How the reply to one operation, or to a request that is none, is wanted.
#[derive(Clone, Copy, Debug, PartialEq, Eq)]
pub struct PartForm {
    /// Whether the operation is an insert.
    pub insert: bool,
    /// Whether the operation is a delete.
    pub delete: bool,
    /// Whether the reply is to have minimal metadata.
    pub minimal: bool,
    /// What is preferred, for an insert and for the making of a table.
    pub prefer: Prefer,
}

/// The forms of the parts of a request, in their order.
#[derive(Debug, Drop)]
pub struct PartForms {
    forms: FormList,
}

/// Forms of parts: one, which takes no memory, or any number.
#[derive(Debug, Drop)]
enum FormList {
    One(PartForm),
    Many(Vec<PartForm>),
}

impl Model for PartForms {
    ghost use Rattle.std.specs.Prelude.{List};
    ghost use Rattle.tab_service.specs.FormLists.{forms_in};
    ghost use Rattle.tab_service.specs.declared.forms.PartForm.{PartForm};

    ghost Value = { List PartForm };

    ghost view = { λ parts. forms_in parts.forms };
}

impl PartForms {
    /// These forms. It takes no memory.
    pub fn new(forms: Vec<PartForm>) -> PartForms
        ensures { result ≡ forms.items }
    {
        PartForms {
            forms: FormList::Many(forms),
        }
    }

    /// The form of the only part. It takes no memory.
    pub fn of(form: PartForm) -> PartForms
        ensures { result ≡ form ∷ [] }
    {
        PartForms {
            forms: FormList::One(form),
        }
    }

    /// The forms, one for each part.
    pub fn as_slice(&self) -> &[PartForm]
        ensures { result.now ≡ self.now }
    {
        match &self.forms {
            FormList::One(form) => slice::from_ref(form),
            FormList::Many(forms) => forms.as_slice(),
        }
    }
}

/// How a request wants its reply.
#[derive(Debug, Drop)]
pub struct Form {
    /// The account in the request's path.
    pub account: TextValue,
    /// Whether the request is a batch.
    pub batch: bool,
    /// What the request asks for itself. The replies to the operations of a batch go by their parts alone.
    pub json: JsonForm,
    /// One for each operation of a batch, and else one.
    pub parts: PartForms,
}

/// The form of a request with one part, whose reply has these properties.
pub(crate) fn form_of(
    alloc: Global,
    account: &str,
    select: Select,
    part: PartForm,
) -> Result<Form, Memory>
    ensures { IfOk result (λ form. form ≡ form_of account.now select part) }
{
    let minimal = part.minimal;
    Ok(Form {
        account: owned(alloc, account)?,
        batch: false,
        json: JsonForm { minimal, select },
        parts: PartForms::of(part),
    })
}

/// The form of a part that is no operation.
pub(crate) fn plain_part(minimal: bool, prefer: Prefer) -> PartForm
    ensures { result ≡ plain_part minimal prefer }
{
    PartForm {
        insert: false,
        delete: false,
        minimal,
        prefer,
    }
}

/// What a message asks, and how it wants its reply.
#[derive(Debug, Drop)]
pub struct Request {
    /// What the store is asked.
    pub ask: Ask,
    /// How the reply is wanted.
    pub form: Form,
}

/// The bytes of a reply.
#[derive(Debug, Drop)]
pub struct ReplyBytes {
    bytes: Vec<u8>,
}

impl Model for ReplyBytes {
    ghost use Rattle.std.specs.Prelude.{List, ℕ, vec_items};

    ghost Value = { List ℕ };

    ghost view = { λ reply. reply.bytes.items };
}

impl ReplyBytes {
    /// These bytes. It takes no memory.
    pub fn new(bytes: Vec<u8>) -> ReplyBytes
        ensures { result ≡ bytes.items }
    {
        ReplyBytes { bytes }
    }

    /// The whole message of HTTP/1.1: head and body.
    pub fn as_slice(&self) -> &[u8]
        ensures { result.now ≡ self.now }
    {
        self.bytes.as_slice()
    }
}
