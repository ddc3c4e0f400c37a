//! The causes for which no request is answered as asked: the status, the code and the words of each. The table is that of
//! `specs/Causes.antt`.
ghost use Rattle.std.specs.Prelude.{◌≡◌, ◌++◌, codes, decimal};
ghost use Rattle.http.specs.StatusCode.{IsStatusCode};
ghost use Rattle.tab_service.specs.Causes as cause;
ghost use Rattle.tab_service.specs.CauseViews.{cause_view};
ghost use Rattle.tab_service.specs.Refusals.{auth_cause, key_cause, filter_cause, option_cause, body_cause, entity_cause, multipart_cause, group_cause, cause_of};

use crate::Refusal;
use http::StatusCode;
use tab_auth::AuthRefused;
use tab_batch::BatchRefused;
use tab_edm::EdmRefused;
use tab_filter::FilterRefused;
use tab_json::JsonRefused;
use tab_keys::KeyRefused;
use tab_ops::GroupRefused;
use tab_page::OptionRefused;

/// Why a request is not answered as asked. Its words may have a name or a place in them.
#[derive(Clone, Copy)]
pub struct Cause<'a> {
    pub status: StatusCode,
    pub code: &'static str,
    pub before: &'static str,
    pub name: &'a str,
    pub at: Option<usize>,
    pub after: &'a str,
}

/// Gives a macro the status, the code and the text of want of memory, which the reply that stands ready has too.
macro_rules! out_of_memory {
    ($form:ident) => {
        $form!(507, "OutOfMemory", "No memory was found.")
    };
}

pub(crate) use out_of_memory;

macro_rules! row_of {
    ($status:literal, $code:literal, $text:literal) => {
        row($status, $code, $text)
    };
}

// ---- the table

/// Why a request is refused before the store is asked.
#[tactic(auto, unfolding(crate::specs::Refusals::cause_of))]
pub fn cause_of(refusal: &Refusal) -> Cause<'_>
    ensures { cause_view result ≡ cause_of refusal.now }
{
    match refusal {
        Refusal::Auth(why) => auth_cause(*why),
        Refusal::Path => input("The path is not one of this service."),
        Refusal::Name => input("The table name is not valid."),
        Refusal::Key(why) => key_cause(*why),
        Refusal::Method => row(405, "MethodNotAllowed", "The method is not allowed here."),
        Refusal::Format => format_cause(),
        Refusal::Options(why) => option_cause(*why),
        Refusal::FilterOfTables => input("$filter is not taken here."),
        Refusal::Condition => input("The If-Match value is not an ETag of this service."),
        Refusal::NoCondition => row(400, "MissingRequiredHeader", "If-Match is needed."),
        Refusal::Body(why) => body_cause(why),
        Refusal::NoTableName => input("TableName is missing or not a text."),
        Refusal::KeysMissing => {
            row(
                400,
                "PropertiesNeedValue",
                "PartitionKey and RowKey are needed.",
            )
        }
        Refusal::Entity(why) => entity_cause(why),
        Refusal::NoBoundary => input("The Content-Type has no boundary."),
        Refusal::Multipart(why) => multipart_cause(*why),
        Refusal::Group(why) => group_cause(*why),
    }
}

#[tactic(auto, unfolding(crate::specs::Refusals::auth_cause))]
fn auth_cause(why: AuthRefused) -> Cause<'static>
    ensures { cause_view result ≡ auth_cause why }
{
    match why {
        AuthRefused::Missing => denied("Authorization is missing or is not SharedKeyLite."),
        AuthRefused::UnknownAccount => denied("The account is not known here."),
        AuthRefused::DateUnread => denied("The date cannot be read."),
        AuthRefused::TooOld => denied("The date is more than 15 minutes old."),
        AuthRefused::TooEarly => denied("The date is more than 15 minutes ahead."),
        AuthRefused::Differs => denied("The signature differs."),
        AuthRefused::Memory => no_memory(),
    }
}

#[tactic(auto, unfolding(crate::specs::Refusals::key_cause))]
fn key_cause(why: KeyRefused) -> Cause<'static>
    ensures { cause_view result ≡ key_cause why }
{
    match why {
        KeyRefused::TooLong => row(400, "KeyValueTooLarge", "A key has at most 1024 units."),
        KeyRefused::BadCharacter => input("A key has a character that is not allowed."),
        KeyRefused::Memory => no_memory(),
    }
}

#[tactic(auto, unfolding(crate::specs::Refusals::option_cause))]
fn option_cause(why: OptionRefused) -> Cause<'static>
    ensures { cause_view result ≡ option_cause why }
{
    match why {
        OptionRefused::BadOption => input("A query option is given twice."),
        OptionRefused::BadTop => input("The value of $top is not 1 to 1000."),
        OptionRefused::BadToken => input("A continuation token cannot be read."),
        OptionRefused::Filter(why) => filter_cause(why),
        OptionRefused::Memory => no_memory(),
    }
}

#[tactic(auto, unfolding(crate::specs::Refusals::filter_cause))]
fn filter_cause(why: FilterRefused) -> Cause<'static>
    ensures { cause_view result ≡ filter_cause why }
{
    match why {
        FilterRefused::Syntax { at } => input_at("The filter cannot be read at ", at),
        FilterRefused::TooManyComparisons => input("The filter has more than 15 comparisons."),
        FilterRefused::BadLiteral { at } => input_at("The filter has a wrong literal at ", at),
        FilterRefused::Memory => no_memory(),
    }
}

#[tactic(auto, unfolding(crate::specs::Refusals::body_cause))]
fn body_cause(why: &JsonRefused) -> Cause<'_>
    ensures { cause_view result ≡ body_cause why.now }
{
    match why {
        JsonRefused::NotJson | JsonRefused::NotObject => input("The body is not one JSON object."),
        JsonRefused::ValueType(name) => {
            let name = name.as_str();
            named(
                400,
                "InvalidValueType",
                "The value of ",
                name,
                " is not of its type.",
            )
        }
        JsonRefused::Key(why) => key_cause(*why),
        JsonRefused::Memory => no_memory(),
    }
}

#[tactic(auto, unfolding(crate::specs::Refusals::entity_cause))]
fn entity_cause(why: &EdmRefused) -> Cause<'_>
    ensures { cause_view result ≡ entity_cause why.now }
{
    match why {
        EdmRefused::NameInvalid(property) => {
            let name = property.name.as_str();
            named(
                400,
                "PropertyNameInvalid",
                "The property name ",
                name,
                " is not valid.",
            )
        }
        EdmRefused::NameTooLong(_) => {
            let text = "A property name is longer than 255 characters.";
            row(400, "PropertyNameTooLong", text)
        }
        EdmRefused::ValueTooLarge(property) => {
            let name = property.name.as_str();
            named(
                400,
                "PropertyValueTooLarge",
                "The value of ",
                name,
                " is too large.",
            )
        }
        EdmRefused::TooMany => too_many_properties(),
        EdmRefused::TooLarge => entity_too_large(),
        EdmRefused::Memory => no_memory(),
    }
}

#[tactic(auto, unfolding(crate::specs::Refusals::multipart_cause))]
fn multipart_cause(why: BatchRefused) -> Cause<'static>
    ensures { cause_view result ≡ multipart_cause why }
{
    match why {
        BatchRefused::BadMultipart { at } => input_at("The multipart body cannot be read at ", at),
        BatchRefused::BadPart { .. } => input("The part is not an HTTP request."),
        BatchRefused::Memory => no_memory(),
    }
}

#[tactic(auto, unfolding(crate::specs::Refusals::group_cause))]
fn group_cause(why: GroupRefused) -> Cause<'static>
    ensures { cause_view result ≡ group_cause why }
{
    match why {
        GroupRefused::Empty => input("The change set is empty."),
        GroupRefused::TooMany => input("The change set has more than 100 operations."),
        GroupRefused::MixedPartitions { .. } => {
            let text = "The operations are not in one partition of one table.";
            row(400, "CommandsInBatchActOnDifferentPartitions", text)
        }
        GroupRefused::DoubledRow { .. } => {
            row(400, "InvalidDuplicateRow", "The entity is named twice.")
        }
        GroupRefused::Memory => no_memory(),
    }
}

// ---- rows of the table that several have

fn format_cause() -> Cause<'static>
    ensures { cause_view result ≡ cause.not_json_format }
{
    let text = "Only JSON with no or minimal metadata is served.";
    row(415, "JsonFormatNotSupported", text)
}

pub fn too_many_properties() -> Cause<'static>
    ensures { cause_view result ≡ cause.too_many_properties }
{
    row(
        400,
        "TooManyProperties",
        "An entity has at most 252 properties.",
    )
}

pub fn entity_too_large() -> Cause<'static>
    ensures { cause_view result ≡ cause.entity_too_large }
{
    row(
        400,
        "EntityTooLarge",
        "An entity has at most 1048576 bytes.",
    )
}

pub fn no_table() -> Cause<'static>
    ensures { cause_view result ≡ cause.no_table }
{
    row(404, "TableNotFound", "The table is not there.")
}

pub fn no_entity() -> Cause<'static>
    ensures { cause_view result ≡ cause.no_entity }
{
    row(404, "ResourceNotFound", "The entity is not there.")
}

pub fn table_there() -> Cause<'static>
    ensures { cause_view result ≡ cause.table_there }
{
    row(409, "TableAlreadyExists", "The table is there already.")
}

pub fn entity_there() -> Cause<'static>
    ensures { cause_view result ≡ cause.entity_there }
{
    row(409, "EntityAlreadyExists", "The entity is there already.")
}

pub fn time_spent() -> Cause<'static>
    ensures { cause_view result ≡ cause.time_spent }
{
    row(500, "TimeSpent", "The last moment is reached.")
}

pub fn numbers_spent() -> Cause<'static>
    ensures { cause_view result ≡ cause.numbers_spent }
{
    row(500, "IdsSpent", "No table number is left.")
}

fn no_memory() -> Cause<'static>
    ensures { cause_view result ≡ cause.no_memory }
{
    out_of_memory!(row_of)
}

/// A signature that is not taken.
fn denied(text: &'static str) -> Cause<'static>
    ensures { cause_view result ≡ cause.row 403 (codes "AuthenticationFailed") text.now }
{
    row(403, "AuthenticationFailed", text)
}

/// A request that is not read.
fn input(text: &'static str) -> Cause<'static>
    ensures { cause_view result ≡ cause.row 400 (codes "InvalidInput") text.now }
{
    row(400, "InvalidInput", text)
}

/// A request that is not read at this byte.
fn input_at(before: &'static str, at: usize) -> Cause<'static>
    ensures { cause_view result ≡ cause.row 400 (codes "InvalidInput") (before.now ++ decimal at ++ codes ".") }
{
    let status = StatusCode::BAD_REQUEST;
    Cause {
        status,
        code: "InvalidInput",
        before,
        name: "",
        at: Some(at),
        after: ".",
    }
}

/// A cause with a name between its words.
pub fn named<'a>(
    status: u16,
    code: &'static str,
    before: &'static str,
    name: &'a str,
    after: &'a str,
) -> Cause<'a>
    requires { IsStatusCode status }
    ensures { cause_view result ≡ cause.row status code.now (before.now ++ name.now ++ after.now) }
{
    let status = StatusCode::from_u16(status).unwrap();
    Cause {
        status,
        code,
        before,
        name,
        at: None,
        after,
    }
}

#[tactic(auto, using(crate::proofs::ReplyLemmas::plain_words))]
fn row(status: u16, code: &'static str, text: &'static str) -> Cause<'static>
    requires { IsStatusCode status }
    ensures { cause_view result ≡ cause.row status code.now text.now }
{
    named(status, code, text, "", "")
}
