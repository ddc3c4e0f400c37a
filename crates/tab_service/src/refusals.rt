//! Why a request is refused before the store is asked, and how calls say so.

use std::alloc::AllocError;
use tab_auth::AuthRefused;
use tab_batch::BatchRefused;
use tab_edm::EdmRefused;
use tab_json::JsonRefused;
use tab_keys::{KeyRefused, Memory};
use tab_ops::GroupRefused;
use tab_page::OptionRefused;

/// Why a request is refused before the store is asked.
#[derive(Debug, Drop)]
pub enum Refusal {
    /// It is not signed as it must be.
    Auth(AuthRefused),
    /// Its path is no form of one.
    Path,
    /// The table name in its path or its body is none.
    Name,
    /// A key in its path is none.
    Key(KeyRefused),
    /// Its method is not one of its resource.
    Method,
    /// It asks for a format that is not served.
    Format,
    /// The options of its query are not read.
    Options(OptionRefused),
    /// It has a filter, and asks for tables.
    FilterOfTables,
    /// Its condition is no ETag.
    Condition,
    /// It lacks a condition.
    NoCondition,
    /// Its body says no entity, or is no object.
    Body(JsonRefused),
    /// Its body names no table.
    NoTableName,
    /// Its body lacks a key.
    KeysMissing,
    /// Its body's properties make no entity.
    Entity(EdmRefused),
    /// It is a batch, and its Content-Type gives no boundary.
    NoBoundary,
    /// It is a batch, and the requests in its body are not read.
    Multipart(BatchRefused),
    /// It is a batch, and its operations make no group.
    Group(GroupRefused),
}

/// Why a batch is refused.
#[derive(Debug, Drop)]
pub struct PartRefusal {
    /// The index of the part that is refused, or none where the batch is refused as a whole.
    pub index: Option<usize>,
    /// Why.
    pub why: Refusal,
}

/// Why a call gives nothing: the request is refused, or no memory was found to read it.
#[derive(Debug, Drop)]
pub enum Refused<W = Refusal> {
    /// The request is refused.
    Why(W),
    /// No memory was found.
    Memory,
}

impl From<Refusal> for Refused<Refusal> {
    ghost use Rattle.std.specs.Prelude.{◌≡◌};
    ghost use Rattle.tab_service.specs.declared.refusals.Refused.TheVariants.{Why};

    ghost from_gives = { λ why refused. refused ≡ Why why };

    fn from(why: Refusal) -> Refused<Refusal> {
        Refused::Why(why)
    }
}

impl From<OptionRefused> for Refused<Refusal> {
    ghost use Rattle.std.specs.Prelude.{◌≡◌};
    ghost use Rattle.tab_service.specs.Refusals.{refused_option};

    ghost from_gives = { λ why refused. refused ≡ refused_option why };

    fn from(why: OptionRefused) -> Refused<Refusal> {
        match why {
            OptionRefused::Memory => Refused::Memory,
            _ => Refused::Why(Refusal::Options(why)),
        }
    }
}

impl<W: Drop> From<Memory> for Refused<W> {
    ghost use Rattle.std.specs.Prelude.{◌≡◌};
    ghost use Rattle.tab_service.specs.declared.refusals.Refused.TheVariants as refused;

    ghost from_gives = { λ _ why. why ≡ refused.Memory };

    fn from(_error: Memory) -> Refused<W> {
        Refused::Memory
    }
}

impl<W: Drop> From<AllocError> for Refused<W> {
    ghost use Rattle.std.specs.Prelude.{◌≡◌};
    ghost use Rattle.tab_service.specs.declared.refusals.Refused.TheVariants as refused;

    ghost from_gives = { λ _ why. why ≡ refused.Memory };

    fn from(_error: AllocError) -> Refused<W> {
        Refused::Memory
    }
}
