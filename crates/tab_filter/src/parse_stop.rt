//! Why the reading of a filter stops.

use std::alloc::AllocError;
use tab_keys::Memory;

/// Why a reader stops, with the characters that are left.
#[derive(Clone, Copy, Debug)]
pub enum ParseStop<'a> {
    /// No memory was found.
    Memory,
    /// The grammar does not go on with the first of them.
    Syntax(&'a [char]),
    /// They begin with no literal, where one is due.
    BadLiteral(&'a [char]),
    /// They begin with a `(` or a `not`, and as many are open as may be.
    Deep(&'a [char]),
    /// A comparison is one too many.
    TooMany,
}

impl<'a> From<AllocError> for ParseStop<'a> {
    ghost use Rattle.std.specs.Prelude.{◌≡◌};
    ghost use Rattle.tab_filter.specs.declared.parse_stop.ParseStop.TheVariants as stops;

    ghost from_gives = { λ _ stop. stop ≡ stops.Memory };

    fn from(_error: AllocError) -> ParseStop<'a> {
        ParseStop::Memory
    }
}

impl<'a> From<Memory> for ParseStop<'a> {
    ghost use Rattle.std.specs.Prelude.{◌≡◌};
    ghost use Rattle.tab_filter.specs.declared.parse_stop.ParseStop.TheVariants as stops;

    ghost from_gives = { λ _ stop. stop ≡ stops.Memory };

    fn from(_error: Memory) -> ParseStop<'a> {
        ParseStop::Memory
    }
}
