//! Cursors, which lend rows one after another and count them.

ghost use Rattle.std.specs.Prelude.{◌≡◌, ◌+◌, [], ◌∷◌, MatchOption, IfNone};

use crate::{Row, Steps};
use std::marker::Model;
use std::sync::ledger::Ledger;

/// Lends rows, one after another.
#[derive(Drop)]
pub struct Cursor<'a> {
    rest: &'a [Row],
}

impl<'a> Model for Cursor<'a> {
    ghost use Rattle.std.specs.Prelude.{List};
    ghost use Rattle.tab_rows.specs.Rows.{RowView};

    ghost Value = { List RowView };

    ghost view = { λ cursor. cursor.rest.now };
}

impl<'a> Cursor<'a> {
    /// The next row. A step is counted for each row that is given.
    pub fn next<L: Ledger>(&mut self, steps: &mut Steps<L>) -> Option<&'a Row>
        ensures row { MatchOption result (self.old ≡ []) (λ row. self.old ≡ row.now ∷ self.new) }
        ensures end { IfNone result (self.new ≡ []) }
        ensures counted { MatchOption result (steps.new ≡ steps.old) (λ row. steps.new ≡ steps.old + 1) }
    {
        let (row, rest) = self.rest.split_first()?;
        self.rest = rest;
        steps.tick();
        Some(row)
    }

    /// A cursor over these rows.
    pub(crate) fn over(rest: &'a [Row]) -> Cursor<'a>
        ensures { result ≡ rest.now }
    {
        Cursor { rest }
    }
}
