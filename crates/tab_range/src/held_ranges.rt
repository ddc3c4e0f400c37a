//! A range with its rows in memory, and what a command comes to over it.
ghost use Rattle.std.specs.Prelude.{◌≡◌, ℕ, ◌+◌, ◌<◌, ◌≤◌, max, Some, None, Ok, Err, IsTrue, IfOk, IfErr, OnOk, OnErr, MatchOption, is_some, length, ⊤};
ghost use Rattle.tab_keys.specs.Spans.{has};
ghost use Rattle.tab_rows.specs.Rows.{row_at};
ghost use Rattle.tab_ops.specs.Changes.{applied};
ghost use Rattle.tab_page.specs.Pages.{page_below, start_key};
ghost use Rattle.tab_range.specs.Commands.{command_key};
ghost use Rattle.tab_range.specs.Outcomes.{found_or_not, unchanged, accepted, group_with_tick, IsDue, IsReply, AreOf, IsTimelyDenial, HasGroup};
ghost use Rattle.tab_range.specs.Ranges.{LieIn, range_outcome, DrewOne};

use crate::commands::key_of;
use crate::{Answer, Backing, Command, Told, What};
use std::alloc::Global;
use std::marker::{Brand, Model};
use std::sync::ledger::{Blank, Ledger};
use tab_edm::GREATEST;
use tab_history::{Denied, Reply};
use tab_keys::{KeyText, Memory, Span};
use tab_ops::{ChangeList, Changes, Group, OpRefused, plan};
use tab_page::{Options, Page, page};
use tab_rows::{Change, Rows, Steps};

/// The rows of a span of keys, with the least tick that their next change may have. A range that takes commands has a
/// tally, which numbers them, and allows what they left.
#[derive(Drop)]
pub struct HeldRange<T: Backing> {
    id: u64,
    span: Span,
    rows: Rows,
    next_tick: u64,
    tally: Option<T>,
}

impl<T: Backing> Model for HeldRange<T> {
    ghost use Rattle.std.specs.Prelude.{MatchOption, ⊤};
    ghost use Rattle.tab_range.specs.Ranges.{RangeView, LieIn};

    ghost Value = { RangeView T };

    ghost view = { λ range. record { id = range.id; span = range.span; rows = range.rows.rows; spare = range.rows.spare; next_tick = range.next_tick; tally = range.tally } };

    ghost invariant = { λ range. LieIn range.span range.rows.rows × MatchOption range.tally ⊤ (λ tally. T.covers tally range.span × T.allows tally range.span range.rows.rows range.next_tick) };
}

impl<T: Backing> HeldRange<T> {
    /// A range without a tally.
    pub fn new(id: u64, span: Span, rows: Rows, next_tick: u64) -> HeldRange<T>
        requires { LieIn span rows.rows }
        ensures { result ≡ record { id = id; span = span; rows = rows.rows; spare = rows.spare; next_tick = next_tick; tally = None } }
    {
        HeldRange {
            id,
            span,
            rows,
            next_tick,
            tally: None,
        }
    }

    /// What every held range keeps. It does nothing.
    pub fn keeps(&self)
        ensures rows { LieIn self.now.span self.now.rows }
        ensures tally { MatchOption self.now.tally ⊤ (λ tally. T.covers tally self.now.span × T.allows tally self.now.span self.now.rows self.now.next_tick) }
    {
        let _ = &self.tally;
    }

    /// The range's number.
    pub fn id(&self) -> u64
        ensures { result ≡ self.now.id }
    {
        self.id
    }

    /// Its keys.
    pub fn span(&self) -> &Span
        ensures { result.now ≡ self.now.span }
    {
        &self.span
    }

    /// Its rows.
    pub fn rows(&self) -> &Rows
        ensures { result.now ≡ record { rows = self.now.rows; spare = self.now.spare } }
    {
        &self.rows
    }

    /// The least tick that its next change may have.
    pub fn next_tick(&self) -> u64
        ensures { result ≡ self.now.next_tick }
    {
        self.next_tick
    }

    /// Whether it has a tally.
    pub fn has_tally(&self) -> bool
        ensures { result ≡ is_some self.now.tally }
    {
        self.tally.is_some()
    }

    /// Puts a tally in.
    pub fn give(&mut self, tally: T)
        requires none { self.old.tally ≡ None }
        requires covers { T.covers tally self.old.span }
        requires allows { T.allows tally self.old.span self.old.rows self.old.next_tick }
        ensures { self.new ≡ record self.old { tally = Some tally } }
    {
        self.tally = Some(tally);
    }

    /// Takes the tally out, if there is one.
    pub fn take_tally(&mut self) -> Option<T>
        ensures taken { result ≡ self.old.tally }
        ensures left { self.new ≡ record self.old { tally = None } }
        ensures allows { MatchOption result ⊤ (λ tally. T.covers tally self.old.span × T.allows tally self.old.span self.old.rows self.old.next_tick) }
    {
        self.tally.take()
    }

    /// Finds memory, so that so many more rows can be put.
    pub fn reserve(&mut self, more: usize) -> Result<(), Memory>
        ensures kept { self.new ≡ record self.old { spare = self.new.spare } }
        ensures spare { self.old.spare ≤ self.new.spare }
        ensures ok { OnOk result (more ≤ self.new.spare) }
    {
        self.rows.reserve(more)
    }

    /// Decides a command at a moment in ticks. Nothing changes.
    pub fn answer(&self, alloc: Global, command: &Command, now: u64) -> Result<Answer, Denied>
        requires { IsTrue (has self.now.span (command_key command.now)) }
        ensures due { IsDue self.now.rows self.now.next_tick (range_outcome self.now command.now now) result }
        ensures changes { IfOk result (AreOf command.now) }
        ensures timely { IfErr result IsTimelyDenial }
    {
        match &command.what {
            What::Get { pk, rk } => self.answer_get(alloc, command.table, pk, rk),
            What::Page(options) => self.answer_page(alloc, command.table, options),
            What::Change(group) => self.answer_change(alloc, command.table, group, now),
        }
    }

    /// The row at a key, if one is there.
    fn answer_get(
        &self,
        alloc: Global,
        table: u64,
        pk: &KeyText,
        rk: &KeyText,
    ) -> Result<Answer, Denied>
        ensures due { IsDue self.now.rows self.now.next_tick (unchanged self.now.rows self.now.next_tick (found_or_not (row_at self.now.rows (record { table = table; pk = pk.now; rk = rk.now })))) result }
        ensures reply { IfOk result IsReply }
        ensures timely { IfErr result IsTimelyDenial }
    {
        let Ok(key) = key_of(alloc, table, pk, rk) else {
            return Err(Denied::Memory);
        };
        let Some(row) = self.rows.get(&key) else {
            return Err(Denied::NotFound);
        };
        match row.try_copy(alloc) {
            Ok(row) => Ok(Answer::Reply(Reply::Found(row))),
            Err(_) => Err(Denied::Memory),
        }
    }

    /// The page that ends with the range at the latest.
    fn answer_page(&self, alloc: Global, table: u64, options: &Options) -> Result<Answer, Denied>
        requires { IsTrue (has self.now.span (start_key table options.now)) }
        ensures due { IsDue self.now.rows self.now.next_tick (unchanged self.now.rows self.now.next_tick (Ok (Reply.Listed (page_below self.now.rows table options.now self.now.span.hi)))) result }
        ensures reply { IfOk result IsReply }
        ensures timely { IfErr result IsTimelyDenial }
    {
        match uncounted_page(alloc, &self.rows, table, &self.span, options) {
            Ok(page) => Ok(Answer::Reply(Reply::Listed(page))),
            Err(_) => Err(Denied::Memory),
        }
    }

    /// The changes of a group, or why it makes none.
    fn answer_change(
        &self,
        alloc: Global,
        table: u64,
        group: &Group,
        now: u64,
    ) -> Result<Answer, Denied>
        ensures due { IsDue self.now.rows self.now.next_tick (group_with_tick self.now.rows self.now.next_tick table group.now (max now self.now.next_tick)) result }
        ensures changes { IfOk result (AreOf (record { table = table; what = What.Change group.now })) }
        ensures timely { IfErr result IsTimelyDenial }
    {
        let tick = now.max(self.next_tick);
        if tick > GREATEST {
            return Err(Denied::TimeSpent);
        }
        match plan(alloc, &self.rows, table, group, tick) {
            Ok(changes) => Ok(Answer::Change(changes)),
            Err(OpRefused::Memory) => Err(Denied::Memory),
            Err(why) => Err(Denied::Op(why)),
        }
    }

    /// Makes the changes that the command which is told was answered, and draws its stroke. It takes no memory.
    pub fn apply(&mut self, changes: Changes, told: &Told, now: u64)
        requires due { range_outcome self.old told.now.command now ≡ accepted changes.tick (applied self.old.rows changes.list) }
        requires tick { told.now.tick ≡ Some changes.tick }
        requires inside { IsTrue (has self.old.span (command_key told.now.command)) }
        requires room { length changes.list ≤ self.old.spare }
        requires ready { (tally : T) × (self.old.tally ≡ Some tally) × T.ready tally 1 }
        ensures made { self.new ≡ record self.old { rows = applied self.old.rows changes.list; next_tick = changes.tick + 1; spare = self.new.spare; tally = self.new.tally } }
        ensures room { self.new.spare + length self.new.rows ≡ self.old.spare + length self.old.rows }
        ensures drew { DrewOne T.drew T.ready T.kin told.now now self.old.tally self.new.tally }
    {
        has_groups(&told.command);
        self.next_tick = changes.tick + 1;
        make_changes(&mut self.rows, changes.list);
        let Some(tally) = &mut self.tally else {
            unreachable!()
        };
        tally.stroke(told, now);
    }

    /// Draws the stroke of a command that changes nothing. It takes no memory.
    pub fn tell(&mut self, told: &Told, now: u64)
        requires due { (range_outcome self.old told.now.command now).tick ≡ None }
        requires tick { told.now.tick ≡ None }
        requires inside { IsTrue (has self.old.span (command_key told.now.command)) }
        requires ready { (tally : T) × (self.old.tally ≡ Some tally) × T.ready tally 1 }
        ensures kept { self.new ≡ record self.old { tally = self.new.tally } }
        ensures drew { DrewOne T.drew T.ready T.kin told.now now self.old.tally self.new.tally }
    {
        let Some(tally) = &mut self.tally else {
            unreachable!()
        };
        tally.stroke(told, now);
    }
}

fn uncounted_page(
    alloc: Global,
    rows: &Rows,
    table: u64,
    span: &Span,
    options: &Options,
) -> Result<Page, Memory>
    requires start { IsTrue (has span.now (start_key table options.now)) }
    requires inside { LieIn span.now rows.now.rows }
    ensures { IfOk result (λ page. page ≡ page_below rows.now.rows table options.now span.now.hi) }
{
    counted_page::<Brand>(alloc, rows, table, span, options, Blank::new(1))
}

fn counted_page<L: Ledger>(
    alloc: Global,
    rows: &Rows,
    table: u64,
    span: &Span,
    options: &Options,
    blank: Blank,
) -> Result<Page, Memory>
    requires start { IsTrue (has span.now (start_key table options.now)) }
    requires inside { LieIn span.now rows.now.rows }
    requires name { blank.name ≡ L.name }
    requires parts { blank.parts ≡ L.parts }
    requires some { 0 < blank.parts }
    ensures { IfOk result (λ page. page ≡ page_below rows.now.rows table options.now span.now.hi) }
{
    let mut steps = Steps::<L>::new(blank);
    page(alloc, rows, table, span, options, &mut steps)
}

/// Makes the changes, for which there is room.
fn make_changes(rows: &mut Rows, changes: ChangeList)
    requires { length changes ≤ rows.old.spare }
    ensures rows { rows.new.rows ≡ applied rows.old.rows changes }
    ensures room { rows.new.spare + length rows.new.rows ≡ rows.old.spare + length rows.old.rows }
{
    for change in changes.into_vec() {
        match change {
            Change::Put(row) => {
                rows.put(row);
            }
            Change::Take(key) => {
                rows.take(&key);
            }
        }
    }
}

// A change is asked by a group. It does nothing.
fn has_groups(command: &Command)
    ensures { HasGroup command.now.what }
{
    if let What::Change(group) = &command.what {
        let _ = group.items();
    }
}
