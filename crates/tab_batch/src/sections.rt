//! A change set, read line by line.
ghost use Rattle.std.specs.Prelude.{◌≡◌, ℕ, ◌+◌, ◌≤◌, [], IfOk, IfErr, OnOk, Ok, All, length};
ghost use Rattle.tab_batch.specs.Marks.{Blocks, add_line};
ghost use Rattle.tab_batch.specs.Parts.{Found};
ghost use Rattle.tab_batch.specs.Reading.{seen, Tells, from_state, behind_those, behind_ended, from_section, no_blocks, IsBelow, StateBelow, SectionBelow, state_behind};
ghost use Rattle.tab_batch.specs.declared.sections.ChangeSetState.TheVariants.{Before};

use crate::byte_ranges::ByteRange;
use crate::lines::BodyLine;
use crate::marks::Mark;
use crate::refusals::{BatchRefused, Memory};
use std::alloc::Global;

/// How far the reading of a change set has come.
#[derive(Clone, Copy)]
pub enum ChangeSetState {
    /// Before its first mark.
    Before,
    /// In the head of a part.
    Head,
    /// In the request of a part, which stands here so far.
    Text(ByteRange),
    /// Behind its closing line.
    Closed,
    /// Behind a line that breaks a rule, at this offset.
    Broken(usize),
}

/// A change set as its lines are read.
#[derive(Drop)]
pub struct Section {
    state: ChangeSetState,
    /// Where the requests stand of the parts that have ended.
    ranges: Vec<ByteRange>,
}

impl Section {
    /// One of which no line was read.
    pub fn new(alloc: Global) -> Section
        ensures state { result.state ≡ Before }
        ensures ranges { result.ranges.items ≡ [] }
    {
        Section {
            state: ChangeSetState::Before,
            ranges: Vec::new(alloc),
        }
    }

    /// Takes the next line, and what it marks under the boundary of the change set.
    pub fn take(&mut self, mark: Option<Mark>, line: BodyLine<'_>) -> Result<(), Memory>
        requires below { SectionBelow line.start self.old }
        requires inside { line.start + length line.text.now ≤ line.next }
        ensures goes_on { OnOk result ((size : ℕ) (blocks : Blocks) → from_section size self.old.ranges.items self.old.state (add_line (seen line.entry) mark blocks) ≡ from_section size self.new.ranges.items self.new.state blocks) }
        ensures below { OnOk result (SectionBelow line.entry.next self.new) }
    {
        self.end_request(mark)?;
        self.state = self.state.behind(mark, line);
        Ok(())
    }

    /// Keeps the request that ends with the mark.
    fn end_request(&mut self, mark: Option<Mark>) -> Result<(), Memory>
        ensures state { self.new.state ≡ self.old.state }
        ensures ended { OnOk result ((more : Found) → behind_those self.new.ranges.items more ≡ behind_those self.old.ranges.items (behind_ended self.old.state mark more)) }
        ensures below { OnOk result ((at : ℕ) → SectionBelow at self.old → SectionBelow at self.new) }
    {
        if mark.is_none() {
            return Ok(());
        }
        if let ChangeSetState::Text(range) = self.state {
            self.ranges.push(range)?;
        }
        Ok(())
    }

    /// The requests, where no more lines follow and the body has that size.
    pub fn finish(self, size: usize) -> Result<Vec<ByteRange>, BatchRefused>
        ensures found { IfOk result (λ ranges. from_section size self.ranges.items self.state no_blocks ≡ Ok ranges.items) }
        ensures refused { IfErr result (Tells (from_section size self.ranges.items self.state no_blocks)) }
        ensures kept { IfOk result (λ ranges. ranges.items ≡ self.ranges.items) }
    {
        match self.state {
            ChangeSetState::Closed => Ok(self.ranges),
            ChangeSetState::Broken(at) => Err(BatchRefused::BadMultipart { at }),
            ChangeSetState::Before | ChangeSetState::Head | ChangeSetState::Text(_) => {
                Err(BatchRefused::BadMultipart { at: size })
            }
        }
    }
}

impl ChangeSetState {
    /// The state behind one more line, with what it marks.
    fn behind(self, mark: Option<Mark>, line: BodyLine<'_>) -> ChangeSetState
        requires below { StateBelow line.start self }
        requires inside { line.start + length line.text.now ≤ line.next }
        ensures goes_on { (size : ℕ) (blocks : Blocks) → from_state size self (add_line (seen line.entry) mark blocks) ≡ behind_ended self mark (from_state size result blocks) }
        ensures below { StateBelow line.entry.next result }
    {
        match self {
            ChangeSetState::Before => match mark {
                Some(mark) => ChangeSetState::behind_mark(mark),
                None => ChangeSetState::Before,
            },
            ChangeSetState::Head => match mark {
                Some(_) => ChangeSetState::Broken(line.start),
                None if line.text.is_empty() => ChangeSetState::Text(ByteRange {
                    start: line.next,
                    end: line.next,
                }),
                None => ChangeSetState::Head,
            },
            ChangeSetState::Text(range) => match mark {
                Some(mark) => ChangeSetState::behind_mark(mark),
                None => ChangeSetState::Text(ByteRange {
                    start: range.start,
                    end: line.start + line.text.len(),
                }),
            },
            ChangeSetState::Closed => ChangeSetState::Closed,
            ChangeSetState::Broken(at) => ChangeSetState::Broken(at),
        }
    }

    fn behind_mark(mark: Mark) -> ChangeSetState
        ensures { result ≡ state_behind mark }
    {
        match mark {
            Mark::Delimiter => ChangeSetState::Head,
            Mark::Closing => ChangeSetState::Closed,
        }
    }
}
