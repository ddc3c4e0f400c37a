//! What the holders of an office know of one another's calls. Only clauses have views: no value of one is made.
use std::collections::LinkedList;
use tab_keys::Span;

/// One call of an office: its number among all of them, what it was, and its moment in ticks.
pub struct Stroke<C> {
    pub number: u64,
    pub command: C,
    pub now: u64,
}

/// The span and the log of a seat, and the word as it was when they were copied.
pub struct LogCopy<C> {
    pub span: Span,
    pub log: LinkedList<Stroke<C>>,
    pub word: u64,
}

/// What a seat, a slip, a note or a pass knows and may do. A seat has a span, and the two notes of its last fuse.
/// A slip has a front and one permit. A note has the copy that it is. A pass has what it has met, and `rights` are
/// its `mine`, the numbers of its calls.
pub struct View<C> {
    pub span: Option<Span>,
    pub log: LinkedList<Stroke<C>>,
    pub notes: LinkedList<LogCopy<C>>,
    /// Numbers that are drawn next are not below it.
    pub front: u64,
    /// How many strokes may be drawn.
    pub permits: u64,
    /// The numbers that a pass lists, or that a seat can let a pass list.
    pub rights: LinkedList<u64>,
}
