//! Spans: the keys between two bounds.

ghost use Rattle.std.specs.Prelude.{◌≡◌, IsTrue, IsFalse, MatchOption, IfOk};
ghost use Rattle.tab_keys.specs.Order.{bound_lt};
ghost use Rattle.tab_keys.specs.Spans.{has};

use crate::{Bound, Key, Memory};
use std::alloc::Global;
use std::marker::Model;

/// The keys from one bound up to a later one.
#[derive(Debug, Drop)]
pub struct Span {
    lo: Bound,
    hi: Bound,
}

impl Model for Span {
    ghost use Rattle.std.specs.Prelude.{IsTrue};
    ghost use Rattle.tab_keys.specs.Spans.{Interval};
    ghost use Rattle.tab_keys.specs.Order.{bound_lt};

    ghost Value = { Interval };

    ghost view = { λ span. record { lo = span.lo; hi = span.hi } };

    ghost invariant = { λ span. IsTrue (bound_lt span.lo span.hi) };
}

impl Span {
    /// The keys from `lo` on and below `hi`, if `lo` stands before `hi`.
    pub fn new(lo: Bound, hi: Bound) -> Option<Span>
        ensures { MatchOption result
            (IsFalse (bound_lt lo hi))
            (λ span. IsTrue (bound_lt lo hi) × (span ≡ record { lo = lo; hi = hi })) }
    {
        if lo < hi { Some(Span { lo, hi }) } else { None }
    }

    /// The bound that it begins at.
    pub fn lo(&self) -> &Bound
        ensures bound { result.now ≡ self.now.lo }
        ensures ordered { IsTrue (bound_lt self.now.lo self.now.hi) }
    {
        &self.lo
    }

    /// The bound that it ends before.
    pub fn hi(&self) -> &Bound
        ensures bound { result.now ≡ self.now.hi }
        ensures ordered { IsTrue (bound_lt self.now.lo self.now.hi) }
    {
        &self.hi
    }

    /// Whether the key is one of its keys.
    pub fn has(&self, key: &Key) -> bool
        ensures { result ≡ has self.now key.now }
    {
        !key.is_before(&self.lo) && key.is_before(&self.hi)
    }

    /// A copy, which shares the memory of its texts.
    pub fn try_copy(&self, alloc: Global) -> Result<Span, Memory>
        ensures { IfOk result (λ copy. copy ≡ self.now) }
    {
        Ok(Span {
            lo: self.lo.try_copy(alloc)?,
            hi: self.hi.try_copy(alloc)?,
        })
    }
}
