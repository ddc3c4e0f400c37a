//! Bounds: the points of the space of keys at which it is cut, one before each partition and one past all keys.

ghost use Rattle.std.specs.Prelude.{◌≡◌, IfOk};
ghost use Rattle.std.specs.Cmp.{partial_equiv_from_equiv, eq_by_cmp_equiv, partial_order_from_total};
ghost use Rattle.std.specs.Ordering.{eq_by_cmp, as_partial_cmp};
ghost use Rattle.std.proofs.Common.{refl};
ghost use Rattle.tab_keys.specs.Order.{bound_cmp};
ghost use Rattle.tab_keys.specs.TotalOrders.{bound_cmp_total};

use crate::{KeyText, Memory};
use std::alloc::Global;
use std::cmp::Ordering;

/// A point between keys. Bounds are ordered as they stand among the keys.
#[derive(Debug, Drop)]
pub enum Bound {
    /// The point before all keys of this table and partition.
    At(u64, KeyText),
    /// The point past all keys.
    End,
}

impl Bound {
    /// A copy, which shares the memory of its texts.
    pub fn try_copy(&self, alloc: Global) -> Result<Bound, Memory>
        ensures { IfOk result (λ copy. copy ≡ self.now) }
    {
        match self {
            Bound::At(table, pk) => Ok(Bound::At(*table, pk.try_copy(alloc)?)),
            Bound::End => Ok(Bound::End),
        }
    }
}

impl PartialEq for Bound {
    ghost eq = { eq_by_cmp bound_cmp };

    ghost laws = { partial_equiv_from_equiv (eq_by_cmp_equiv bound_cmp_total) };

    fn eq(&self, other: &Bound) -> bool {
        self.cmp(other).is_eq()
    }
}

impl Eq for Bound {
    ghost laws = { eq_by_cmp_equiv bound_cmp_total };
}

impl PartialOrd for Bound {
    ghost partial_cmp = { as_partial_cmp bound_cmp };

    ghost laws = { partial_order_from_total bound_cmp_total };

    fn partial_cmp(&self, other: &Bound) -> Option<Ordering> {
        Some(self.cmp(other))
    }
}

impl Ord for Bound {
    ghost cmp = { bound_cmp };

    ghost total = { bound_cmp_total };

    ghost matches_partial_cmp = { λ a b. refl };

    ghost matches_eq = { λ a b. refl };

    #[tactic(auto, using(crate::proofs::OrderLaws::key_cmp_heads))]
    fn cmp(&self, other: &Bound) -> Ordering {
        match (self, other) {
            (Bound::At(table, pk), Bound::At(other_table, other_pk)) => {
                table.cmp(other_table).then_with(|| pk.cmp(other_pk))
            }
            (Bound::At(_, _), Bound::End) => Ordering::Less,
            (Bound::End, Bound::At(_, _)) => Ordering::Greater,
            (Bound::End, Bound::End) => Ordering::Equal,
        }
    }
}
