//! Keys of rows, in the order of their table, their partition key and their row key.

ghost use Rattle.std.specs.Prelude.{◌≡◌, IfOk};
ghost use Rattle.std.specs.Cmp.{partial_equiv_from_equiv, eq_by_cmp_equiv, partial_order_from_total};
ghost use Rattle.std.specs.Ordering.{eq_by_cmp, as_partial_cmp};
ghost use Rattle.std.proofs.Common.{refl};
ghost use Rattle.tab_keys.specs.Order.{key_cmp, is_before};
ghost use Rattle.tab_keys.specs.TotalOrders.{key_cmp_total};

use crate::{Bound, KeyText, Memory};
use std::alloc::Global;
use std::cmp::Ordering;

/// The key of a row: its table's number, its partition key and its row key. Keys are ordered by these three, and
/// texts by their UTF-16 code units.
#[derive(Debug, Drop)]
pub struct Key {
    pub table: u64,
    pub pk: KeyText,
    pub rk: KeyText,
}

impl Key {
    /// Whether the key stands before the bound.
    #[tactic(auto, using(crate::proofs::OrderLaws::is_before_At))]
    pub fn is_before(&self, bound: &Bound) -> bool
        ensures { result ≡ is_before self.now bound.now }
    {
        match bound {
            Bound::At(table, pk) => self.table.cmp(table).then_with(|| self.pk.cmp(pk)).is_lt(),
            Bound::End => true,
        }
    }

    /// A copy, which shares the memory of its texts.
    pub fn try_copy(&self, alloc: Global) -> Result<Key, Memory>
        ensures { IfOk result (λ copy. copy ≡ self.now) }
    {
        Ok(Key {
            table: self.table,
            pk: self.pk.try_copy(alloc)?,
            rk: self.rk.try_copy(alloc)?,
        })
    }
}

impl PartialEq for Key {
    ghost eq = { eq_by_cmp key_cmp };

    ghost laws = { partial_equiv_from_equiv (eq_by_cmp_equiv key_cmp_total) };

    #[tactic(auto, unfolding(crate::specs::Order::key_cmp))]
    fn eq(&self, other: &Key) -> bool {
        self.table == other.table && self.pk == other.pk && self.rk == other.rk
    }
}

impl Eq for Key {
    ghost laws = { eq_by_cmp_equiv key_cmp_total };
}

impl PartialOrd for Key {
    ghost partial_cmp = { as_partial_cmp key_cmp };

    ghost laws = { partial_order_from_total key_cmp_total };

    fn partial_cmp(&self, other: &Key) -> Option<Ordering> {
        Some(self.cmp(other))
    }
}

impl Ord for Key {
    ghost cmp = { key_cmp };

    ghost total = { key_cmp_total };

    ghost matches_partial_cmp = { λ a b. refl };

    ghost matches_eq = { λ a b. refl };

    #[tactic(auto, unfolding(crate::specs::Order::key_cmp))]
    fn cmp(&self, other: &Key) -> Ordering {
        self.table
            .cmp(&other.table)
            .then_with(|| self.pk.cmp(&other.pk))
            .then_with(|| self.rk.cmp(&other.rk))
    }
}
