//! Operations on rows under conditions, groups of them that act as a whole or not at all, and the changes that they
//! come to.
#![tactic(auto)]

mod groups;
mod laws;
mod merges;
mod ops;
mod outcomes;
mod plans;

pub use groups::{Group, GroupRefused, OpRefused};
pub use laws::{
    changes_act_on_a_span_as_on_all, groups_act_in_one_partition, groups_act_on_a_span_as_on_all,
    groups_are_judged_without_their_tick, groups_are_refused_by_an_item,
    groups_give_their_keys_one_tick, groups_have_rows_of_their_own, groups_keep_order,
    groups_leave_other_keys, groups_lie_in_one_span, items_see_the_rows_before_their_group,
    merges_are_refused_past_limits, merges_give_values_by_name,
};
pub use ops::{Item, Match, Op};
pub use plans::{ChangeList, Changes, plan};

/// The most operations that a group may have.
pub const MOST_ITEMS: usize = 100;
