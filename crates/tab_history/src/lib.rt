//! What the whole service means, and no machinery: the world as one ordered map, the entries of a history, which
//! histories are legal, and the values that pass between the layers.
#![tactic(auto)]

mod asks;
mod entries;
mod histories;
mod laws;
mod plans;
mod table_names;

pub use asks::{Ask, Reply};
pub use entries::{Bounds, Denied, Doubt, Entry};
pub use histories::History;
pub use laws::{
    a_followed_query, a_range_that_is_split, changes_stay_in_their_range, doubts_stay_open,
    doubts_that_end_and_stay, drops_hide, followed_queries, made_tables_are_new, next_ticks_serve,
    rows_tile_the_keys, still_queries, table_numbers_rise, tables_that_come_and_go, ticks_rise,
    ticks_tell_rows, worlds_stay,
};
pub use plans::{MapRefused, PlanState, Turn};
pub use table_names::TableNames;
