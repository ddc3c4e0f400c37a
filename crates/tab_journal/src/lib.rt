//! A store of frames over two disks, its areas: what a crash leaves at any moment spells the frames before a call or after
//! it, and nothing else.
#![tactic(auto)]

mod areas;
mod contents;
mod disks;
mod fitting;
mod headers;
mod kept;
mod laws;
mod listings;
mod making;
mod maps;
mod ranges;
mod reading;
mod refusals;
mod rewriting;
mod store;

pub use contents::Content;
pub use fitting::{MAP_KIND, NAMES_KIND, SERVER_KIND};
pub use kept::{Kept, KeptRefused};
pub use laws::{areas_spell_what_is_read, rows_that_agree_have_the_same_keys};
pub use maps::MOST_RANGES;
pub use refusals::{Back, StoreRefused};
pub use store::Store;
