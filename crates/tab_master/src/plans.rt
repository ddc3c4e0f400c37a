//! Plans by which ranges are split, merged or moved.

use std::marker::Model;
use tab_codec::RangeRow;
use tab_history::PlanState;

/// A plan that has not ended: the rows that it takes out of the map, those that it puts in, and where it stands.
#[derive(Debug, Drop)]
pub struct Plan {
    pub plan: u64,
    pub old_rows: Vec<RangeRow>,
    pub new_rows: Vec<RangeRow>,
    pub state: PlanState,
}

impl Model for Plan {
    ghost use Rattle.std.specs.Prelude.{map, vec_items};
    ghost use Rattle.tab_history.specs.Configurations.{PlanView};
    ghost use Rattle.tab_master.specs.Spelled.{map_row};

    ghost Value = { PlanView };

    ghost view = { λ one. record { plan = one.plan; old_rows = map map_row one.old_rows.items; new_rows = map map_row one.new_rows.items; state = one.state } };
}
