//! What legal histories give: laws over the definitions alone.
ghost use Rattle.std.specs.Prelude.{◌≡◌, ◌≢◌, ℕ, ◌+◌, ◌≤◌, max, List, ◌∷◌, ◌++◌, [], Some, None, All, Contains, IsTrue};
ghost use Rattle.std.specs.Result.{result_unwrap_or};
ghost use Rattle.tab_keys.specs.Spans.{Interval, has};
ghost use Rattle.tab_keys.specs.declared.keys.Key.{Key};
ghost use Rattle.tab_edm.specs.declared.TheConstants.{GREATEST};
ghost use Rattle.tab_rows.specs.Rows.{AreRising};
ghost use Rattle.tab_rows.specs.Spans.{rows_in};
ghost use Rattle.tab_ops.specs.Groups.{ItemView, group_refusal};
ghost use Rattle.tab_ops.specs.Changes.{group_outcome, group_keys};
ghost use Rattle.tab_page.specs.Pages.{end_above};
ghost use Rattle.tab_history.specs.World.{IsWorld, World, Floors, MayHaveTick, floor_of};
ghost use Rattle.tab_history.specs.Legality.{State, Legal, AreBounds, acted, after_all};
ghost use Rattle.tab_history.specs.Kept.{HasTablesBelow};
ghost use Rattle.tab_history.specs.Followed.{FollowedWell, FollowedStill, IsFollowed, entries_of, rows_of};
ghost use Rattle.tab_history.specs.Example.{opening, query, row_of};
ghost use Rattle.tab_history.specs.Ticks.{TicksRise, TicksTellRows};
ghost use Rattle.tab_history.specs.TablesExample.{dogs, nothing, making, listing, filling, dropping, making_again, left, row_of_p};
ghost use Rattle.tab_history.specs.Numbers.{NumbersRise, MadeNew, DropsHide};
ghost use Rattle.tab_history.specs.Doubts.{AreOpen, Accepts};
ghost use Rattle.tab_history.specs.DoubtsExample.{commit_in_doubt, commit_that_stood, query_over_doubts, insert_that_did_not_stand, table_left_open};
ghost use Rattle.tab_history.specs.Configurations.{MapRow, Configuration, row_with, bounds_of, next_tick_of, next_tick_at, ticked, config_after_all};
ghost use Rattle.tab_history.specs.Tilings.{TileKeys, HasOneRow};
ghost use Rattle.tab_history.specs.Ranges.{routed, HaveOwnRanges, IsHeldAs, AreAlikeIn, IsNextTickIn, TicksServe};
ghost use Rattle.tab_history.specs.SplitExample.{whole_range, before_split, reopening};
ghost use Rattle.tab_history.specs.declared.entries.Doubt.{Doubt};
ghost use Rattle.tab_history.specs.declared.entries.Entry.{Entry};
ghost use Rattle.tab_keys.specs.declared.bounds.Bound.TheVariants.{At};
ghost use Rattle.tab_history.specs.declared.entries.Doubt.TheVariants as doubt;

/// A legal history leads from a world to a world.
pub fn worlds_stay()
    ensures { (opening : State) (history : List Entry) → IsWorld opening.world → HasTablesBelow opening → Legal opening history
        → IsWorld (after_all opening history).world × HasTablesBelow (after_all opening history) }
{}

/// Each doubt that a legal history leaves open may stand or not: the world accepts its operation, whatever becomes of
/// the others.
pub fn doubts_stay_open()
    ensures { (opening : State) (history : List Entry) → Legal opening history
        → AreOpen (after_all opening history).world (after_all opening history).doubts }
{}

/// Each query that is followed to its end in a legal history gives what it should.
pub fn followed_queries()
    ensures { (opening : State) (history : List Entry) → IsWorld opening.world → Legal opening history → FollowedWell opening history }
{}

/// Where nothing is written meanwhile, it gives all that it asks for, in few pages.
pub fn still_queries()
    ensures { (opening : State) (history : List Entry) → IsWorld opening.world → Legal opening history → FollowedStill opening history }
{}

/// Of two accepted changes of one key the later has the greater tick.
pub fn ticks_rise()
    ensures { (opening : State) (history : List Entry) → Legal opening history → TicksRise opening history }
{}

/// No tick of a row at a key comes again, so equal ETags are those of one row that stood unchanged.
pub fn ticks_tell_rows()
    ensures { (opening : State) (history : List Entry) → IsWorld opening.world → Legal opening history → TicksTellRows opening history }
{}

/// Of two tables that were made the later has the greater number, so no number comes again.
pub fn table_numbers_rise()
    ensures { (opening : State) (history : List Entry) → Legal opening history → NumbersRise opening history }
{}

/// A table that is made has a number that was not given before, and no row.
pub fn made_tables_are_new()
    ensures { (opening : State) (history : List Entry) → IsWorld opening.world → HasTablesBelow opening → Legal opening history
        → MadeNew opening history }
{}

/// No look-up of a name finds again the rows of a table of that name that was dropped.
pub fn drops_hide()
    ensures { (opening : State) (history : List Entry) → IsWorld opening.world → HasTablesBelow opening → Legal opening history
        → DropsHide opening history }
{}

/// There are such queries: one of two pages, between which a row was inserted and a range split.
pub fn a_followed_query()
    ensures world { IsWorld opening.world }
    ensures legal { Legal opening (entries_of query) }
    ensures followed { IsFollowed query }
    ensures rows { rows_of query ≡ row_of 97 0 ∷ row_of 98 1 ∷ row_of 99 2 ∷ row_of 100 7 ∷ [] }
{}

/// There are such tables: one is made, listed, filled and dropped, and another of its name is empty.
pub fn tables_that_come_and_go()
    ensures world { IsWorld nothing.world }
    ensures legal { Legal nothing (making ++ listing ++ filling ++ dropping ++ making_again) }
    ensures names { (after_all nothing (making ++ listing ++ filling ++ dropping ++ making_again)).world.names ≡ left }
    ensures rows { (after_all nothing (making ++ listing ++ filling ++ dropping ++ making_again)).world.rows ≡ row_of_p ∷ [] }
{}

/// There are such legal histories: with an insert and a commit that stood between two pages, an insert that did not, and a
/// table of which it stays open whether it was made. What order a plan's turns have is no part of it.
pub fn doubts_that_end_and_stay()
    ensures legal { Legal opening (entries_of query_over_doubts ++ insert_that_did_not_stand ++ table_left_open) }
    ensures followed { IsFollowed query_over_doubts }
    ensures commit { (after_all opening commit_in_doubt).commit ≡ Some 3 }
    ensures committed { (after_all opening (commit_in_doubt ++ commit_that_stood)).commit ≡ None }
    ensures rows { (after_all opening (entries_of query_over_doubts ++ insert_that_did_not_stand ++ table_left_open)).world.rows
        ≡ row_of 97 0 ∷ row_of 98 1 ∷ row_of 99 2 ∷ row_of 100 7 ∷ [] }
    ensures doubts { (after_all opening (entries_of query_over_doubts ++ insert_that_did_not_stand ++ table_left_open)).doubts
        ≡ (6, doubt.Create dogs 2) ∷ [] }
{}

/// A range is parted at its plan's commit, and a commit that did not stand parts none; an opening ends all plans.
pub fn a_range_that_is_split()
    ensures whole { (config_after_all before_split opening (commit_in_doubt ++ reopening)).rows ≡ whole_range ∷ [] }
    ensures parted { bounds_of (config_after_all before_split opening (commit_in_doubt ++ commit_that_stood)).rows
        ≡ At 0 [] ∷ At 1 (98 ∷ []) ∷ [] }
    ensures ticks { next_tick_at (config_after_all before_split opening (commit_in_doubt ++ commit_that_stood)) (row_of 100 7).key ≡ 8 }
    ensures plans { (config_after_all before_split opening (commit_in_doubt ++ commit_that_stood ++ reopening)).plans ≡ [] }
    ensures numbers { (config_after_all before_split opening (commit_in_doubt ++ commit_that_stood ++ reopening)).next_range ≡ 4 }
{}

/// Where the spans of a map's rows tile the space of keys, exactly one row has each key, its span ends at the least of the
/// rows' bounds above the key, and these bounds are such as an opening tells.
pub fn rows_tile_the_keys()
    ensures one { (rows : List MapRow) (key : Key) → TileKeys rows → HasOneRow rows key }
    ensures end { (rows : List MapRow) (key : Key) (row : MapRow) → TileKeys rows → row_with rows key ≡ Some row
        → end_above key (bounds_of rows) ≡ row.span.hi }
    ensures bounds { (rows : List MapRow) → TileKeys rows → AreBounds (bounds_of rows) }
{}

/// A change makes of the range that it is routed to what its group makes of that range's rows, and its next tick is past the
/// change's; it leaves the rows and the next tick of each other range. A range that is alike in two worlds stays so behind an
/// operation that both accept, as one of which it is open whether it stands.
pub fn changes_stay_in_their_range()
    ensures here { (world : World) (config : Configuration) (row : MapRow) (table tick : ℕ) (group : List ItemView)
        → group_refusal group ≡ None → routed config.rows (group_keys table group) ≡ Some row
        → IsHeldAs (acted world (doubt.Change table group tick)) (ticked config (Some (doubt.Change table group tick))) row
        (result_unwrap_or (group_outcome (rows_in row.span world.rows) table tick group) (rows_in row.span world.rows))
        (max (tick + 1) (next_tick_of config.next_ticks row.range)) }
    ensures there { (world : World) (config : Configuration) (row other : MapRow) (table tick : ℕ) (group : List ItemView)
        → TileKeys config.rows → AreRising world.rows
        → group_refusal group ≡ None → routed config.rows (group_keys table group) ≡ Some row
        → Contains config.rows other → other.range ≢ row.range
        → IsHeldAs (acted world (doubt.Change table group tick)) (ticked config (Some (doubt.Change table group tick))) other
        (rows_in other.span world.rows) (next_tick_of config.next_ticks other.range) }
    ensures alike { (row : MapRow) (world : World) (config : Configuration) (other : World) (other_config : Configuration) (operation : Doubt)
        → AreAlikeIn row world config other other_config → config.rows ≡ other_config.rows → AreRising world.rows → AreRising other.rows
        → Accepts world operation → Accepts other operation
        → AreAlikeIn row (acted world operation) (ticked config (Some operation)) (acted other operation) (ticked other_config (Some operation)) }
{}

/// The later of the moment and a range's next tick may be the tick of a change there; behind a change whose tick is not below
/// the floors of its keys the next tick of each range serves for its keys' floors as before.
pub fn next_ticks_serve()
    ensures may { (floors : Floors) (span : Interval) (next now : ℕ) (keys : List Key) → IsNextTickIn floors span next
        → All (λ key. IsTrue (has span key)) keys → max now next ≤ GREATEST → MayHaveTick floors keys now (max now next) }
    ensures kept { (world : World) (config : Configuration) (row : MapRow) (table tick : ℕ) (group : List ItemView)
        → TileKeys config.rows → HaveOwnRanges config.rows → TicksServe world.floors config
        → group_refusal group ≡ None → routed config.rows (group_keys table group) ≡ Some row
        → All (λ key. floor_of world.floors key ≤ tick) (group_keys table group)
        → TicksServe (acted world (doubt.Change table group tick)).floors (ticked config (Some (doubt.Change table group tick))) }
{}
