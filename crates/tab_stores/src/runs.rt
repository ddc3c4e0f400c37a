//! What a line of calls comes to.

use crate::forged_calls::hold_forged;
use crate::keeping::keep;
use crate::map_calls::chart;
use crate::name_calls::name;
use crate::server_calls::hold;
use crate::services::serve;
use crate::steps::step;
use crate::stops::Stop;
use crate::texts::split_word;
use crate::yards::{Yard, fresh};
use std::alloc::Global;

/// How many kinds of restarts a disk in memory has.
const PICKS: u64 = 4;

/// The answer to a line: `picks CALLS` goes through the calls once for each kind of restart.
pub fn answer(alloc: Global, line: &str) -> Result<String, Stop> {
    let mut came = String::new(alloc);
    match split_word(line) {
        ("picks", calls) => each_pick(alloc, calls, &mut came)?,
        _ => run(alloc, line, 0, &mut came)?,
    }
    Ok(came)
}

fn each_pick(alloc: Global, calls: &str, came: &mut String) -> Result<(), Stop> {
    for pick in 0..PICKS {
        if pick > 0 {
            came.push_str(" / ")?;
        }
        let part = picked(alloc, calls, pick)?;
        came.push_str(part.as_str())?;
    }
    Ok(())
}

fn picked(alloc: Global, calls: &str, pick: u64) -> Result<String, Stop> {
    let mut came = String::new(alloc);
    run(alloc, calls, pick, &mut came)?;
    Ok(came)
}

/// Goes through the calls of a line, which stand between bars. Behind `yard` stand those on the disks of a whole service,
/// behind `names` those on the names of tables, behind `maps` those on a map of ranges, behind `servers` those on a range server, and
/// behind `forged` those on one whose disks forge what they hold.
fn run(alloc: Global, line: &str, pick: u64, came: &mut String) -> Result<(), Stop> {
    match split_word(line) {
        ("yard", calls) => serve(alloc, calls, pick, came),
        ("names", calls) => name(alloc, calls, pick, came),
        ("maps", calls) => chart(alloc, calls, pick, came),
        ("servers", calls) => hold(alloc, calls, pick, came),
        ("forged", calls) => hold_forged(alloc, calls, came),
        _ => run_store(alloc, line, pick, came),
    }
}

/// Goes through the calls on two disks. Behind a colon stand those of a counter that is kept over them.
fn run_store(alloc: Global, calls: &str, pick: u64, came: &mut String) -> Result<(), Stop> {
    match calls.split_once(':') {
        Some((before, kept)) => {
            let yard = walked(alloc, before, pick, came)?;
            keep(alloc, yard.closed(), kept, pick, came)
        }
        None => walked(alloc, calls, pick, came).map(|_| ()),
    }
}

fn walked(alloc: Global, calls: &str, pick: u64, came: &mut String) -> Result<Yard, Stop> {
    let mut yard = fresh(alloc);
    for call in calls.split('|') {
        yard = step(alloc, yard, call.trim_ascii(), pick, came)?;
    }
    Ok(yard)
}
