//! Cases of moments and ETags, both ways.

ghost use Rattle.std.specs.Prelude.{◌≤◌, IfOk};
ghost use Rattle.tab_edm.specs.declared.TheConstants.{GREATEST};

use crate::answers::{Answer, counted, field, number_at, told, unknown};
use crate::stops::Stop;
use std::alloc::Global;
use tab_edm::{GREATEST, etag_text, moment_text, read_etag, read_moment};

/// `moment TEXT` and `etag TEXT`: the tick that is read. `tick NUMBER` and `mark NUMBER`: what is written as one.
pub fn answer(alloc: Global, word: &str, fields: &[String]) -> Answer {
    match (word, fields.len()) {
        ("moment", 1) => tick_text(alloc, read_moment(field(fields, 0)?)),
        ("etag", 1) => tick_text(alloc, read_etag(field(fields, 0)?)),
        ("tick", 1) => moment(alloc, tick(fields, 0)?),
        ("mark", 1) => etag(alloc, tick(fields, 0)?),
        _ => unknown(),
    }
}

/// The tick of a field, which has to be one of a moment.
pub fn tick(fields: &[String], at: usize) -> Result<u64, Stop>
    ensures { IfOk result (λ tick. tick ≤ GREATEST) }
{
    match number_at(fields, at) {
        Ok(tick) if tick <= GREATEST => Ok(tick),
        _ => Err(Stop::Unread("the tick of a moment is wanted")),
    }
}

fn tick_text(alloc: Global, tick: Option<u64>) -> Answer {
    match tick {
        Some(tick) => counted(alloc, "tick ", tick, ""),
        None => told(alloc, &["refused"]),
    }
}

fn moment(alloc: Global, tick: u64) -> Answer
    requires { tick ≤ GREATEST }
{
    Ok(moment_text(alloc, tick)?)
}

fn etag(alloc: Global, tick: u64) -> Answer
    requires { tick ≤ GREATEST }
{
    Ok(etag_text(alloc, tick)?)
}
