//! The clock of the system, in ticks of 100 ns since 1601-01-01T00:00:00Z.
ghost use Rattle.std.specs.Prelude.{◌≡◌, ◌+◌, ◌-◌, ◌^◌, ◌/◌, ◌<◌, min, IfOk};

use std::time::{SystemTime, UNIX_EPOCH};
use tab_outside::{Clock, Memory};

/// 1970-01-01T00:00:00Z in ticks of 100 ns since 1601-01-01T00:00:00Z.
const UNIX_EPOCH_TICKS: u64 = 116_444_736_000_000_000;

/// The nanoseconds of one tick.
const TICK_NANOS: u128 = 100;

/// The clock of the system. It gives 0 where that fails or stands before 1970.
#[derive(Drop)]
pub struct RealClock {
    runtime: HostRuntime,
    moment: u64,
}

impl RealClock {
    /// A clock of this runtime, which it copies.
    pub fn new(runtime: &HostRuntime) -> Result<RealClock, Memory>
        ensures { IfOk result (λ clock. ⟦<RealClock as Clock>⟧.moment clock ≡ 0) }
    {
        match runtime.clone() {
            Ok(runtime) => Ok(RealClock { runtime, moment: 0 }),
            Err(_) => Err(Memory),
        }
    }
}

impl Clock for RealClock {
    ghost moment = { λ clock. clock.moment };

    fn now(&mut self) -> u64 {
        self.moment = system_moment(&self.runtime);
        self.moment
    }
}

/// The system's moment in ticks since 1601, or 0 where it tells none.
fn system_moment(runtime: &HostRuntime) -> u64 {
    let Ok(now) = SystemTime::now(runtime) else {
        return 0;
    };
    match now.duration_since(UNIX_EPOCH) {
        Ok(since_1970) => moment_of(since_1970.as_nanos()),
        Err(_) => 0,
    }
}

/// The moment that lies so many nanoseconds after 1970 began, or the greatest of 64 bits.
fn moment_of(unix_nanos: u128) -> u64
    ensures { result ≡ min (unix_nanos / 100 + 116_444_736_000_000_000) (2 ^ 64 - 1) }
{
    match u64::try_from(unix_nanos / TICK_NANOS) {
        Ok(ticks) => ticks.saturating_add(UNIX_EPOCH_TICKS),
        Err(_) => u64::MAX,
    }
}

#[cfg(test)]
mod tests {
    use super::*;
    use std::alloc::AllocError;
    use std::test::Fail;

    #[test]
    fn the_clock_stands_after_2026_began(rt: HostRuntime) -> Result<(), Fail> {
        let mut clock = RealClock::new(&rt).map_err(|_| AllocError)?;
        let first = clock.now();
        assert!(rt; first > 134_116_992_000_000_000, "{first}");
        assert!(rt; clock.now() >= first);
        Ok(())
    }

    #[test]
    fn a_moment_is_counted_from_1601(rt: HostRuntime) {
        assert_eq!(rt;
            moment_of(1_377_133_926_260_859_599),
            130_216_075_262_608_595
        );
        assert_eq!(rt; moment_of(0), 116_444_736_000_000_000);
        assert_eq!(rt; moment_of(u128::MAX), u64::MAX);
    }
}
