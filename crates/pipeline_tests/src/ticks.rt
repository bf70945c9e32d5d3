//! When ticks are due.
use collector_board::StopMark;
use collector_serve::{SteadyClock, Ticker};
use http_lane::{Clock as Moments, HasStopMark};
use lane_worker::Ticks;
use std::alloc::{AllocError, Global};
use std::sync::Wait;
use std::test::Fail;
use std::time::Clock;

/// Once the stop mark is set there is no tick any more.
#[test]
fn ticks_end(rt: HostRuntime) -> Result<(), Fail> {
    let stop = StopMark::new();
    stop.set();
    let clock = SteadyClock::new(&rt);
    let mut ticker = Ticker::new(60_000, &clock, &stop);
    assert_eq!(rt; ticker.next(&rt), None);
    Ok(())
}

/// What the clock says, and then the moments of so many ticks, which are `period` milliseconds apart.
fn told<R: Wait + Clock>(
    rt: &R,
    alloc: Global,
    period: u64,
    ticks: usize,
) -> Result<Vec<u64>, AllocError> {
    let stop = StopMark::new();
    let clock = SteadyClock::new(rt);
    let mut ticker = Ticker::new(period, &clock, &stop);
    let mut moments = Vec::new(alloc);
    moments.push(clock.now())?;
    for _ in 0..ticks {
        moments.push(ticker.next(rt).unwrap_or(0))?;
    }
    Ok(moments)
}

/// Of ten ticks 20 milliseconds apart the two that are nearest lie so far apart, and not five times as far.
#[test]
fn ticks_are_a_period_apart(rt: HostRuntime) -> Result<(), Fail> {
    let mut last = 0;
    let mut nearest = u64::MAX;
    for moment in told(&rt, rt.alloc(), 20, 10)? {
        nearest = nearest.min(moment.saturating_sub(last));
        last = moment;
    }
    assert!(rt; 19 <= nearest && nearest < 100, "{nearest} milliseconds");
    Ok(())
}

/// Each tick comes with a moment that isn't before the last one's, and none is 0.
#[test]
fn ticks_come_in_turn(rt: HostRuntime) -> Result<(), Fail> {
    // 2020-01-01, in milliseconds since 1970.
    let mut last = 1_577_836_800_000;
    for moment in told(&rt, rt.alloc(), 1, 3)? {
        assert!(rt; last <= moment);
        last = moment;
    }
    Ok(())
}
