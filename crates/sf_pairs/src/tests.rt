ghost use Rattle.std.specs.Prelude.{◌<◌};

use super::*;
use std::test::Fail;

#[test]
fn ticks_are_counted(rt: HostRuntime) {
    let mut ticks = Ticks::new();
    for count in 0..4 {
        assert_eq!(rt; ticks.count(), count);
        assert!(rt; ticks.count() < u64::MAX);
        ticks.tick();
    }
    assert_eq!(rt; ticks.count(), 4);
}

#[test]
fn pairs_of_least_degree_come_next(rt: HostRuntime) -> Result<(), Fail> {
    let mut queue = PairQueue::new(rt.alloc());
    assert_eq!(rt; queue.least(), None);
    assert_eq!(rt; queue.count_least(), 0);
    for (degree, pair) in [
        (3, (0, 1)),
        (-2, (0, 2)),
        (3, (1, 2)),
        (-2, (0, 3)),
        (-2, (2, 3)),
    ] {
        queue.push(degree, pair)?;
    }
    // the least degree, how many pairs have it, the number of the one that is taken, and that one
    for (least, count, at, pair) in [
        (-2, 3, 2, (2, 3)),
        (-2, 2, 0, (0, 2)),
        (-2, 1, 0, (0, 3)),
        (3, 2, 1, (1, 2)),
        (3, 1, 0, (0, 1)),
    ] {
        assert_eq!(rt; queue.least(), Some(least));
        assert_eq!(rt; queue.count_least(), count);
        assert!(rt; at < queue.count_least());
        assert_eq!(rt; queue.take(at), pair);
    }
    assert_eq!(rt; queue.least(), None);
    Ok(())
}

fn choose_by<S: Strategy>(strategy: &mut S, count: usize) -> usize
    requires { 0 < count }
    ensures { result < count }
{
    strategy.told(true);
    strategy.choose(count)
}

#[test]
fn the_first_strategy_takes_the_first_pair(rt: HostRuntime) {
    let mut strategy = FirstStrategy;
    for count in 1..4 {
        assert_eq!(rt; strategy.choose(count), 0);
        assert_eq!(rt; choose_by(&mut strategy, count), 0);
    }
}

#[test]
fn the_last_strategy_takes_the_last_pair(rt: HostRuntime) {
    let mut strategy = LastStrategy;
    for count in 1..4 {
        assert_eq!(rt; strategy.choose(count), count - 1);
    }
}

#[test]
fn the_spread_strategy_goes_over_the_pairs(rt: HostRuntime) {
    let mut strategy = SpreadStrategy::new();
    // whether the last reduction ended in zero, how many pairs there are, and the number of the one that is taken
    for (zero, count, at) in [
        (false, 5, 0),
        (false, 5, 1),
        (true, 5, 2),
        (true, 5, 0),
        (false, 3, 2),
    ] {
        strategy.told(zero);
        assert_eq!(rt; strategy.choose(count), at);
    }
}
