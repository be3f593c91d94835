// What no clause says: that memory is enough, and the wheel against a plain ordered map, over long runs and at the ends of its levels.
use crate::Deadlines;
use crate::places::{Clock, place_of};
use std::alloc::Global;
use std::collections::BTreeMap;
use std::process::Abort;
use std::test::Fail;

// What a plain map answers: the keys at most `now`, by tick and key.
fn plain_due(alloc: Global, plain: &mut BTreeMap<u32, u64>, now: u64) -> Result<Vec<u32>, Fail> {
    let mut due = Vec::new(alloc);
    for (key, tick) in plain.iter() {
        if *tick <= now {
            due.push((*tick, *key))?;
        }
    }
    due.sort_unstable();
    let keys: Vec<u32> = due.iter().map(|d| d.1).collect(alloc)?;
    for key in keys.as_slice() {
        plain.remove(key);
    }
    Ok(keys)
}

// Whether a value can be moved into another thread.
fn sendable<T: Send>(value: T) -> T {
    value
}

#[test]
fn places_follow_the_rule(rt: HostRuntime) {
    for (latest, last, tick, place) in [
        (70, 70, 70, 710),
        (70, 70, 69, 709),
        (5000, 60, 70, 769),
        (0, 0, 1, 1),
        (0, 0, 63, 63),
        (0, 0, 70, 65),
        (63, 63, 64, 65),
        (64, 2, 70, 6),
        (0, 0, 4096, 129),
        (4095, 0, 4096, 129),
        (0, 0, 68_719_476_735, 383),
        (0, 0, 68_719_476_736, 385),
        (68_719_476_736, 5, 68_719_476_737, 1),
        (68_719_476_735, 0, 68_719_476_736, 385),
        (0, 0, u64::MAX, 655),
        (u64::MAX, 0, u64::MAX, 1359),
    ] {
        let clock = Clock { latest, last };
        assert_eq!(rt;
            place_of(clock, tick),
            place,
            "{tick} at {latest} and {last}"
        );
    }
}

#[test]
fn keys_come_by_tick_and_key(rt: HostRuntime) -> Result<(), Fail> {
    let mut deadlines = sendable(Deadlines::new(rt.alloc()));
    for (key, tick) in [(3, 70), (1, 70), (2, 4096), (9, 68_719_476_736)] {
        deadlines.set(key, tick)?;
    }
    assert_eq!(rt; deadlines.due(69)?.as_slice(), [].as_slice());
    assert_eq!(rt; deadlines.due(5000)?.as_slice(), [1, 3, 2].as_slice());
    assert_eq!(rt; deadlines.due(68_719_476_735)?.as_slice(), [].as_slice());
    assert_eq!(rt; deadlines.due(68_719_476_736)?.as_slice(), [9].as_slice());
    assert_eq!(rt; deadlines.due(u64::MAX)?.as_slice(), [].as_slice());
    Ok(())
}

#[test]
fn a_replaced_key_has_its_new_tick_alone(rt: HostRuntime) -> Result<(), Fail> {
    let mut deadlines = Deadlines::new(rt.alloc());
    deadlines.clear(7);
    deadlines.set(7, 10)?;
    deadlines.set(7, 10_000)?;
    deadlines.set(8, 10_000)?;
    deadlines.set(8, 20)?;
    deadlines.clear(9);
    assert_eq!(rt; deadlines.due(100)?.as_slice(), [8].as_slice());
    deadlines.set(8, 50)?;
    assert_eq!(rt; deadlines.due(49)?.as_slice(), [].as_slice());
    assert_eq!(rt; deadlines.due(50)?.as_slice(), [8].as_slice());
    deadlines.set(6, 10_000)?;
    deadlines.clear(7);
    assert_eq!(rt; deadlines.due(u64::MAX)?.as_slice(), [6].as_slice());
    Ok(())
}

// Sets a key for each tick at a power of 64 and one beside it, and for the last one.
fn set_powers(deadlines: &mut Deadlines, plain: &mut BTreeMap<u32, u64>) -> Result<(), Fail> {
    let mut key = 0u32;
    for level in 0..11u32 {
        let power = 1u64 << (6 * level);
        for tick in [power - 1, power, power.saturating_add(1)] {
            deadlines.set(key, tick)?;
            plain.insert(key, tick)?;
            key = key.wrapping_add(1);
        }
    }
    deadlines.set(key, u64::MAX)?;
    plain.insert(key, u64::MAX)?;
    Ok(())
}

#[test]
fn ticks_at_the_ends_of_levels_come_one_by_one(rt: HostRuntime) -> Result<(), Fail> {
    let mut deadlines = Deadlines::new(rt.alloc());
    let mut plain = BTreeMap::new(rt.alloc());
    set_powers(&mut deadlines, &mut plain)?;
    for level in 0..11u32 {
        let power = 1u64 << (6 * level);
        for now in [power - 1, power, power.saturating_add(1)] {
            let due = deadlines.due(now)?;
            assert_eq!(rt;
                due.as_slice(),
                plain_due(rt.alloc(), &mut plain, now)?.as_slice()
            );
        }
    }
    let due = deadlines.due(u64::MAX)?;
    assert_eq!(rt; due.as_slice(), [33].as_slice());
    Ok(())
}

#[test]
fn one_due_call_jumps_over_all_levels(rt: HostRuntime) -> Result<(), Fail> {
    let mut deadlines = Deadlines::new(rt.alloc());
    let mut plain = BTreeMap::new(rt.alloc());
    set_powers(&mut deadlines, &mut plain)?;
    let due = deadlines.due(u64::MAX - 1)?;
    assert_eq!(rt;
        due.as_slice(),
        plain_due(rt.alloc(), &mut plain, u64::MAX - 1)?.as_slice()
    );
    let due = deadlines.due(u64::MAX)?;
    assert_eq!(rt; due.as_slice(), [33].as_slice());
    Ok(())
}

// The next number of a generator whose steps are a multiplication and a sum.
fn next(state: u64) -> u64 {
    state
        .wrapping_mul(6_364_136_223_846_793_005)
        .wrapping_add(1_442_695_040_888_963_407)
}

// A thousand steps, with due calls whose ticks only rise or are any.
fn run_steps(rt: &(impl Abort + AllocGlobal), rises: bool) -> Result<(), Fail> {
    let mut deadlines = Deadlines::new(rt.alloc());
    let mut plain = BTreeMap::new(rt.alloc());
    let mut state = 1;
    let mut now = 0u64;
    for _ in 0..1000 {
        state = next(state);
        let key = (state >> 40) as u32 % 50;
        let distance = (state >> 8) >> (state % 56);
        let from = if rises { now } else { 0 };
        match (state >> 33) % 8 {
            0 => {
                deadlines.clear(key);
                plain.remove(&key);
            }
            1 => {
                now = from.saturating_add(distance / 4);
                let due = deadlines.due(now)?;
                assert_eq!(rt;
                    due.as_slice(),
                    plain_due(rt.alloc(), &mut plain, now)?.as_slice()
                );
            }
            _ => {
                let tick = from.saturating_add(distance);
                deadlines.set(key, tick)?;
                plain.insert(key, tick)?;
            }
        }
    }
    let due = deadlines.due(u64::MAX)?;
    assert_eq!(rt;
        due.as_slice(),
        plain_due(rt.alloc(), &mut plain, u64::MAX)?.as_slice()
    );
    Ok(())
}

#[test]
fn a_thousand_steps_are_those_of_a_plain_map(rt: HostRuntime) -> Result<(), Fail> {
    run_steps(&rt, true)?;
    run_steps(&rt, false)
}

#[test]
fn a_hundred_thousand_keys_are_set_cleared_and_given(rt: HostRuntime) -> Result<(), Fail> {
    let mut deadlines = Deadlines::new(rt.alloc());
    for key in 0..100_000u32 {
        deadlines.set(key, (1 << 40) + key as u64 % 50)?;
    }
    for key in 0..50_000u32 {
        deadlines.clear(2 * key);
    }
    for step in 0..10_000u64 {
        let due = deadlines.due(step << 26)?;
        assert!(rt; due.is_empty());
    }
    let due = deadlines.due((1 << 40) + 24)?;
    assert_eq!(rt; due.len(), 24_000);
    for now in 0..10_000u64 {
        let due = deadlines.due(now)?;
        assert!(rt; due.is_empty());
    }
    let due = deadlines.due(1 << 41)?;
    assert_eq!(rt; due.len(), 26_000);
    Ok(())
}
