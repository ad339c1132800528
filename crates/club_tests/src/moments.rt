use clocks::{CivilTime, Clock, Moment, OutOfTime, civil};

fn shown(seconds: u64) -> Option<CivilTime> {
    Some(civil(Moment::new(seconds)?))
}

fn civil_time(date: (i16, u8, u8), time: (u8, u8, u8)) -> Option<CivilTime> {
    Some(CivilTime {
        year: date.0,
        month: date.1,
        day: date.2,
        hour: time.0,
        minute: time.1,
        second: time.2,
    })
}

// The expected dates are those of `date -u -d @SECONDS`.
#[test]
fn moments_have_dates_in_utc(rt: HostRuntime) {
    assert!(rt; shown(0) == civil_time((1970, 1, 1), (0, 0, 0)));
    assert!(rt; shown(1000) == civil_time((1970, 1, 1), (0, 16, 40)));
    assert!(rt; shown(951_782_400) == civil_time((2000, 2, 29), (0, 0, 0)));
    assert!(rt; shown(1_709_251_199) == civil_time((2024, 2, 29), (23, 59, 59)));
    assert!(rt; shown(4_107_542_399) == civil_time((2100, 2, 28), (23, 59, 59)));
    assert!(rt; shown(253_402_300_799) == civil_time((9999, 12, 31), (23, 59, 59)));
    assert!(rt; shown(253_402_300_800) == None);
}

// With a budget of 60 s and an increment of 5 s, a move after 60 s is in time and leaves 5 s; one after 61 s is late.
#[test]
fn a_move_takes_seconds_and_adds_the_increment(rt: HostRuntime) {
    let clock = Clock {
        left: 60,
        increment: 5,
    };
    assert!(rt; clock.spend(61) == Err(OutOfTime));
    let after = Clock {
        left: 5,
        increment: 5,
    };
    assert!(rt; clock.spend(60) == Ok(after));
    let deadline = Moment::new(1060).map(|since| clock.deadline(since));
    assert!(rt; deadline == Some(1120));
    assert!(rt; Moment::new(1000).map(|m| m.seconds()) == Some(1000));
    assert!(rt; later(900, 5000) == Some(5000));
    assert!(rt; later(5000, 900) == Some(5000));
}

// The later of two timestamps, in seconds.
fn later(one: u64, other: u64) -> Option<u64> {
    Some(Moment::new(one)?.later(Moment::new(other)?).seconds())
}
