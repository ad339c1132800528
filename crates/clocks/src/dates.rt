//! The UTC date and time of a timestamp.

ghost use Rattle.std.specs.Prelude.{◌≡◌, ◌≤◌, pos};
ghost use Rattle.jiff.specs.Words.{epoch_day};
ghost use Rattle.clocks.specs.Civil.{IsCivil};

use crate::moment::Moment;
use jiff::ToSpan;
use jiff::civil::Date;

/// A date of the Gregorian calendar and a time of day. Months and days count from 1.
#[derive(Clone, Copy, Debug, PartialEq, Eq, PartialOrd, Ord, Hash)]
pub struct CivilTime {
    pub year: i16,
    pub month: u8,
    pub day: u8,
    pub hour: u8,
    pub minute: u8,
    pub second: u8,
}

/// The UTC date and time of a timestamp.
pub fn civil(moment: Moment) -> CivilTime
    ensures { IsCivil moment result }
{
    let seconds = moment.seconds();
    let date = date_of(seconds / 86_400);
    CivilTime {
        year: date.year(),
        month: date.month() as u8,
        day: date.day() as u8,
        hour: (seconds / 3600 % 24) as u8,
        minute: (seconds / 60 % 60) as u8,
        second: (seconds % 60) as u8,
    }
}

// The date `days` days after 1 January 1970.
fn date_of(days: u64) -> Date
    requires { days ≤ 2_932_896 }
    ensures { epoch_day result ≡ pos days }
{
    let epoch = match Date::new(1970, 1, 1) {
        Ok(epoch) => epoch,
        Err(_) => unreachable!(),
    };
    match epoch.checked_add((days as i64).days()) {
        Ok(date) => date,
        Err(_) => unreachable!(),
    }
}
