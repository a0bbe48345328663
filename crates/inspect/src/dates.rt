// Dates in UTC, of timestamps whose era their header does not say.
//
// As RFC 4330 has it (section 3), and Wireshark, such a timestamp is taken for one of era 0, which began with the year
// 1900, if its highest bit is set, and else for one of era 1, which begins at 2036-02-07 06:28:16. So the dates are
// those of 2^32 s without a gap, from 1968-01-20 03:14:08 on. Every day has 86400 s, since NTP counts no leap second.
use crate::figures::BILLION;
use std::fmt;

// A second, in the units of a timestamp.
const SECOND: u64 = 0x100000000;

const HALF_ERA: u32 = 0x80000000;

const DAY: u64 = 86400;

// How many days four years have, one of them a leap year.
const FOUR_YEARS: u64 = 1461;

// Five months from March or from August on: 31, 30, 31, 30 and 31 days.
const FIVE_MONTHS: u64 = 153;

// Days are counted from 1964-03-01. The first date is 1420 days, 3 hours, 14 minutes and 8 seconds later.
const FIRST: u64 = 1420 * DAY + 11648;

// The day 2100-03-01: 34 times four years later, but 2100 has no leap day.
const MARCH_2100: u64 = 34 * FOUR_YEARS - 1;

// A day, counted from 1964-03-01.
#[derive(Clone, Copy)]
struct Day(u32);

// Years begin with March here, so that a leap day is the last day of every fourth year. From 2100-03-01 on the leap
// day that 2100 does not have is added, so that this stays true.
impl fmt::Display for Day {
    fn fmt<W: fmt::Write>(&self, f: &mut fmt::Formatter<W>) -> fmt::Result {
        let days = self.0 as u64;
        let missing = if MARCH_2100 <= days { 1 } else { 0 };
        let quarters = (days + missing) * 4 + 3;
        let fifths = quarters % FOUR_YEARS / 4 * 5 + 2;
        // Since the January before its March.
        let months = fifths / FIVE_MONTHS + 2;
        let year = quarters / FOUR_YEARS + 1964 + months / 12;
        let month = months % 12 + 1;
        let day = fifths % FIVE_MONTHS / 5 + 1;
        write!(f, "{year}-{month:02}-{day:02}")
    }
}

// A time of day, in seconds.
#[derive(Clone, Copy)]
struct Time(u64);

impl fmt::Display for Time {
    fn fmt<W: fmt::Write>(&self, f: &mut fmt::Formatter<W>) -> fmt::Result {
        let hour = self.0 / 3600;
        let minute = self.0 / 60 % 60;
        let second = self.0 % 60;
        write!(f, "{hour:02}:{minute:02}:{second:02}")
    }
}

// The date of a timestamp, with the era that is taken. Digits past the nine places are dropped, as Wireshark does: a
// date that was rounded up could be one of the next day, or of the other era.
#[derive(Clone, Copy)]
pub(crate) struct Date(pub(crate) u64);

impl fmt::Display for Date {
    fn fmt<W: fmt::Write>(&self, f: &mut fmt::Formatter<W>) -> fmt::Result {
        let seconds = (self.0 / SECOND) as u32;
        let era = if HALF_ERA <= seconds { 0 } else { 1 };
        let since = seconds.wrapping_add(HALF_ERA) as u64 + FIRST;
        let day = Day((since / DAY) as u32);
        let time = Time(since % DAY);
        let places = self.0 % SECOND * BILLION / SECOND;
        write!(f, "{day} {time}.{places:09} UTC, if in era {era}")
    }
}
