// Dates and times of day by `jiff`, as seconds since 1900-01-01T00:00:00.
ghost use Rattle.std.specs.Prelude.{◌≡◌, ◌+◌, ◌*◌, ◌<◌, ◌≤◌, length, pos, IsTrue, IfSome, Some};
ghost use Rattle.jiff.specs.Words.{IsBetween};
ghost use Rattle.jiff_core.specs.Time.{time_seconds};
ghost use Rattle.dv_text.specs.Stamps as spec;

use jiff::Timestamp;
use jiff::civil::{Date, DateTime, Time};
use jiff::tz::Offset;

// The seconds from 1900-01-01T00:00:00 to 1970-01-01T00:00:00.
const TO_UNIX_EPOCH: i64 = 2_208_988_800;

// The seconds from 1900-01-01T00:00:00 to 9999-01-01T00:00:00.
pub(crate) const END_OF_STAMPS: u64 = 255_579_753_600;

// Whether two digits stand at a place.
fn are_two_digits(text: &[u8], at: usize) -> bool
    requires { at + 2 ≤ length text.now }
    ensures { result ≡ spec.are_two_at text.now at }
{
    text[at].is_ascii_digit() && text[at + 1].is_ascii_digit()
}

// The number of the two digits at a place.
pub(crate) fn two_digits(text: &[u8], at: usize) -> u8
    requires place { at + 2 ≤ length text.now }
    requires digits { IsTrue (spec.are_two_at text.now at) }
    ensures value { result ≡ spec.two_at text.now at }
    ensures small { result < 100 }
{
    (text[at] - b'0') * 10 + (text[at + 1] - b'0')
}

// Whether the marks stand between the numbers.
#[tactic(auto, unfolding(crate::specs::Stamps::has_marks))]
fn has_marks(text: &[u8]) -> bool
    requires { length text.now ≡ 19 }
    ensures { result ≡ spec.has_marks text.now }
{
    text[4] == b'-' && text[7] == b'-' && text[10] == b'T' && text[13] == b':' && text[16] == b':'
}

// Whether the numbers are digits.
#[tactic(auto, unfolding(crate::specs::Stamps::has_digits))]
fn has_digits(text: &[u8]) -> bool
    requires { length text.now ≡ 19 }
    ensures { result ≡ spec.has_digits text.now }
{
    are_two_digits(text, 0)
        && are_two_digits(text, 2)
        && are_two_digits(text, 5)
        && are_two_digits(text, 8)
        && are_two_digits(text, 11)
        && are_two_digits(text, 14)
        && are_two_digits(text, 17)
}

// Whether a text is `dddd-dd-ddTdd:dd:dd`, with a digit for each d.
#[tactic(auto, unfolding(crate::specs::Stamps::has_form))]
pub(crate) fn has_form(text: &[u8]) -> bool
    ensures { result ≡ spec.has_form text.now }
{
    text.len() == 19 && has_marks(text) && has_digits(text)
}

// The seconds from 1900-01-01T00:00:00 to a whole second of a day.
fn seconds_at(date: Date, time: Time) -> u64
    requires year { IsBetween (pos 1900) (pos 9998) date.year }
    requires whole { time.subsec_nanosecond ≡ 0 }
    ensures value { result ≡ spec.days_since_1900 date.year date.month date.day * 86400 + time_seconds time }
    ensures small { result < spec.end_of_stamps }
{
    match Offset::UTC.to_timestamp(DateTime::from_parts(date, time)) {
        Ok(instant) => (instant.as_second() + TO_UNIX_EPOCH) as u64,
        Err(_) => unreachable!(),
    }
}

// The seconds of a date and a time of day, where the calendar and the clock have both.
#[tactic(auto, using(std::proofs::lemmas::Bool::Decides::nat_tests), unfolding(crate::specs::Stamps::seconds_if))]
pub(crate) fn seconds_if(
    year: u16,
    month: u8,
    day: u8,
    hour: u8,
    minute: u8,
    second: u8,
) -> Option<u64>
    requires month { month < 100 }
    requires day { day < 100 }
    requires hour { hour < 100 }
    requires minute { minute < 100 }
    requires second { second < 100 }
    ensures value { result ≡ spec.seconds_if 9998 year month day hour minute second }
    ensures small { IfSome result (λ s. s < spec.end_of_stamps) }
{
    if year < 1900 || year > 9998 {
        return None;
    }
    let Ok(date) = Date::new(year as i16, month as i8, day as i8) else {
        return None;
    };
    let Ok(time) = Time::new(hour as i8, minute as i8, second as i8, 0) else {
        return None;
    };
    Some(seconds_at(date, time))
}

// The text of a date and a time of day.
pub(crate) fn shown(year: u16, month: u8, day: u8, hour: u8, minute: u8, second: u8) -> [u8; 19]
    requires { IsTrue (spec.is_there 9998 year month day hour minute second) }
    ensures value { spec.stamp_in 9998 result ≡ Some (spec.seconds_of year month day hour minute second) }
    ensures shown { result ≡ spec.stamp_text (spec.seconds_of year month day hour minute second) }
{
    let century = (year / 100) as u8;
    let short = (year % 100) as u8;
    [
        b'0' + century / 10,
        b'0' + century % 10,
        b'0' + short / 10,
        b'0' + short % 10,
        b'-',
        b'0' + month / 10,
        b'0' + month % 10,
        b'-',
        b'0' + day / 10,
        b'0' + day % 10,
        b'T',
        b'0' + hour / 10,
        b'0' + hour % 10,
        b':',
        b'0' + minute / 10,
        b'0' + minute % 10,
        b':',
        b'0' + second / 10,
        b'0' + second % 10,
    ]
}

// The date and the time of day of so many seconds since 1900-01-01T00:00:00.
pub(crate) fn date_time(seconds: u64) -> DateTime
    requires { seconds < spec.end_of_stamps }
    ensures year { IsBetween (pos 1900) (pos 9998) result.date.year }
    ensures whole { result.time.subsec_nanosecond ≡ 0 }
    ensures value { seconds ≡ spec.days_since_1900 result.date.year result.date.month result.date.day * 86400 + time_seconds result.time }
{
    match Timestamp::from_second(seconds as i64 - TO_UNIX_EPOCH) {
        Ok(instant) => Offset::UTC.to_datetime(instant),
        Err(_) => unreachable!(),
    }
}
