ghost use Rattle.std.specs.Prelude.{◌≡◌, ◌≢◌, ℕ, pos, codes, Some, IfSome, IfNone, IsTrue};
ghost use Rattle.std.specs.Prelude.{◌==◌};
ghost use Rattle.dv_text.specs.Stamps.{is_stamp_number, open_end, stamp_of, stamp_text};

use crate::calendar::{END_OF_STAMPS, date_time, has_form, seconds_if, shown, two_digits};
use crate::failure::{Duplicate, Memory};
use std::marker::Model;

/// A moment to the second, as a load date or a snapshot date. Contracts see it as the seconds since
/// 1900-01-01T00:00:00, with 86,400 a day. The years are 1900 to 9998; `OPEN` alone is later.
#[derive(Clone, Copy, Debug, PartialEq, Eq, PartialOrd, Ord)]
pub struct Stamp {
    seconds: u64,
}

impl Model for Stamp {
    ghost use Rattle.std.specs.Prelude.{ℕ, IsTrue};
    ghost use Rattle.dv_text.specs.Stamps.{is_stamp_number};

    ghost Value = { ℕ };

    ghost view = { λ s. s.seconds };

    ghost invariant = { λ s. IsTrue (is_stamp_number s.seconds) };

    ghost inverse = { λ n. record { seconds = n } };
}

impl Stamp {
    /// The end of what has no end yet, which prints as `9999-12-31T23:59:59`. No text reads as it.
    pub const OPEN: Stamp = Stamp {
        seconds: 255_611_289_599,
    };

    /// Whether the stamp is `OPEN`. Takes no memory.
    pub fn is_open(self) -> bool
        ensures { result ≡ (self == open_end) }
    {
        self == Stamp::OPEN
    }

    /// The stamp that a text `YYYY-MM-DDTHH:MM:SS` says: a year from 1900 to 9998, a date of the
    /// Gregorian calendar and a time of day to 23:59:59. None for any other text. Takes no memory.
    ///
    /// ```rust
    /// assert_eq!(rt; Stamp::read(b"1900-01-02T01:01:01"), Stamp::from_number(90_061));
    /// assert_eq!(rt; Stamp::read(b"2024-02-30T00:00:00"), None);
    /// ```
    #[tactic(auto, using(crate::proofs::Forms::form_parts), unfolding(crate::specs::Stamps::stamp_in))]
    pub fn read(text: &[u8]) -> Option<Stamp>
        ensures { result ≡ stamp_of text.now }
    {
        if !has_form(text) {
            return None;
        }
        let year = two_digits(text, 0) as u16 * 100 + two_digits(text, 2) as u16;
        let (month, day) = (two_digits(text, 5), two_digits(text, 8));
        let (hour, minute, second) = (
            two_digits(text, 11),
            two_digits(text, 14),
            two_digits(text, 17),
        );
        match seconds_if(year, month, day, hour, minute, second) {
            Some(seconds) => Some(Stamp { seconds }),
            None => None,
        }
    }

    /// The text of the stamp, in the form that `read` takes. Takes no memory. The stamp with the
    /// number 121 prints as `1900-01-01T00:02:01`.
    pub fn print(self) -> [u8; 19]
        ensures shown { result ≡ stamp_text self }
        ensures reads_back { self ≢ open_end → stamp_of result ≡ Some self }
        ensures open { self ≡ open_end → result ≡ codes "9999-12-31T23:59:59" }
    {
        if self.is_open() {
            return *b"9999-12-31T23:59:59";
        }
        let at = date_time(self.seconds);
        let year = at.year() as u16;
        shown(
            year,
            at.month() as u8,
            at.day() as u8,
            at.hour() as u8,
            at.minute() as u8,
            at.second() as u8,
        )
    }

    /// The seconds since 1900-01-01T00:00:00. Takes no memory. They are 90,061 at
    /// 1900-01-02T01:01:01.
    pub fn number(self) -> i64
        ensures value { result ≡ pos self }
        ensures known { IsTrue (is_stamp_number self) }
    {
        self.seconds as i64
    }

    /// The stamp with this number, or `OPEN` with its own; none where neither has it. Takes no
    /// memory. Of 255,579,753,599 it is that of `9998-12-31T23:59:59`, and of 255,579,753,600 there
    /// is none.
    pub fn from_number(n: i64) -> Option<Stamp>
        ensures some { IfSome result (λ s. n ≡ pos s) }
        ensures none { IfNone result ((s : ℕ) → IsTrue (is_stamp_number s) → n ≢ pos s) }
    {
        if n < 0 {
            return None;
        }
        let seconds = n as u64;
        if seconds < END_OF_STAMPS || seconds == Stamp::OPEN.seconds {
            Some(Stamp { seconds })
        } else {
            None
        }
    }
}

impl Duplicate for Stamp {
    fn copy(&self) -> Result<Stamp, Memory> {
        Ok(*self)
    }
}
