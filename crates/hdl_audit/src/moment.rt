//! Moments in words.

use jiff_core::Timestamp;
use jiff_fmt::temporal::DateTimePrinter;
use std::fmt;

/// A moment, in milliseconds since the beginning of 1970 at UTC. Its words are those of RFC 3339.
#[derive(Clone, Copy)]
pub struct Moment(pub u64);

impl fmt::Display for Moment {
    fn fmt<W: fmt::Write>(&self, f: &mut fmt::Formatter<W>) -> fmt::Result {
        match Timestamp::from_nanosecond(i128::from(self.0) * 1_000_000) {
            Ok(moment) => f.write_str(DateTimePrinter::new().timestamp_text(moment).as_str()),
            // the calendar ends with the year 9999
            Err(_) => f.write_str("-"),
        }
    }
}
