//! The time of an event.
use jiff::Timestamp;
use std::alloc::{AllocError, Global};

/// What stands in place of a time that can't be told.
const NONE: &str = "-";

/// A moment, in milliseconds since 1970, as a time of UTC (RFC 3339): `2023-11-14T22:13:20.5Z`; and `-` where it lies
/// beyond the year 9999.
pub fn time_text(alloc: Global, moment: u64) -> Result<String, AllocError> {
    let Ok(milliseconds) = i64::try_from(moment) else {
        return String::from_str(alloc, NONE);
    };
    match Timestamp::from_millisecond(milliseconds) {
        Ok(time) => format!(in alloc; "{time}"),
        Err(_) => String::from_str(alloc, NONE),
    }
}
