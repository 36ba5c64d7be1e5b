//! Points in time with an offset from UTC.

use jiff::Timestamp;
use jiff::tz::Offset;

/// A point in time, and the offset from UTC of the place where the clock was read.
#[derive(Clone, Copy, Debug)]
pub struct Moment {
    /// The instant.
    pub timestamp: Timestamp,

    /// The offset from UTC.
    pub offset: Offset,
}
