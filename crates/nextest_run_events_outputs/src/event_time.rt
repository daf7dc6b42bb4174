// A moment, and how the clock on the wall was set.

/// A moment, and how the clock on the wall was set.
#[derive(Clone, Copy, Debug, PartialEq, Eq)]
pub struct EventTime {
    /// Nanoseconds since the start of 1970 in UTC, below 0 before it.
    pub unix_nanos: i128,
    /// The UTC offset of local time, in minutes.
    pub offset_minutes: i32,
}
