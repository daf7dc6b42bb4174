// How long lines and a log may be.

/// How many bytes a line has at most, without its line feed.
pub const LINE_LIMIT: usize = 1_048_576;

/// How many bytes a log has at most, its line feeds among them.
pub const LOG_LIMIT: usize = 1_073_741_824;

/// How many bytes the line before a log has at most, without its line feed.
pub const FIRST_LINE_LIMIT: usize = 16_777_216;
