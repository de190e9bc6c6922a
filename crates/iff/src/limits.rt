// Document 01's limits, as the definitions have them.
// A file's bytes.
pub const LONGEST_FILE: usize = 268435455;

// Days that a delivery spans.
pub const MOST_DAYS: u64 = 800;

// Modes of a delivery.
pub const MOST_MODES: usize = 64;

// Stops of a service.
pub const MOST_STOPS: u64 = 998;

// The words of a vector's marks, 64 to a word.
pub const MARK_WORDS: usize = 13;

// The words of the widest row, a vector's.
pub const WIDEST_ROW: usize = 14;
