// The first words of rows: the record's letter, or 1 where it has none. The same names are in specs/Bytes.antt and specs/Tables.antt.
pub const LETTERLESS: u64 = 1;

pub const HASH: u64 = 35;

pub const PERCENT: u64 = 37;

pub const AMPERSAND: u64 = 38;

pub const ASTERISK: u64 = 42;

pub const PLUS: u64 = 43;

pub const DASH: u64 = 45;

pub const DOT: u64 = 46;

pub const SEMICOLON: u64 = 59;

pub const LESS: u64 = 60;

pub const GREATER: u64 = 62;

pub const QUESTION: u64 = 63;

pub const AT: u64 = 64;
