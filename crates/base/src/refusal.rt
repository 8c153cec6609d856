// The paper's numbers of refusal, by its names. No other file has them as figures.
pub const SIZE: u64 = 1;

pub const BYTE: u64 = 2;

pub const LONG: u64 = 3;

pub const UNENDED: u64 = 4;

pub const HEADER: u64 = 5;

pub const KEYWORD: u64 = 6;

pub const UNKNOWN: u64 = 7;

pub const LATER: u64 = 8;

pub const PLACE: u64 = 9;

pub const END: u64 = 10;

pub const ARGUMENT: u64 = 11;

pub const LINE: u64 = 12;

pub const NUMBER: u64 = 13;

pub const RANGE: u64 = 14;

pub const FORK: u64 = 15;

pub const SHAPE: u64 = 16;

pub const LIMIT: u64 = 17;

pub const ROOM: u64 = 18;

pub const TWICE: u64 = 19;

pub const LIST: u64 = 20;

pub const NOMAP: u64 = 21;

pub const SIDE: u64 = 22;

pub const NOSECTION: u64 = 23;

pub const METHOD: u64 = 24;

pub const KIND: u64 = 25;

pub const COUNT: u64 = 26;

pub const UNUSED: u64 = 27;

pub const SGR: u64 = 29;

pub const TABLE: u64 = 30;

pub const NOSUCH: u64 = 31;
