// The paper's bounds. A count above its bound is refused, and so is a table whose counts are.
pub const MODELS: u64 = 64;

pub const STEPS: u64 = 4_096;

pub const MAPS: u64 = 64;

pub const PINS: u64 = 4_096;

pub const SECTIONS: u64 = 256;

pub const MATRICES: u64 = 1_024;

pub const VALUES: u64 = 65_536;

// The most pins of one map, rows and columns of its grid.
pub const MAP_PINS: u64 = 256;

// The most conductors of a section.
pub const CONDUCTORS: u64 = 256;

// How many forks may be open.
pub const DEPTH: u64 = 8;

// The greatest bandwidth, the greatest Mult, and the greatest n of SGR.
pub const BANDWIDTH: u64 = 255;

pub const MULT: u64 = 65_535;

pub const RATIO: u64 = 65_535;

// The most bytes of a name.
pub const NAME: u64 = 120;
