// The numbers that stand for words in a table: "enumerations in the order listed above", each from 0.

// The kind of a step.
pub const END: u64 = 0;

pub const SECTION: u64 = 1;

pub const FORK: u64 = 2;

pub const ENDFORK: u64 = 3;

pub const STEP_KINDS: u64 = 4;

// The type of a model.
pub const SLM_GENERAL: u64 = 0;

pub const SLM_QUIESCENT: u64 = 1;

pub const MLM: u64 = 2;

pub const TYPES: u64 = 3;

// The order of a map's pins.
pub const ROW_ORDERED: u64 = 0;

pub const COLUMN_ORDERED: u64 = 1;

pub const UN_ORDERED: u64 = 2;

pub const ORDERS: u64 = 3;

// The method of a section.
pub const LUMPED: u64 = 0;

pub const DISTRIBUTED: u64 = 1;

pub const METHODS: u64 = 2;

// The kind of a matrix.
pub const RESISTANCE: u64 = 0;

pub const INDUCTANCE: u64 = 1;

pub const CONDUCTANCE: u64 = 2;

pub const CAPACITANCE: u64 = 3;

pub const MATRIX_KINDS: u64 = 4;

// The form of a matrix.
pub const DIAGONAL: u64 = 0;

pub const BANDED: u64 = 1;

pub const SPARSE: u64 = 2;

pub const FULL: u64 = 3;

pub const FORMS: u64 = 4;
