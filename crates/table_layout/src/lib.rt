// The parts of a table: how many words they need, where each begins, and where the parts of a given table are.
#![tactic(auto)]

ghost use Rattle.std.specs.Prelude.{◌≡◌, ◌+◌, ◌≤◌, ◌<◌, take, get_or};
ghost use Rattle.table_layout.specs.Layout.{widths, part_count, needed};
ghost use Rattle.table_layout.specs.Bounds.{bounds};
ghost use Rattle.table_layout.specs.Way.Bases.{part_base, BoundedCounts};
ghost use Rattle.table_layout.specs.View.{view_of};

pub mod bound;
pub mod code;

// The parts of a table, in the paper's order.
pub const MODELS: usize = 0;

pub const STEPS: usize = 1;

pub const MAPS: usize = 2;

pub const PINS: usize = 3;

pub const SECTIONS: usize = 4;

pub const MATRICES: usize = 5;

pub const VALUES: usize = 6;

pub const PARTS: usize = 7;

// How many words a record of each part has.
pub const MODEL_WIDTH: usize = 5;

pub const STEP_WIDTH: usize = 6;

pub const MAP_WIDTH: usize = 7;

pub const PIN_WIDTH: usize = 2;

pub const SECTION_WIDTH: usize = 8;

pub const MATRIX_WIDTH: usize = 5;

pub const VALUE_WIDTH: usize = 3;

pub const WIDTHS: [usize; PARTS] = [
    MODEL_WIDTH,
    STEP_WIDTH,
    MAP_WIDTH,
    PIN_WIDTH,
    SECTION_WIDTH,
    MATRIX_WIDTH,
    VALUE_WIDTH,
];

// The most records that each part may have.
const BOUNDS: [u64; PARTS] = [
    bound::MODELS,
    bound::STEPS,
    bound::MAPS,
    bound::PINS,
    bound::SECTIONS,
    bound::MATRICES,
    bound::VALUES,
];

// ---- where the parts of a table are, given how many records each has

// The words of the parts before this one.
fn words_before(counts: [u64; PARTS], part: usize) -> usize
    requires { BoundedCounts counts × (part ≤ part_count) }
    ensures { result ≡ needed (take part widths) (take part counts) }
{
    let mut words = 0;
    for next in 0..part {
        words += 1 + WIDTHS[next] * (counts[next] as usize);
    }
    words
}

// The words that all parts need.
pub fn words_needed(counts: [u64; PARTS]) -> usize
    requires { BoundedCounts counts }
    ensures { result ≡ needed widths counts }
{
    words_before(counts, PARTS)
}

// The words of a table with as many records of each part as its bound allows.
pub fn most_words() -> usize
    ensures { result ≡ needed widths bounds }
{
    words_needed(BOUNDS)
}

// Where the records of a part begin.
pub fn part_base(counts: [u64; PARTS], part: usize) -> usize
    requires { BoundedCounts counts × (part < part_count) }
    ensures { result ≡ part_base counts part }
{
    words_before(counts, part) + 1
}

// ---- where the parts of a table are, by the counts that the table itself gives

// Where the records of each part begin, how many there are, and where the last one ends.
#[derive(Clone, Copy)]
pub struct View {
    pub bases: [usize; PARTS],
    pub counts: [u64; PARTS],
    pub end: usize,
}

// A word of a table, 0 past its end.
fn word_at(table: &[u64], at: usize) -> u64
    ensures { result ≡ get_or table.now at 0 }
{
    table.get(at).copied().unwrap_or(0)
}

// The view of any table; none if a count is above its bound, or if not all records lie inside the table.
pub fn view_of(table: &[u64]) -> Option<View>
    ensures { result ≡ view_of table.now }
{
    let mut bases = [0; PARTS];
    let mut counts = [0; PARTS];
    let mut at = 0;
    for part in 0..PARTS {
        let count = word_at(table, at);
        if BOUNDS[part] < count {
            return None;
        }
        bases[part] = at + 1;
        counts[part] = count;
        at = at + 1 + WIDTHS[part] * (count as usize);
    }
    if table.len() < at {
        return None;
    }
    Some(View {
        bases,
        counts,
        end: at,
    })
}
