// Names in the records of a table: their bytes in the text, the first record of a name, and marks (hashes) of names.
#![tactic(auto)]

ghost use Rattle.std.specs.Prelude.{◌≡◌, false, ◌+◌, ◌*◌, ◌≤◌, ◌<◌, length};
ghost use Rattle.table_name.specs.Name.{name_at};
ghost use Rattle.table_name.specs.Way.Search.{has_name, find_in, Tails};
ghost use Rattle.table_name.specs.Way.Hash.{hash_of};
ghost use Rattle.table_record.specs.Way.Standing.{name_width};

use table_record::NameRecord;

mod fast;

// How many marks there are: one for each map, for what has no name, then four for each of the most names that are marked
// at a time, the Sides of the ends of a model.
const BARE_MARKS: usize = table_layout::bound::MAPS as usize;

const NAME_MARKS: usize = 4 * table_layout::bound::STEPS as usize;

pub const MARKS: usize = BARE_MARKS + NAME_MARKS;

// The bytes of a name, as far as they lie inside the text.
pub fn name_at(text: &[u8], start: u64, size: u64) -> &[u8]
    ensures { result.now ≡ name_at text.now start size }
{
    let from = start as usize;
    let long = size as usize;
    if text.len() <= from {
        return &text[..0];
    }
    if text.len() - from <= long {
        return &text[from..];
    }
    &text[from..from + long]
}

// Whether a record has this name, and has it at offset `after` of the text or later.
fn has_name(text: &[u8], own: NameRecord, name: &[u8], tail: u64, after: usize) -> bool
    requires { Tails name.now tail }
    ensures { result ≡ has_name text.now name.now after own }
{
    let start = own.start;
    if start < after as u64 {
        return false;
    }
    if fast::ends_otherwise(text, start, name, tail) {
        return false;
    }
    lex_line::same_bytes(name, name_at(text, start, own.size))
}

// The index of the first of `count` records that has this name at offset `after` of the text or later; `count` if there
// is none.
pub fn find_name(
    text: &[u8],
    table: &[u64],
    base: usize,
    width: usize,
    count: u64,
    name: &[u8],
    after: usize,
) -> u64
    requires { (base + width * count ≤ length table.now) × (name_width ≤ width) }
    ensures { result ≡ find_in text.now table.now base width count name.now after }
{
    let tail = fast::tail_of(name);
    for i in 0..count {
        let own = table_record::name_at(table, base + width * (i as usize));
        if has_name(text, own, name, tail, after) {
            return i;
        }
    }
    count
}

// The mark of a name in a group: for the side of an end, the group is its map; for pins there is one group, 0. Equal names
// of one group have the same mark, others seldom.
pub fn hash_of(group: u64, name: &[u8]) -> usize
    ensures { result ≡ hash_of group name.now }
{
    let mut mark = group as usize % BARE_MARKS;
    for b in name {
        mark = (mark * 37 + usize::from(*b)) % NAME_MARKS + BARE_MARKS;
    }
    mark
}
