// Helpers of the rules 19 to 29: the line that writes a record, where a broken rule is reported, and repeated names.
#![tactic(auto)]

ghost use Rattle.std.specs.Prelude.{◌≡◌, eqb, length, ◌-◌, ◌+◌, ◌*◌, ◌≤◌};
ghost use Rattle.base.specs.If.{provided◌then◌else◌, both};
ghost use Rattle.table_record.specs.Way.Standing.{name_width};
ghost use Rattle.doc.specs.Lines.{significant};
ghost use Rattle.cross_rules.specs.Way.Nth.{writes_at, nth_line};
ghost use Rattle.cross_rules.specs.Way.Repeated.{is_repeated, MarkedNames};

// A line, and the rule of 19 to 29 that it breaks; rule 0 if it breaks none.
#[derive(Clone, Copy)]
pub struct Finding {
    pub rule: u64,
    pub line: u64,
}

// Whether a line with this keyword, read in this place, writes a record of the part: models, maps, sections, or else pins.
fn writes_at(part: usize, place: u64, key: u64) -> bool
    ensures { result ≡ writes_at part place key }
{
    if part == table_layout::MODELS {
        if !line_place::is_in_family(place) {
            return false;
        }
        return key == lex_keyword::BEGIN_ICM_MODEL;
    }
    if part == table_layout::MAPS {
        if !line_place::is_in_family(place) {
            return false;
        }
        return key == lex_keyword::ICM_PIN_MAP;
    }
    if part == table_layout::SECTIONS {
        if place != line_place::AFTER {
            return false;
        }
        return key == lex_keyword::BEGIN_ICM_SECTION;
    }
    if place != line_place::PIN_LIST {
        return false;
    }
    key == doc::PLAIN
}

// Whether this is the line searched for: it writes a record, and no record is left to skip.
fn is_last(writes: bool, left: u64) -> bool
    ensures { result ≡ both writes (eqb left 0) }
{
    if !writes {
        return false;
    }
    left == 0
}

// How many records are left to skip after a line: one fewer if the line writes one, but never below 0.
fn less_if(writes: bool, left: u64) -> u64
    ensures { result ≡ (provided writes then left - 1 else left) }
{
    if !writes {
        return left;
    }
    base::minus(left, 1)
}

// The line that writes record `index` (from 0) of a part; 0 if the part has fewer records.
pub fn nth_line(text: &[u8], part: usize, index: u64) -> u64
    ensures { result ≡ nth_line part index (significant text.now) }
{
    let mut left = index;
    let mut cursor = doc::start();
    loop {
        let line = doc::next_line(text, cursor.at, cursor.line);
        if !line.there {
            return 0;
        }
        let writes = writes_at(part, cursor.place, line.key);
        if is_last(writes, left) {
            return line.line;
        }
        left = less_if(writes, left);
        cursor = doc::past(text, cursor, line);
    }
}

// ---- names that occur twice among the records of a part

// Whether a record before record `index` has the same name. Records of `width` words begin at word `base`.
pub fn is_repeated_name(text: &[u8], table: &[u64], base: usize, width: usize, index: u64) -> bool
    requires { (base + width * index + width ≤ length table.now) × (name_width ≤ width) }
    ensures { result ≡ is_repeated text.now table.now base width index }
{
    let own = table_record::name_at(table, base + width * (index as usize));
    let name = table_name::name_at(text, own.start, own.size);
    table_name::find_name(text, table, base, width, index, name, 0) < index
}

// The same answer, with fewer comparisons. The marks of all names before `index` hold `stamp`: a name whose mark does
// not hold it is new. Sets the mark of its own name for the records after it.
pub fn is_repeated_marked(
    text: &[u8],
    table: &[u64],
    marks: &mut [u8; table_name::MARKS],
    stamp: u8,
    base: usize,
    width: usize,
    index: u64,
) -> bool
    requires { (base + width * index + width ≤ length table.now) × (name_width ≤ width) × MarkedNames text.now table.now marks.old stamp base width index }
    ensures { (result ≡ is_repeated text.now table.now base width index) × MarkedNames text.now table.now marks.new stamp base width (index + 1) }
{
    let own = table_record::name_at(table, base + width * (index as usize));
    let name = table_name::name_at(text, own.start, own.size);
    let mark = table_name::hash_of(0, name);
    let met = marks[mark] == stamp;
    marks[mark] = stamp;
    if !met {
        return false;
    }
    is_repeated_name(text, table, base, width, index)
}
