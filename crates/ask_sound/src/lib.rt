// Rule 30: whether a table is sound for a text, so that questions about it have answers.
#![tactic(auto)]

ghost use Rattle.std.specs.Prelude.{◌≡◌, true, ◌+◌, ◌-◌, ◌*◌, ◌≤◌, ◌<◌, ◌↔◌, IsTrue, length, drop, get_or};
ghost use Rattle.std.specs.List.{All};
ghost use Rattle.table_layout.specs.Layout.{widths, maps, pins, matrices, part_count, step_width, value_width};
ghost use Rattle.table_layout.specs.Bounds.{deepest, most_conductors, most_values};
ghost use Rattle.table_record.specs.Way.Standing.{count_of, kinds_from, values_from, kinds_at, methods_at, values_at, Rooms};
ghost use Rattle.doc.specs.Holds.{is_in_upper_half, comes_before, rises};
ghost use Rattle.ask_sound.specs.Sound.{depth_stays, depth_after, depth_holds, is_model, is_end, is_section_step, is_fork_step, is_step, is_map, is_pin, are_matrices, is_section, is_matrix, is_value, is_sound, sound_view};
ghost use Rattle.ask_sound.specs.Way.Judging.{goes_on, reach, most_blocks, Reaches, ValueReaches, is_record, are_records, are_parts};

use table_layout::View;
use table_record::{
    MapRecord, MatrixRecord, ModelRecord, PinRecord, SectionRecord, StepRecord, Value, Words,
};

pub mod record;

// The reach of the first value of every block is stored: how many values rise from it on.
const BLOCK: u64 = 64;

const BLOCKS: usize = (table_layout::bound::VALUES / BLOCK) as usize;

// ---- models

// Whether a step of this kind is allowed at this depth: a fork below 8, an endfork above 0, any other step always.
fn depth_stays(depth: u64, kind: u64) -> bool
    ensures { result ≡ depth_stays depth kind }
{
    if kind == table_layout::code::FORK {
        return depth < table_layout::bound::DEPTH;
    }
    if kind == table_layout::code::ENDFORK {
        return 0 < depth;
    }
    true
}

// The depth after a step of this kind.
pub fn depth_after(depth: u64, kind: u64) -> u64
    requires { depth ≤ deepest }
    ensures { result ≡ depth_after depth kind }
{
    if kind == table_layout::code::FORK {
        return depth + 1;
    }
    if kind == table_layout::code::ENDFORK {
        if depth == 0 {
            return 0;
        }
        return depth - 1;
    }
    depth
}

// Whether the depth stays 0 to 8 and ends at 0, along `many` steps whose records begin at word `from`.
fn depth_holds(table: &[u64], from: usize, many: u64) -> bool
    requires { from + step_width * many ≤ length table.now }
    ensures { result ≡ depth_holds 0 (kinds_from table.now from many) }
{
    let mut depth = 0;
    for i in 0..many {
        let step = StepRecord::at(table, from + table_layout::STEP_WIDTH * (i as usize));
        if !depth_stays(depth, step.kind) {
            return false;
        }
        depth = depth_after(depth, step.kind);
    }
    depth == 0
}

fn is_model(bytes: u64, table: &[u64], view: View, model: ModelRecord) -> bool
    requires { Rooms table.now view }
    ensures { result ≡ is_model bytes (kinds_at table.now view) model }
{
    let bases = view.bases;
    let counts = view.counts;
    if !record::is_name_in(bytes, model.start, model.size) {
        return false;
    }
    if table_layout::code::TYPES <= model.kind {
        return false;
    }
    let first = model.first;
    let many = model.steps;
    if !record::is_range(first, many, counts[table_layout::STEPS]) {
        return false;
    }
    let from = bases[table_layout::STEPS] + table_layout::STEP_WIDTH * (first as usize);
    depth_holds(table, from, many)
}

// ---- steps

fn is_end(bytes: u64, maps: u64, step: StepRecord) -> bool
    ensures { result ≡ is_end bytes maps step }
{
    if maps <= step.target {
        return false;
    }
    if step.amount != 0 {
        return false;
    }
    record::is_side(bytes, step.side, step.side_size)
}

fn is_section_step(table: &[u64], view: View, step: StepRecord) -> bool
    requires { Rooms table.now view }
    ensures { result ≡ is_section_step (methods_at table.now view) step }
{
    let bases = view.bases;
    let counts = view.counts;
    let target = step.target;
    if counts[table_layout::SECTIONS] <= target {
        return false;
    }
    let at = bases[table_layout::SECTIONS] + table_layout::SECTION_WIDTH * (target as usize);
    let section = SectionRecord::at(table, at);
    if !record::amount_fits(section.method, step.amount) {
        return false;
    }
    record::has_no_side(step.side, step.side_size)
}

// A fork or an endfork.
fn is_fork_step(step: StepRecord) -> bool
    ensures { result ≡ is_fork_step step }
{
    if step.target != 0 {
        return false;
    }
    if step.amount != 0 {
        return false;
    }
    record::has_no_side(step.side, step.side_size)
}

fn is_step(bytes: u64, table: &[u64], view: View, step: StepRecord) -> bool
    requires { Rooms table.now view }
    ensures { result ≡ is_step bytes (count_of view maps) (methods_at table.now view) step }
{
    let counts = view.counts;
    let kind = step.kind;
    if kind == table_layout::code::END {
        return is_end(bytes, counts[table_layout::MAPS], step);
    }
    if kind == table_layout::code::SECTION {
        return is_section_step(table, view, step);
    }
    if table_layout::code::STEP_KINDS <= kind {
        return false;
    }
    is_fork_step(step)
}

// ---- maps and pins

fn is_map(bytes: u64, pins: u64, map: MapRecord) -> bool
    ensures { result ≡ is_map bytes pins map }
{
    if !record::is_name_in(bytes, map.start, map.size) {
        return false;
    }
    if table_layout::code::ORDERS <= map.order {
        return false;
    }
    if !record::is_grid(map.order, map.rows, map.columns) {
        return false;
    }
    if !record::is_range(map.first, map.pins, pins) {
        return false;
    }
    map.pins <= table_layout::bound::MAP_PINS
}

fn is_pin(bytes: u64, pin: PinRecord) -> bool
    ensures { result ≡ is_pin bytes pin }
{
    record::is_name_in(bytes, pin.start, pin.size)
}

// ---- sections, matrices and values

fn are_matrices(matrices: u64, section: SectionRecord) -> bool
    ensures { result ≡ are_matrices matrices section }
{
    if matrices < section.resistance {
        return false;
    }
    if matrices < section.inductance {
        return false;
    }
    if matrices < section.conductance {
        return false;
    }
    section.capacitance <= matrices
}

fn is_section(bytes: u64, matrices: u64, section: SectionRecord) -> bool
    ensures { result ≡ is_section bytes matrices section }
{
    if !record::is_name_in(bytes, section.start, section.size) {
        return false;
    }
    if table_layout::code::METHODS <= section.method {
        return false;
    }
    if !lex_number::is_within(1, table_layout::bound::CONDUCTORS, section.conductors) {
        return false;
    }
    are_matrices(matrices, section)
}

// "1 <= row <= column <= 256".
fn is_inside(value: Value) -> bool
    ensures { result ≡ is_in_upper_half most_conductors value }
{
    if value.row < 1 {
        return false;
    }
    if value.column < value.row {
        return false;
    }
    value.column <= table_layout::bound::CONDUCTORS
}

// Whether one value comes before another: by row, then by column.
pub fn comes_before(value: Value, next: Value) -> bool
    ensures { result ≡ comes_before value next }
{
    // Test by test: with `||` and `&&` LLVM builds no branches here, and the search of an entry is slower, measured.
    if value.row < next.row {
        return true;
    }
    if value.row != next.row {
        return false;
    }
    value.column < next.column
}

// Whether the first of `many` values has a row and a column in bounds and comes before the second, if there is one.
fn goes_on(table: &[u64], at: usize, many: u64) -> bool
    requires { (at + value_width * many ≤ length table.now) × (1 ≤ many) }
    ensures { result ≡ goes_on most_conductors (values_from table.now at many) }
{
    let value = Value::at(table, at);
    if !is_inside(value) {
        return false;
    }
    if many == 1 {
        return true;
    }
    comes_before(value, Value::at(table, at + table_layout::VALUE_WIDTH))
}

// The reach of the first of `many` values: how many of them rise from it on. `behind` is the reach of the second.
fn reach_on(table: &[u64], at: usize, many: u64, behind: u64) -> u64
    requires { (at + value_width * many ≤ length table.now) × (1 ≤ many) × (behind ≡ reach most_conductors (values_from table.now (at + value_width) (many - 1))) }
    ensures { result ≡ reach most_conductors (values_from table.now at many) }
{
    let value = Value::at(table, at);
    if !is_inside(value) {
        return 0;
    }
    if many == 1 {
        return 1;
    }
    if !comes_before(value, Value::at(table, at + table_layout::VALUE_WIDTH)) {
        return 1;
    }
    behind + 1
}

// Stores the reach of every 64th value, going from the last value to the first.
fn find_reaches(table: &[u64], from: usize, count: u64, blocks: &mut [u64])
    requires { (from + value_width * count ≤ length table.now) × (count ≤ most_values) × (length blocks.old ≡ most_blocks) }
    ensures { Reaches table.now from count blocks.new }
{
    let mut reach = 0;
    for i in (0..count).rev() {
        reach = reach_on(
            table,
            from + table_layout::VALUE_WIDTH * (i as usize),
            count - i,
            reach,
        );
        blocks[(i / BLOCK) as usize] = reach;
    }
}

// Whether `many` values rise from value `first` on; all values begin at word `base`. Goes one by one to the next 64th
// value, whose reach is stored.
fn values_rise(
    table: &[u64],
    blocks: &[u64],
    base: usize,
    count: u64,
    first: u64,
    many: u64,
) -> bool
    requires { Reaches table.now base count blocks.now × (base + value_width * count ≤ length table.now) × (count ≤ most_values) × (first + many ≤ count) }
    ensures { result ≡ rises most_conductors (values_from table.now (base + value_width * first) many) }
{
    let from = base + table_layout::VALUE_WIDTH * (first as usize);
    for i in 0..many {
        let place = first + i;
        if place % BLOCK == 0 {
            return many - i <= blocks[(place / BLOCK) as usize];
        }
        let at = from + table_layout::VALUE_WIDTH * (i as usize);
        if !goes_on(table, at, many - i) {
            return false;
        }
    }
    true
}

fn is_matrix(table: &[u64], blocks: &[u64], view: View, matrix: MatrixRecord) -> bool
    requires { Rooms table.now view × ValueReaches table.now view blocks.now }
    ensures { result ≡ is_matrix (values_at table.now view) matrix }
{
    let bases = view.bases;
    let counts = view.counts;
    if table_layout::code::FORMS <= matrix.form {
        return false;
    }
    if !record::is_bandwidth(matrix.form, matrix.bandwidth) {
        return false;
    }
    let first = matrix.first;
    let many = matrix.values;
    let count = counts[table_layout::VALUES];
    if !record::is_range(first, many, count) {
        return false;
    }
    values_rise(
        table,
        blocks,
        bases[table_layout::VALUES],
        count,
        first,
        many,
    )
}

fn is_value(value: Value) -> bool
    ensures { result ≡ is_value value }
{
    lex_number::is_value_word(value.word)
}

// ---- the whole

// Whether the record of a part that begins at word `at` is sound.
fn is_record(bytes: u64, table: &[u64], blocks: &[u64], view: View, part: usize, at: usize) -> bool
    requires { Rooms table.now view × ValueReaches table.now view blocks.now × (part < part_count) × (at + get_or widths part 0 ≤ length table.now) }
    ensures { result ≡ is_record bytes table.now view part at }
{
    let counts = view.counts;
    if part == table_layout::MODELS {
        return is_model(bytes, table, view, ModelRecord::at(table, at));
    }
    if part == table_layout::STEPS {
        return is_step(bytes, table, view, StepRecord::at(table, at));
    }
    if part == table_layout::MAPS {
        return is_map(bytes, counts[table_layout::PINS], MapRecord::at(table, at));
    }
    if part == table_layout::PINS {
        return is_pin(bytes, PinRecord::at(table, at));
    }
    if part == table_layout::SECTIONS {
        let section = SectionRecord::at(table, at);
        return is_section(bytes, counts[table_layout::MATRICES], section);
    }
    if part == table_layout::MATRICES {
        return is_matrix(table, blocks, view, MatrixRecord::at(table, at));
    }
    if part == table_layout::VALUES {
        return is_value(Value::at(table, at));
    }
    true
}

// All records of a part.
fn are_records(bytes: u64, table: &[u64], blocks: &[u64], view: View, part: usize) -> bool
    requires { Rooms table.now view × ValueReaches table.now view blocks.now × (part < part_count) }
    ensures { result ≡ are_records bytes table.now view part }
{
    let base = view.bases[part];
    let width = table_layout::WIDTHS[part];
    for i in 0..view.counts[part] {
        let at = base + width * (i as usize);
        if !is_record(bytes, table, blocks, view, part, at) {
            return false;
        }
    }
    true
}

// All parts.
fn are_parts(bytes: u64, table: &[u64], blocks: &[u64], view: View) -> bool
    requires { Rooms table.now view × ValueReaches table.now view blocks.now }
    ensures { result ≡ are_parts bytes table.now view 0 part_count }
{
    for part in 0..table_layout::PARTS {
        if !are_records(bytes, table, blocks, view, part) {
            return false;
        }
    }
    true
}

// Whether all words from `from` on are 0.
fn zeros_from(table: &[u64], from: usize) -> bool
    requires { from ≤ length table.now }
    ensures { IsTrue result ↔ All (λ w. w ≡ 0) (drop from table.now) }
{
    table[from..].iter().all(|&word| word == 0)
}

// The view of a table that is sound for a text. A question about any other table is refused with 30.
pub fn sound_view(text: &[u8], table: &[u64]) -> Option<View>
    ensures { result ≡ sound_view text.now table.now }
{
    let view = table_layout::view_of(table)?;
    if !zeros_from(table, view.end) {
        return None;
    }
    let mut blocks = [0; BLOCKS];
    find_reaches(
        table,
        view.bases[table_layout::VALUES],
        view.counts[table_layout::VALUES],
        &mut blocks,
    );
    if !are_parts(text.len() as u64, table, &blocks, view) {
        return None;
    }
    Some(view)
}

// The view of a table that the caller knows to be sound for the text: the table is not judged. If it is not sound,
// nothing is promised.
pub fn view_unjudged(text: &[u8], table: &[u64]) -> View
    requires { is_sound text.now table.now ≡ true }
    ensures { Some result ≡ sound_view text.now table.now }
{
    table_layout::view_of(table).unwrap()
}

// Whether a table is sound for a text.
pub fn is_sound(text: &[u8], table: &[u64]) -> bool
    ensures { result ≡ is_sound text.now table.now }
{
    sound_view(text, table).is_some()
}
