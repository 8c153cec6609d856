// Document 01, "Listing": what icm-list prints, from the text and the table alone, into lent room. Each function writes from
// offset `at` on and returns the next offset. No word of the table is trusted: a record that does not exist reads as zeros.
#![tactic(auto)]

ghost use Rattle.std.specs.Prelude.{◌≡◌, ◌∷◌, [], ◌++◌, ◌+◌, eqb, get_or};
ghost use Rattle.table_name.specs.Name.{name_at};
ghost use Rattle.out_text.specs.Printing.{line_of, decimal};
ghost use Rattle.out_text.specs.Written.{Written};
ghost use Rattle.out_listing.specs.Shown.{shown, kind_in, owner_of, values_in};
ghost use Rattle.out_listing.specs.Way.View.{shown_view};
ghost use Rattle.out_listing.specs.Listing.{type_text, method_text, kind_text, listed_from, listed_model, listed_end, amount_text, listed_section_step, listed_step, listed_map, listed_section, listed_value, listed_record, part_text, matrix_text, values_text, all_parts_text, listing, refusal_text};

use table_layout::View;
use table_record::{
    MapRecord, MatrixRecord, ModelRecord, Record, SectionRecord, StepRecord, Value,
};

// The view of a table that does not fit: it has no record of any part.
const NO_VIEW: View = View {
    bases: [0; table_layout::PARTS],
    counts: [0; table_layout::PARTS],
    end: 0,
};

// ---- a record of any table, by its index

// The record of an index. One that does not exist reads as zeros.
fn record_of<R: Record>(table: &[u64], view: View, index: u64) -> R
    requires { view ≡ shown_view table.now }
    ensures { result ≡ get_or (R.kind (shown table.now)) index R.none }
{
    if view.counts[R::PART] <= index {
        return R::default();
    }
    table_record::nth(table, view, index)
}

// ---- fields

fn put_name(out: &mut [u8], at: usize, text: &[u8], start: u64, size: u64, after: u8) -> usize
    ensures { Written out.old out.new at result (name_at text.now start size ++ (after ∷ [])) }
{
    out_text::put_field(out, at, table_name::name_at(text, start, size), after)
}

// The word for a model's type; nothing for another number.
fn type_word(number: u64) -> &'static [u8]
    ensures { result.now ≡ type_text number }
{
    match number {
        table_layout::code::SLM_GENERAL => b"SLM_general",
        table_layout::code::SLM_QUIESCENT => b"SLM_quiescent",
        table_layout::code::MLM => b"MLM",
        _ => b"",
    }
}

// The word for a section's method; nothing for another number.
fn method_word(number: u64) -> &'static [u8]
    ensures { result.now ≡ method_text number }
{
    match number {
        table_layout::code::LUMPED => b"Lumped",
        table_layout::code::DISTRIBUTED => b"Distributed",
        _ => b"",
    }
}

// The letter for a kind of matrix; nothing for another number.
fn kind_word(kind: u64) -> &'static [u8]
    ensures { result.now ≡ kind_text kind }
{
    match kind {
        table_layout::code::RESISTANCE => b"R",
        table_layout::code::INDUCTANCE => b"L",
        table_layout::code::CONDUCTANCE => b"G",
        table_layout::code::CAPACITANCE => b"C",
        _ => b"",
    }
}

// A line of a word and a number.
fn head_line(out: &mut [u8], at: usize, word: &[u8], n: u64) -> usize
    ensures { Written out.old out.new at result (line_of (word.now ∷ decimal n ∷ [])) }
{
    let second = out_text::put_field(out, at, word, b' ');
    out_text::put_decimal(out, second, n, b'\n')
}

fn model_line(out: &mut [u8], at: usize, text: &[u8], model: ModelRecord) -> usize
    ensures { Written out.old out.new at result (listed_model text.now model) }
{
    let second = put_name(out, at, text, model.start, model.size, b' ');
    let third = out_text::put_field(out, second, type_word(model.kind), b' ');
    out_text::put_decimal(out, third, model.steps, b'\n')
}

fn map_line(out: &mut [u8], at: usize, text: &[u8], map: MapRecord) -> usize
    ensures { Written out.old out.new at result (listed_map text.now map) }
{
    let second = put_name(out, at, text, map.start, map.size, b' ');
    out_text::put_decimal(out, second, map.pins, b'\n')
}

fn section_line(out: &mut [u8], at: usize, text: &[u8], section: SectionRecord) -> usize
    ensures { Written out.old out.new at result (listed_section text.now section) }
{
    let second = put_name(out, at, text, section.start, section.size, b' ');
    let third = out_text::put_field(out, second, method_word(section.method), b' ');
    out_text::put_decimal(out, third, section.conductors, b'\n')
}

// ---- steps

fn end_line(
    out: &mut [u8],
    at: usize,
    text: &[u8],
    table: &[u64],
    view: View,
    step: StepRecord,
) -> usize
    requires { view ≡ shown_view table.now }
    ensures { Written out.old out.new at result (listed_end text.now (shown table.now) step) }
{
    let map = record_of::<MapRecord>(table, view, step.target);
    let second = out_text::put_field(out, at, b"end", b' ');
    let third = out_text::put_decimal(out, second, step.line, b' ');
    if step.side_size == 0 {
        put_name(out, third, text, map.start, map.size, b'\n')
    } else {
        let fourth = put_name(out, third, text, map.start, map.size, b' ');
        put_name(out, fourth, text, step.side, step.side_size, b'\n')
    }
}

// Prints the amount of a step over this section: a Mult if the section is Lumped, else a Len.
fn put_amount(out: &mut [u8], at: usize, method: u64, amount: u64) -> usize
    ensures { Written out.old out.new at result (amount_text method amount ++ (10 ∷ [])) }
{
    if method == table_layout::code::LUMPED {
        out_text::put_decimal(out, at, amount, b'\n')
    } else {
        out_text::put_value(out, at, amount, b'\n')
    }
}

fn section_step_line(
    out: &mut [u8],
    at: usize,
    text: &[u8],
    table: &[u64],
    view: View,
    step: StepRecord,
) -> usize
    requires { view ≡ shown_view table.now }
    ensures { Written out.old out.new at result (listed_section_step text.now (shown table.now) step) }
{
    let section = record_of::<SectionRecord>(table, view, step.target);
    let second = out_text::put_field(out, at, b"section", b' ');
    let third = out_text::put_decimal(out, second, step.line, b' ');
    let fourth = put_name(out, third, text, section.start, section.size, b' ');
    put_amount(out, fourth, section.method, step.amount)
}

fn step_line(
    out: &mut [u8],
    at: usize,
    text: &[u8],
    table: &[u64],
    view: View,
    step: StepRecord,
) -> usize
    requires { view ≡ shown_view table.now }
    ensures { Written out.old out.new at result (listed_step text.now (shown table.now) step) }
{
    match step.kind {
        table_layout::code::END => end_line(out, at, text, table, view, step),
        table_layout::code::SECTION => section_step_line(out, at, text, table, view, step),
        table_layout::code::FORK => head_line(out, at, b"fork", step.line),
        _ => head_line(out, at, b"endfork", step.line),
    }
}

// ---- parts

// The line of a record of models, steps, maps or sections.
fn record_line(
    out: &mut [u8],
    at: usize,
    text: &[u8],
    table: &[u64],
    view: View,
    part: usize,
    index: u64,
) -> usize
    requires { view ≡ shown_view table.now }
    ensures { Written out.old out.new at result (listed_record text.now (shown table.now) part index) }
{
    match part {
        table_layout::MODELS => model_line(
            out,
            at,
            text,
            record_of::<ModelRecord>(table, view, index),
        ),
        table_layout::STEPS => step_line(
            out,
            at,
            text,
            table,
            view,
            record_of::<StepRecord>(table, view, index),
        ),
        table_layout::MAPS => map_line(out, at, text, record_of::<MapRecord>(table, view, index)),
        _ => section_line(
            out,
            at,
            text,
            record_of::<SectionRecord>(table, view, index),
        ),
    }
}

// This loop and the two below differ in the line: a trait with a type for each kind of line is longer than the three.
fn part_lines(
    out: &mut [u8],
    at: usize,
    text: &[u8],
    table: &[u64],
    view: View,
    part: usize,
    count: u64,
) -> usize
    requires { view ≡ shown_view table.now }
    ensures { Written out.old out.new at result (listed_from (listed_record text.now (shown table.now) part) count 0) }
{
    let mut next = at.min(out.len());
    for i in 0..count {
        next = record_line(out, next, text, table, view, part, i);
    }
    next
}

// The name and the count of a part, then its lines.
fn put_part(
    out: &mut [u8],
    at: usize,
    text: &[u8],
    table: &[u64],
    view: View,
    name: &[u8],
    part: usize,
    count: u64,
) -> usize
    requires { view ≡ shown_view table.now }
    ensures { Written out.old out.new at result (part_text text.now (shown table.now) name.now part count) }
{
    let lines = head_line(out, at, name, count);
    part_lines(out, lines, text, table, view, part, count)
}

// Models, steps, maps and sections.
fn put_parts(out: &mut [u8], at: usize, text: &[u8], table: &[u64], view: View) -> usize
    requires { view ≡ shown_view table.now }
    ensures { Written out.old out.new at result (all_parts_text text.now (shown table.now)) }
{
    let counts = view.counts;
    let steps = put_part(
        out,
        at,
        text,
        table,
        view,
        b"models",
        table_layout::MODELS,
        counts[table_layout::MODELS],
    );
    let maps = put_part(
        out,
        steps,
        text,
        table,
        view,
        b"steps",
        table_layout::STEPS,
        counts[table_layout::STEPS],
    );
    let sections = put_part(
        out,
        maps,
        text,
        table,
        view,
        b"maps",
        table_layout::MAPS,
        counts[table_layout::MAPS],
    );
    put_part(
        out,
        sections,
        text,
        table,
        view,
        b"sections",
        table_layout::SECTIONS,
        counts[table_layout::SECTIONS],
    )
}

// ---- values

// Whether a word refers to the matrix: "matrix index plus 1 or 0".
fn has_matrix(word: u64, matrix: u64) -> bool
    ensures { result ≡ eqb word (matrix + 1) }
{
    word != 0 && word - 1 == matrix
}

// The kind of a matrix in a section: R, L, G, C, or none of them if the section does not have it.
fn kind_in(section: SectionRecord, matrix: u64) -> u64
    ensures { result ≡ kind_in matrix section }
{
    if has_matrix(section.resistance, matrix) {
        table_layout::code::RESISTANCE
    } else if has_matrix(section.inductance, matrix) {
        table_layout::code::INDUCTANCE
    } else if has_matrix(section.conductance, matrix) {
        table_layout::code::CONDUCTANCE
    } else if has_matrix(section.capacitance, matrix) {
        table_layout::code::CAPACITANCE
    } else {
        table_layout::code::MATRIX_KINDS
    }
}

// The first section that has a matrix; the number of sections if none has.
fn owner_of(table: &[u64], view: View, matrix: u64) -> u64
    requires { view ≡ shown_view table.now }
    ensures { result ≡ owner_of (shown table.now) matrix }
{
    let counts = view.counts;
    let count = counts[table_layout::SECTIONS];
    for i in 0..count {
        let kind = kind_in(record_of::<SectionRecord>(table, view, i), matrix);
        if kind < table_layout::code::MATRIX_KINDS {
            return i;
        }
    }
    count
}

// How many values a matrix has inside the table.
fn values_in(table: &[u64], view: View, matrix: MatrixRecord) -> u64
    requires { view ≡ shown_view table.now }
    ensures { result ≡ values_in (shown table.now) matrix }
{
    let counts = view.counts;
    matrix
        .values
        .min(counts[table_layout::VALUES].saturating_sub(matrix.first))
}

fn value_line(
    out: &mut [u8],
    at: usize,
    text: &[u8],
    section: SectionRecord,
    kind: u64,
    value: Value,
) -> usize
    ensures { Written out.old out.new at result (listed_value text.now section kind value) }
{
    let second = put_name(out, at, text, section.start, section.size, b' ');
    let third = out_text::put_field(out, second, kind_word(kind), b' ');
    let fourth = out_text::put_decimal(out, third, value.row, b' ');
    let fifth = out_text::put_decimal(out, fourth, value.column, b' ');
    out_text::put_value(out, fifth, value.word, b'\n')
}

fn matrix_lines(
    out: &mut [u8],
    at: usize,
    text: &[u8],
    table: &[u64],
    view: View,
    index: u64,
) -> usize
    requires { view ≡ shown_view table.now }
    ensures { Written out.old out.new at result (matrix_text text.now (shown table.now) index) }
{
    let section = record_of::<SectionRecord>(table, view, owner_of(table, view, index));
    let kind = kind_in(section, index);
    let matrix = record_of::<MatrixRecord>(table, view, index);
    let end = matrix.first + values_in(table, view, matrix);
    let mut next = at.min(out.len());
    for i in matrix.first..end {
        next = value_line(
            out,
            next,
            text,
            section,
            kind,
            record_of::<Value>(table, view, i),
        );
    }
    next
}

fn all_matrix_lines(
    out: &mut [u8],
    at: usize,
    text: &[u8],
    table: &[u64],
    view: View,
    count: u64,
) -> usize
    requires { view ≡ shown_view table.now }
    ensures { Written out.old out.new at result (listed_from (matrix_text text.now (shown table.now)) count 0) }
{
    let mut next = at.min(out.len());
    for i in 0..count {
        next = matrix_lines(out, next, text, table, view, i);
    }
    next
}

// The number of values, then the values of all matrices.
fn put_values(out: &mut [u8], at: usize, text: &[u8], table: &[u64], view: View) -> usize
    requires { view ≡ shown_view table.now }
    ensures { Written out.old out.new at result (values_text text.now (shown table.now)) }
{
    let counts = view.counts;
    let lines = head_line(out, at, b"values", counts[table_layout::VALUES]);
    all_matrix_lines(
        out,
        lines,
        text,
        table,
        view,
        counts[table_layout::MATRICES],
    )
}

// ---- the whole

// What icm-list prints for an accepted file; `words` is the number of words used.
pub fn write_listing(text: &[u8], table: &[u64], words: usize, out: &mut [u8]) -> usize
    ensures { Written out.old out.new 0 result (listing text.now table.now words) }
{
    let view = table_layout::view_of(table).unwrap_or(NO_VIEW);
    let parts = head_line(out, 0, b"accepted", words as u64);
    let values = put_parts(out, parts, text, table, view);
    put_values(out, values, text, table, view)
}

// What icm-list prints for a refused file.
pub fn write_refusal(rule: u64, line: u64, out: &mut [u8]) -> usize
    ensures { Written out.old out.new 0 result (refusal_text rule line) }
{
    let second = out_text::put_field(out, 0, b"refused", b' ');
    let third = out_text::put_decimal(out, second, rule, b' ');
    out_text::put_decimal(out, third, line, b'\n')
}
