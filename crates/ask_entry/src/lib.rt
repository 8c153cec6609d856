// Document 01: the question "entry", one entry of a section's matrix as a value word. "Entries not written, and kinds
// not given, are zero; entry (j,i) is entry (i,j)." `whole_matrix` gives all entries of a matrix at once. A caller that
// knows the table to be sound asks by `entry_unjudged` and `whole_matrix_unjudged`, which do not judge it again.
#![tactic(auto)]

ghost use Rattle.std.specs.Prelude.{◌≡◌, true, ◌+◌, ◌*◌, ◌≤◌, ◌<◌, length};
ghost use Rattle.std.proofs.lemmas.List.Edits.{sets};
ghost use Rattle.table_layout.specs.Layout.{matrices, value_width};
ghost use Rattle.table_layout.specs.Bounds.{most_conductors};
ghost use Rattle.table_record.specs.Records.{records_of};
ghost use Rattle.table_record.specs.Way.Standing.{count_of, values_from, Rooms};
ghost use Rattle.doc.specs.Holds.{rises};
ghost use Rattle.ask_sound.specs.Sound.{is_sound};
ghost use Rattle.ask_sound.specs.Way.Judged.{SoundRecords};
ghost use Rattle.ask_entry.specs.Entry.{entry_words, matrix_index, word_at, entry_of, is_in_range, entry_from, entry_answer};
ghost use Rattle.ask_entry.specs.WholeMatrix.{whole_words, row_from, square_of, matrix_from, matrix_answer, room_after};

use table_layout::View;
use table_record::{MatrixRecord, SectionRecord, Value, Words};

// The value word of zero.
const ZERO: u64 = 128;

// ---- the values of a matrix

// Binary search in `many` rising values, the first of which is at word `from`. The value asked for is between `low` and
// `high` (not `high` itself), or it is not written. By hand, as the search of a slice does not go over rows of words.
fn word_at(table: &[u64], from: usize, many: u64, row: u64, column: u64) -> u64
    requires { (from + value_width * many ≤ length table.now) × (rises most_conductors (values_from table.now from many) ≡ true) }
    ensures { result ≡ word_at row column (values_from table.now from many) }
{
    let asked = Value {
        row,
        column,
        word: 0,
    };
    let mut low = 0;
    let mut high = many;
    while low < high {
        let middle = low + (high - low) / 2;
        let at = from + table_layout::VALUE_WIDTH * (middle as usize);
        let value = Value::at(table, at);
        // Compared by hand: by the order of the two pairs an entry took up to twice the time, measured.
        if ask_sound::comes_before(value, asked) {
            low = middle + 1;
            continue;
        }
        if ask_sound::comes_before(asked, value) {
            high = middle;
            continue;
        }
        return value.word;
    }
    ZERO
}

// ---- one entry

// The entry of a matrix, given the matrix's index plus 1; 0 means that the kind is not given.
fn entry_in(table: &[u64], view: View, index: u64, row: u64, column: u64) -> u64
    requires { Rooms table.now view × SoundRecords table.now × (index ≤ count_of view matrices) }
    ensures { result ≡ entry_of (records_of table.now) index row column }
{
    if index == 0 {
        return ZERO;
    }
    let bases = view.bases;
    let matrix = table_record::nth::<MatrixRecord>(table, view, index - 1);
    let from = bases[table_layout::VALUES] + table_layout::VALUE_WIDTH * (matrix.first as usize);
    let low = base::lesser(row, column);
    let high = base::greater(row, column);
    word_at(table, from, matrix.values, low, high)
}

// Whether the section and the kind exist, and row and column are 1 to N.
fn is_in_range(table: &[u64], view: View, section: u64, kind: u64, row: u64, column: u64) -> bool
    requires { Rooms table.now view }
    ensures { result ≡ is_in_range (records_of table.now) section kind row column }
{
    let counts = view.counts;
    if counts[table_layout::SECTIONS] <= section {
        return false;
    }
    if table_layout::code::MATRIX_KINDS <= kind {
        return false;
    }
    let record = table_record::nth::<SectionRecord>(table, view, section);
    if !lex_number::is_within(1, record.conductors, row) {
        return false;
    }
    lex_number::is_within(1, record.conductors, column)
}

// The index plus 1 of a section's matrix of a kind; 0 if the kind is not given.
fn matrix_index(section: SectionRecord, kind: u64) -> u64
    ensures { result ≡ matrix_index section kind }
{
    if kind == table_layout::code::RESISTANCE {
        return section.resistance;
    }
    if kind == table_layout::code::INDUCTANCE {
        return section.inductance;
    }
    if kind == table_layout::code::CONDUCTANCE {
        return section.conductance;
    }
    section.capacitance
}

// The answer in a sound table.
fn entry_from(
    table: &[u64],
    view: View,
    section: u64,
    kind: u64,
    row: u64,
    column: u64,
) -> Result<u64, u64>
    requires { Rooms table.now view × SoundRecords table.now }
    ensures { entry_words result ≡ entry_from (records_of table.now) section kind row column }
{
    if !is_in_range(table, view, section, kind, row, column) {
        return Err(base::refusal::NOSUCH);
    }
    let record = table_record::nth::<SectionRecord>(table, view, section);
    let index = matrix_index(record, kind);
    Ok(entry_in(table, view, index, row, column))
}

// One entry of a section's matrix, as a value word; or the rule of a refusal.
pub fn entry(
    text: &[u8],
    table: &[u64],
    section: u64,
    kind: u64,
    row: u64,
    column: u64,
) -> Result<u64, u64>
    ensures { entry_words result ≡ entry_answer text.now table.now section kind row column }
{
    let Some(view) = ask_sound::sound_view(text, table) else {
        return Err(base::refusal::TABLE);
    };
    entry_from(table, view, section, kind, row, column)
}

// The same answer, for a caller that knows the table to be sound for the text. The table is not judged: if it is not
// sound, nothing is promised, not even that only its words are read.
pub fn entry_unjudged(
    text: &[u8],
    table: &[u64],
    section: u64,
    kind: u64,
    row: u64,
    column: u64,
) -> Result<u64, u64>
    requires { is_sound text.now table.now ≡ true }
    ensures { entry_words result ≡ entry_answer text.now table.now section kind row column }
{
    let view = ask_sound::view_unjudged(text, table);
    entry_from(table, view, section, kind, row, column)
}

// ---- a whole matrix, row by row, into lent room for N times N words; the table is judged once

// Found, with N; or N, if the room is too short; or the rule of a refusal.
#[derive(Clone, Copy)]
pub enum WholeAnswer {
    Found(u64),
    Short(u64),
    Refused(u64),
}

// Stores one row, columns 1 to N, from word `at` of the room on.
fn put_row(
    table: &[u64],
    view: View,
    index: u64,
    row: u64,
    conductors: u64,
    values: &mut [u64],
    at: usize,
)
    requires { Rooms table.now view × SoundRecords table.now × (index ≤ count_of view matrices) × (conductors ≤ most_conductors) × (at + conductors ≤ length values.old) }
    ensures { values.new ≡ sets values.old at (row_from (records_of table.now) index row 1 conductors) }
{
    for column in 0..conductors {
        values[at + (column as usize)] = entry_in(table, view, index, row, column + 1);
    }
}

// Stores all rows, from the start of the room on.
fn put_rows(table: &[u64], view: View, index: u64, conductors: u64, values: &mut [u64])
    requires { Rooms table.now view × SoundRecords table.now × (index ≤ count_of view matrices) × (conductors ≤ most_conductors) × (conductors * conductors ≤ length values.old) }
    ensures { values.new ≡ sets values.old 0 (square_of (records_of table.now) index conductors) }
{
    for row in 0..conductors {
        let to = (row as usize) * (conductors as usize);
        put_row(table, view, index, row + 1, conductors, values, to);
    }
}

// The answer in a sound table.
fn matrix_from(
    table: &[u64],
    view: View,
    section: u64,
    kind: u64,
    values: &mut [u64],
) -> WholeAnswer
    requires { Rooms table.now view × SoundRecords table.now }
    ensures { (whole_words result ≡ matrix_from (records_of table.now) section kind (length values.old)) × (values.new ≡ room_after table.now section kind (whole_words result) values.old) }
{
    if !is_in_range(table, view, section, kind, 1, 1) {
        return WholeAnswer::Refused(base::refusal::NOSUCH);
    }
    let record = table_record::nth::<SectionRecord>(table, view, section);
    let conductors = record.conductors;
    if values.len() < (conductors as usize) * (conductors as usize) {
        return WholeAnswer::Short(conductors);
    }
    let index = matrix_index(record, kind);
    put_rows(table, view, index, conductors, values);
    WholeAnswer::Found(conductors)
}

// Stores every entry of a section's matrix. If the answer is not Found, the room is left unchanged.
pub fn whole_matrix(
    text: &[u8],
    table: &[u64],
    section: u64,
    kind: u64,
    values: &mut [u64],
) -> WholeAnswer
    ensures { (whole_words result ≡ matrix_answer text.now table.now section kind (length values.old)) × (values.new ≡ room_after table.now section kind (whole_words result) values.old) }
{
    let Some(view) = ask_sound::sound_view(text, table) else {
        return WholeAnswer::Refused(base::refusal::TABLE);
    };
    matrix_from(table, view, section, kind, values)
}

// The same answer, for a caller that knows the table to be sound for the text.
pub fn whole_matrix_unjudged(
    text: &[u8],
    table: &[u64],
    section: u64,
    kind: u64,
    values: &mut [u64],
) -> WholeAnswer
    requires { is_sound text.now table.now ≡ true }
    ensures { (whole_words result ≡ matrix_answer text.now table.now section kind (length values.old)) × (values.new ≡ room_after table.now section kind (whole_words result) values.old) }
{
    let view = ask_sound::view_unjudged(text, table);
    matrix_from(table, view, section, kind, values)
}
