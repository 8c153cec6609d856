// Judges and stages a line of numbers in one pass: each number is read directly from the text, and its row, column and
// value word are stored at the front of the lent table, after the values that were read before it. A line is read once:
// its end is found as its last number is read. A number that finds no room is left out.
#![tactic(auto)]

ghost use Rattle.std.specs.Prelude.{◌≡◌, true, false, ◌+◌, ◌≤◌, ◌<◌, length, leb};
ghost use Rattle.table_layout.specs.Layout.{value_width};
ghost use Rattle.table_layout.specs.Codes.{sparse};
ghost use Rattle.table_layout.specs.Bounds.{most_values};
ghost use Rattle.doc.specs.Document.{next_row};
ghost use Rattle.read_numbers.specs.Way.Numbers.{most_given, Movable, PutsNumber, passed_by};
ghost use Rattle.read_numbers.specs.Way.Staging.{StagesNumbers, StagesPair};
ghost use Rattle.read_numbers.specs.Way.Steps.{Stores, numbers_result, pair_of};
ghost use Rattle.lex_number.specs.Way.In.{number_in};
ghost use Rattle.lex_line.specs.Lines.{comment_byte};

use lex_number::{NumberAt, NumberError};
use table_record::{Value, Words};

// Where the next number of a line goes: its row, its column, how many of the line come before it, and its position in
// the table.
#[derive(Clone, Copy)]
pub struct Cursor {
    pub row: u64,
    pub column: u64,
    pub count: u64,
    pub place: usize,
}

// What the lines of a matrix have given so far: the row and column of the next number, the bandwidth, of which the first
// one given counts, and the greatest row or column that is named.
#[derive(Clone, Copy)]
pub struct Staging {
    pub row: u64,
    pub column: u64,
    pub bandwidth: Option<u64>,
    pub greatest: u64,
}

// The result of a line of numbers: whether all its words are numbers within their bounds. If so: how many they are, the
// row and column of the next number, and where the line's content ends.
#[derive(Clone, Copy)]
pub struct Numbers {
    pub staged: bool,
    pub count: u64,
    pub row: u64,
    pub column: u64,
    pub end: usize,
}

// The result of a line of a Sparse_matrix: whether it is a column and a value, both within their bounds. If so: the
// column, and where the line's content ends.
#[derive(Clone, Copy)]
pub struct Pair {
    pub staged: bool,
    pub column: u64,
    pub end: usize,
}

// Whether a table of `words` words has room for a value at position `place`.
fn has_room(place: usize, words: usize) -> bool
    ensures { result ≡ leb (place + value_width) words }
{
    if words < place {
        return false;
    }
    table_layout::VALUE_WIDTH <= words - place
}

// The row of the next number: down the diagonal, else the same row.
fn next_row(form: u64, row: u64) -> u64
    requires { row < 18_446_744_073_709_551_615 }
    ensures { result ≡ next_row form row }
{
    if form == table_layout::code::DIAGONAL {
        return row + 1;
    }
    row
}

// Stores a number where the cursor is, and moves the cursor on.
fn put_number(
    number: Result<u64, NumberError>,
    form: u64,
    table: &mut [u64],
    cursor: Cursor,
) -> Cursor
    requires fact_1 { Movable cursor }
    requires fact_2 { cursor.place + value_width ≤ length table.old }
    ensures { PutsNumber form number table.old cursor result table.new }
{
    let row = cursor.row;
    let column = cursor.column;
    let value = Value {
        row,
        column,
        word: number.unwrap_or(0),
    };
    value.put_at(table, cursor.place);
    Cursor {
        row: next_row(form, row),
        column: column + 1,
        count: cursor.count + 1,
        place: cursor.place + table_layout::VALUE_WIDTH,
    }
}

// The cursor behind a number that is left out: it counts, and takes no room.
fn pass_number(form: u64, cursor: Cursor) -> Cursor
    requires { Movable cursor }
    ensures { result ≡ passed_by form cursor }
{
    Cursor {
        row: next_row(form, cursor.row),
        column: cursor.column + 1,
        count: cursor.count + 1,
        place: cursor.place,
    }
}

fn numbers_of(staged: bool, cursor: Cursor, end: usize) -> Numbers
    ensures { result ≡ numbers_result staged cursor end }
{
    Numbers {
        staged,
        count: cursor.count,
        row: cursor.row,
        column: cursor.column,
        end,
    }
}

// The number that starts at `start`, read in two passes. It is for the numbers that find no room: the way in one pass is
// fast where it stands in one place alone.
fn plain_number(text: &[u8], start: usize) -> NumberAt
    requires { start < length text.now }
    ensures { result ≡ number_in comment_byte text.now start }
{
    let end = lex_number::word_end(text, start, lex_line::COMMENT);
    NumberAt {
        number: lex_number::read_number(&text[start..end]),
        end,
    }
}

// Reads and stores the numbers from offset `from` to the end of the line; the first belongs at this row and column. If
// a word is no number or out of its bounds, the line is not staged. From the first number on that finds no room the rest
// are only judged, in a loop of their own, so that the first loop, in which most of the time goes, stays short.
fn store_numbers(
    text: &[u8],
    from: usize,
    form: u64,
    values: u64,
    table: &mut [u64],
    row: u64,
    column: u64,
) -> Numbers
    requires fact_1 { row ≤ most_given + values }
    requires fact_2 { column ≤ most_given + values }
    requires fact_3 { values ≤ most_values }
    ensures { Stores form text.now from table.old values row column table.new result }
{
    let mut at = from;
    let mut cursor = Cursor {
        row,
        column,
        count: 0,
        place: table_layout::VALUE_WIDTH * (values as usize),
    };
    // No for: each turn finds where the next word starts.
    while has_room(cursor.place, table.len()) {
        let start = base::past_blanks(text, at);
        if !lex_number::is_word_at(text, start, lex_line::COMMENT) {
            return numbers_of(true, cursor, start);
        }
        let read = lex_number::number_in(text, start, lex_line::COMMENT);
        let number = read.number;
        if number.is_err() {
            return numbers_of(false, cursor, start);
        }
        cursor = put_number(number, form, table, cursor);
        at = read.end;
    }
    loop {
        let start = base::past_blanks(text, at);
        if !lex_number::is_word_at(text, start, lex_line::COMMENT) {
            return numbers_of(true, cursor, start);
        }
        let read = plain_number(text, start);
        let number = read.number;
        if number.is_err() {
            return numbers_of(false, cursor, start);
        }
        cursor = pass_number(form, cursor);
        at = read.end;
    }
}

// A line of numbers, the first of which belongs at this row and column.
pub fn read_numbers(
    text: &[u8],
    here: usize,
    form: u64,
    values: u64,
    table: &mut [u64],
    row: u64,
    column: u64,
) -> Numbers
    requires fact_1 { row ≤ most_given + values }
    requires fact_2 { column ≤ most_given + values }
    requires fact_3 { values ≤ most_values }
    requires fact_4 { (form ≡ sparse → ⊥) }
    ensures { StagesNumbers form text.now here table.old values row column table.new result }
{
    store_numbers(text, here, form, values, table, row, column)
}

// A line of a Sparse_matrix that is not staged.
fn no_pair(end: usize) -> Pair
    ensures { result ≡ record { staged = false; column = 0; end = end } }
{
    Pair {
        staged: false,
        column: 0,
        end,
    }
}

fn pair_of(column: u64, numbers: Numbers) -> Pair
    ensures { result ≡ pair_of column numbers }
{
    if !numbers.staged {
        return no_pair(numbers.end);
    }
    if numbers.count != 1 {
        return no_pair(numbers.end);
    }
    Pair {
        staged: true,
        column,
        end: numbers.end,
    }
}

// A line of a Sparse_matrix: a column, then a value. A line without a word is not staged.
pub fn read_pair(text: &[u8], here: usize, values: u64, table: &mut [u64], row: u64) -> Pair
    requires fact_1 { row ≤ most_given + values }
    requires fact_2 { values ≤ most_values }
    ensures { StagesPair text.now here table.old values row table.new result }
{
    let start = base::past_blanks(text, here);
    if !lex_number::is_word_at(text, start, lex_line::COMMENT) {
        return no_pair(start);
    }
    let end = lex_number::word_end(text, start, lex_line::COMMENT);
    let Some(column) = lex_number::read_integer(&text[start..end]) else {
        return no_pair(start);
    };
    if !lex_number::is_within(1, table_layout::bound::CONDUCTORS, column) {
        return no_pair(start);
    }
    let numbers = store_numbers(
        text,
        end,
        table_layout::code::SPARSE,
        values,
        table,
        row,
        column,
    );
    pair_of(column, numbers)
}
