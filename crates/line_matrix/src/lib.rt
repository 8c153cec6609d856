// Document 01, "Sections and matrices": the rows and numbers of a matrix in its four forms, and its shape.
#![tactic(auto)]

ghost use Rattle.std.specs.Prelude.{◌≡◌, ◌-◌, ◌<◌, ◌≤◌, true, false};
ghost use Rattle.table_layout.specs.Bounds.{most_bandwidth};
ghost use Rattle.lex_number.specs.Number.{is_formed, is_bounded};
ghost use Rattle.lex_line.specs.Words.{words};
ghost use Rattle.line_matrix.specs.Matrix.{new_matrix, is_wrong_bandwidth, is_wrong_row, with_bandwidth, in_row, stands_above, still_fits, with_row, numbers_line, pair_line, sparse_line, data_line_of, is_data_out_of_order, are_too_many, shape_conductors, is_shaped, is_wrong_shape, is_too_wide};
ghost use Rattle.line_matrix.specs.Way.Rule.{data_rule};

use lex_number::NumberError;

// What has been read of the rows of a matrix: the number of the last [Row], how many numbers the row above it has, how
// many values the file has before it, the least column that may come next, the greatest row or column named, and
// whether everything so far fits.
#[derive(Clone, Copy)]
pub struct Rows {
    pub row: u64,
    pub above: u64,
    pub from: u64,
    pub least: u64,
    pub greatest: u64,
    pub fits: bool,
}

// A matrix: its form, the most numbers that a row may have, how many values the file has before it, and its rows.
#[derive(Clone, Copy)]
pub struct Matrix {
    pub form: u64,
    pub band: u64,
    pub first: u64,
    pub rows: Rows,
}

// A data line: how many numbers it writes, its column if it has one, whether the count of its words is right, whether
// the words are numbers, and whether the numbers are within their bounds.
#[derive(Clone, Copy)]
pub struct DataLine {
    pub numbers: u64,
    pub column: u64,
    pub right: bool,
    pub formed: bool,
    pub bounded: bool,
}

// A matrix of which only the keyword has been read.
pub fn new_matrix(form: u64, values: u64) -> Matrix
    ensures { result ≡ new_matrix form values }
{
    let band = if form == table_layout::code::FULL {
        table_layout::bound::CONDUCTORS
    } else {
        0
    };
    Matrix {
        form,
        band,
        first: values,
        rows: Rows {
            row: 0,
            above: 0,
            from: values,
            least: 0,
            greatest: 0,
            fits: true,
        },
    }
}

// Whether a [Bandwidth] is wrong: it must come once, in a Banded_matrix, before its rows.
pub fn is_wrong_bandwidth(m: Matrix) -> bool
    ensures { result ≡ is_wrong_bandwidth m }
{
    m.form != table_layout::code::BANDED || m.band != 0 || m.rows.row != 0
}

// Whether a [Row] is wrong. In a Full_matrix or a Banded_matrix, which needs its [Bandwidth] first, it must be the next
// number; in a Sparse_matrix it must be above the last; a Diagonal_matrix has no [Row].
pub fn is_wrong_row(row: u64, m: Matrix) -> bool
    ensures { result ≡ is_wrong_row row m }
{
    match m.form {
        table_layout::code::DIAGONAL => true,
        table_layout::code::SPARSE => row <= m.rows.row,
        _ => m.band == 0 || row == 0 || row - 1 != m.rows.row,
    }
}

pub fn with_bandwidth(b: u64, m: Matrix) -> Matrix
    requires { b ≤ most_bandwidth }
    ensures { result ≡ with_bandwidth b m }
{
    Matrix { band: b + 1, ..m }
}

fn in_row(m: Matrix, values: u64) -> u64
    ensures { result ≡ in_row m values }
{
    values.saturating_sub(m.rows.from)
}

// Whether the row above has one number more than the present row, or as many as the band allows.
fn stands_above(m: Matrix, values: u64) -> bool
    ensures { result ≡ stands_above m values }
{
    m.rows.row < 2 || m.rows.above == m.band.min(in_row(m, values).saturating_add(1))
}

// Whether everything so far fits, including the row that ends at the next [Row].
fn still_fits(m: Matrix, values: u64) -> bool
    ensures { result ≡ still_fits m values }
{
    m.rows.fits && (m.form == table_layout::code::SPARSE || stands_above(m, values))
}

pub fn with_row(row: u64, m: Matrix, values: u64) -> Matrix
    ensures { result ≡ with_row row m values }
{
    let rows = Rows {
        row,
        above: in_row(m, values),
        from: values,
        least: row,
        greatest: m.rows.greatest.max(row),
        fits: still_fits(m, values),
    };
    Matrix { rows, ..m }
}

// Whether a word of a data line is a number, and whether the number is within its bounds.
#[derive(Clone, Copy)]
struct NumberCheck {
    formed: bool,
    bounded: bool,
}

fn number_check(number: Result<u64, NumberError>) -> NumberCheck
    ensures { result ≡ record { formed = is_formed number; bounded = is_bounded number } }
{
    NumberCheck {
        formed: lex_number::is_formed(number),
        bounded: lex_number::is_bounded(number),
    }
}

// Reads a line of numbers. Each number is read in place, in one pass: the place goes on by what was read, so no iterator fits.
fn numbers_line(content: &[u8]) -> DataLine
    ensures { result ≡ numbers_line (words content.now) }
{
    let mut at = 0;
    let mut numbers = 0;
    let mut formed = true;
    let mut bounded = true;
    loop {
        let start = base::past_blanks(content, at);
        if content.len() <= start {
            return DataLine {
                numbers,
                column: 0,
                right: true,
                formed,
                bounded,
            };
        }
        let read = lex_number::number_at(content, start);
        let number = read.number;
        formed &= lex_number::is_formed(number);
        bounded &= lex_number::is_bounded(number);
        numbers += 1;
        at = read.end;
    }
}

// A line of a Sparse_matrix that does not have two words.
fn not_two() -> DataLine
    ensures { result ≡ record { numbers = 0; column = 0; right = false; formed = true; bounded = true } }
{
    DataLine {
        numbers: 0,
        column: 0,
        right: false,
        formed: true,
        bounded: true,
    }
}

// A column and a value.
fn pair_line(column: Option<u64>, told: NumberCheck) -> DataLine
    ensures { result ≡ pair_line column told }
{
    DataLine {
        numbers: 1,
        column: column.unwrap_or(0),
        right: true,
        formed: column.is_some() & told.formed,
        bounded: lex_number::is_whole_within(1, table_layout::bound::CONDUCTORS, column)
            & told.bounded,
    }
}

// Reads a line of a Sparse_matrix: a column and a value. The value is read in place, in one pass.
fn sparse_line(content: &[u8]) -> DataLine
    ensures { result ≡ sparse_line (words content.now) }
{
    let first = lex_line::word_at(content, 0);
    let start = base::past_blanks(content, first.end);
    if content.len() <= start {
        return not_two();
    }
    let read = lex_number::number_at(content, start);
    if base::past_blanks(content, read.end) < content.len() {
        return not_two();
    }
    let number = read.number;
    let column = lex_number::read_integer(lex_line::marked(content, first));
    pair_line(column, number_check(number))
}

// Reads a line between the keywords of a matrix.
pub fn data_line(form: u64, content: &[u8]) -> DataLine
    ensures { result ≡ data_line_of form content.now }
{
    if form == table_layout::code::SPARSE {
        sparse_line(content)
    } else {
        numbers_line(content)
    }
}

// Whether a line is above the first [Row] of a form with rows, or has a count of words that its form does not take.
fn is_out_of_order(l: DataLine, m: Matrix) -> bool
    ensures { result ≡ is_data_out_of_order l m }
{
    !l.right || m.form != table_layout::code::DIAGONAL && m.rows.row == 0
}

// Whether this many more numbers exceed the bound. The code does not form the sum, which could wrap.
fn are_too_many(values: u64, numbers: u64) -> bool
    ensures { result ≡ are_too_many values numbers }
{
    table_layout::bound::VALUES < values || table_layout::bound::VALUES - values < numbers
}

pub fn data_rule(l: DataLine, m: Matrix, values: u64) -> u64
    ensures { result ≡ data_rule l m values }
{
    if is_out_of_order(l, m) {
        return base::refusal::LINE;
    }
    if !l.formed {
        return base::refusal::NUMBER;
    }
    if !l.bounded {
        return base::refusal::RANGE;
    }
    if are_too_many(values, l.numbers) {
        return base::refusal::LIMIT;
    }
    0
}

// N, by the form: the count of numbers of a Diagonal_matrix, the greatest row or column of a Sparse_matrix, else the
// count of rows.
pub fn conductors_of(m: Matrix, values: u64) -> u64
    ensures { result ≡ shape_conductors m values }
{
    match m.form {
        table_layout::code::DIAGONAL => values.saturating_sub(m.first),
        table_layout::code::SPARSE => m.rows.greatest,
        _ => m.rows.row,
    }
}

// Whether all rows have the right length, the last one a single number; in a Sparse_matrix, whether the columns rise.
fn is_shaped(m: Matrix, values: u64) -> bool
    ensures { result ≡ is_shaped m values }
{
    match m.form {
        table_layout::code::DIAGONAL => true,
        table_layout::code::SPARSE => m.rows.fits,
        _ => m.rows.fits && stands_above(m, values) && in_row(m, values) == 1,
    }
}

// Whether the shape is wrong at the keyword that closes a matrix: no number, a wrong row, or another N than the earlier
// matrices of the section, `known`, which is 0 if there is none.
pub fn is_wrong_shape(m: Matrix, known: u64, values: u64) -> bool
    ensures { result ≡ is_wrong_shape m known values }
{
    values <= m.first || !is_shaped(m, values) || known != 0 && known != conductors_of(m, values)
}

// Whether a Diagonal_matrix has more numbers than there may be conductors.
pub fn is_too_wide(m: Matrix, values: u64) -> bool
    ensures { result ≡ is_too_wide m values }
{
    m.form == table_layout::code::DIAGONAL
        && table_layout::bound::CONDUCTORS < conductors_of(m, values)
}
