// The lines of a matrix, judged and staged in one pass: its numbers are stored at the front of the lent table as they
// are judged, so that they are never read again.
#![tactic(auto)]

ghost use Rattle.std.specs.Prelude.{◌≡◌, true, false, ◌+◌, ◌≤◌, length};
ghost use Rattle.table_layout.specs.Codes.{sparse};
ghost use Rattle.table_layout.specs.Bounds.{most_values};
ghost use Rattle.lex_line.specs.Lines.{is_blank_line, comment_byte};
ghost use Rattle.lex_line.specs.Way.LineEnds.{line_at, content_at};
ghost use Rattle.lex_keyword.specs.Bracket.{bracket_of};
ghost use Rattle.lex_keyword.specs.declared.Bracket.TheVariants.{Plain, Keyword};
ghost use Rattle.line_place.specs.Place.{is_row_or_bandwidth};
ghost use Rattle.read_line.specs.Way.Walk.{Opens, Fronted};
ghost use Rattle.read_numbers.specs.Way.Numbers.{most_given};
ghost use Rattle.read_numbers.specs.Way.Staging.{BoundedStaging};
ghost use Rattle.read_matrix.specs.Way.Body.{new_staging, keyword_staging, BrokenLine, TakesKeyword, TakesAlone, ResumesMatrix};
ghost use Rattle.read_matrix.specs.Way.Run.{ResumesRun, is_ordered, Runs, numbers_part, TakesNumbers, pairs_matrix, pairs_part, TakesPair};

use lex_keyword::Bracket;
use line_matrix::{Matrix, Rows};
use read_line::Front;
use read_numbers::Staging;

const OPENING: u8 = b'[';

// The result of a line of a matrix, with only the part of the state that such a line changes: whether it is taken here,
// the rule that it breaks, and the matrix, the count of values and the staging after it.
#[derive(Clone, Copy)]
pub struct Data {
    pub taken: bool,
    pub rule: u64,
    pub matrix: Matrix,
    pub values: u64,
    pub staging: Staging,
}

// What is staged before the first line of a matrix.
fn new_staging() -> Staging
    ensures { result ≡ new_staging }
{
    Staging {
        row: 1,
        column: 1,
        bandwidth: None,
        greatest: 0,
    }
}

// A line of numbers that is not part of a run breaks a rule: it is only asked which.
fn data_line(content: &[u8], matrix: Matrix, values: u64, staging: Staging) -> Data
    requires { (is_blank_line content.now ≡ false) × (bracket_of content.now ≡ Plain) × BrokenLine content.now matrix values
        × BoundedStaging staging values }
    ensures { TakesAlone content.now matrix values staging result }
{
    let line = line_matrix::data_line(matrix.form, content);
    Data {
        taken: true,
        rule: line_matrix::data_rule(line, matrix, values),
        matrix,
        values,
        staging,
    }
}

// [Row] i: the next number belongs at (i, i). Of several [Bandwidth] the first counts.
fn keyword_staging(key: u64, value: u64, staging: Staging) -> Staging
    ensures { result ≡ keyword_staging key value staging }
{
    let before = staging.bandwidth;
    if key == lex_keyword::ROW {
        return Staging {
            row: value,
            column: value,
            bandwidth: before,
            greatest: base::greater(staging.greatest, value),
        };
    }
    Staging {
        row: staging.row,
        column: staging.column,
        bandwidth: before.or(Some(value)),
        greatest: staging.greatest,
    }
}

// [Row] or [Bandwidth].
fn matrix_keyword_line(
    key: u64,
    argument: &[u8],
    matrix: Matrix,
    values: u64,
    staging: Staging,
) -> Data
    requires { (is_row_or_bandwidth key ≡ true) × BoundedStaging staging values }
    ensures { TakesKeyword key argument.now matrix values staging result }
{
    let rule = line_keyword::matrix_keyword_rule(key, argument, matrix);
    if rule != 0 {
        return Data {
            taken: true,
            rule,
            matrix,
            values,
            staging,
        };
    }
    let given = lex_number::read_integer(argument).unwrap_or(0);
    Data {
        taken: true,
        rule: 0,
        matrix: line_keyword::matrix_keyword_next(key, argument, matrix, values),
        values,
        staging: keyword_staging(key, given, staging),
    }
}

// A line that is not taken here.
fn left_line(matrix: Matrix, values: u64, staging: Staging) -> Data
    ensures { result ≡ record { taken = false; rule = 0; matrix = matrix; values = values; staging = staging } }
{
    Data {
        taken: false,
        rule: 0,
        matrix,
        values,
        staging,
    }
}

// A keyword: [Row] and [Bandwidth] keep a matrix open, any other ends it.
fn named_line(
    key: u64,
    start: usize,
    content: &[u8],
    matrix: Matrix,
    values: u64,
    staging: Staging,
) -> Data
    requires { (is_blank_line content.now ≡ false) × (bracket_of content.now ≡ Keyword key start) × BoundedStaging staging values }
    ensures { TakesAlone content.now matrix values staging result }
{
    if line_place::is_row_or_bandwidth(key) {
        return matrix_keyword_line(
            key,
            read_line::argument_of(content, start),
            matrix,
            values,
            staging,
        );
    }
    left_line(matrix, values, staging)
}

// A line with a bracket at its front.
fn opened_line(content: &[u8], matrix: Matrix, values: u64, staging: Staging) -> Data
    requires { (is_blank_line content.now ≡ false) × Opens content.now × BoundedStaging staging values }
    ensures { TakesAlone content.now matrix values staging result }
{
    match lex_keyword::read_bracket(content) {
        Bracket::Plain => left_line(matrix, values, staging),
        Bracket::Indented => left_line(matrix, values, staging),
        Bracket::Bad => left_line(matrix, values, staging),
        Bracket::Unknown => left_line(matrix, values, staging),
        Bracket::Later => left_line(matrix, values, staging),
        Bracket::Keyword(key, start) => named_line(key, start, content, matrix, values, staging),
    }
}

// A line of a matrix that is not part of a run.
fn take_data(content: &[u8], matrix: Matrix, values: u64, staging: Staging) -> Data
    requires { BoundedStaging staging values × BrokenLine content.now matrix values }
    ensures { TakesAlone content.now matrix values staging result }
{
    match read_line::front_of(content) {
        Front::Blanks => Data {
            taken: true,
            rule: 0,
            matrix,
            values,
            staging,
        },
        Front::Words => data_line(content, matrix, values, staging),
        Front::Opening => opened_line(content, matrix, values, staging),
    }
}

// How far the lines of a matrix are read, or the line that breaks a rule, and the result up to there.
#[derive(Clone, Copy)]
pub struct BodyWalk {
    pub at: usize,
    pub line: u64,
    pub part: Data,
}

// ---- runs of plain lines: while a run lasts, local variables hold what it changes; other lines are left to take_data

// What is at the front of the line that starts at offset `here`. The answer is that of `read_line::front_of` for the
// line's content, but the line's end is not looked for.
fn front_at(text: &[u8], here: usize) -> Front
    ensures { Fronted (content_at text.now here) result }
{
    let start = base::past_blanks(text, here);
    if !lex_number::is_word_at(text, start, lex_line::COMMENT) {
        return Front::Blanks;
    }
    if base::byte_at(text, start) == OPENING {
        return Front::Opening;
    }
    Front::Words
}

// Where the next line starts, given the offset where the content of a line ends.
fn next_line(text: &[u8], end: usize) -> usize
    ensures { result ≡ (line_at comment_byte text.now end).next }
{
    if base::byte_at(text, end) == lex_line::LINE_FEED {
        return end + 1;
    }
    let line = lex_line::line_at(text, end, lex_line::COMMENT);
    line.next
}

// The result of a line of numbers: whether it is taken; if so, the count of values, the row and column of the next
// number, and where the next line starts.
#[derive(Clone, Copy)]
struct TakenNumbers {
    taken: bool,
    values: u64,
    row: u64,
    column: u64,
    next: usize,
}

// A line that is not part of the run.
fn left_numbers(values: u64, row: u64, column: u64) -> TakenNumbers
    ensures { result ≡ record { taken = false; values = values; row = row; column = column; next = 0 } }
{
    TakenNumbers {
        taken: false,
        values,
        row,
        column,
        next: 0,
    }
}

fn plain_numbers(
    text: &[u8],
    here: usize,
    form: u64,
    values: u64,
    table: &mut [u64],
    row: u64,
    column: u64,
) -> TakenNumbers
    requires fact_1 { (is_blank_line (content_at text.now here) ≡ false) × (bracket_of (content_at text.now here) ≡ Plain) }
    requires fact_2 { row ≤ most_given + values }
    requires fact_3 { column ≤ most_given + values }
    requires fact_4 { values ≤ most_values }
    requires fact_5 { (form ≡ sparse → ⊥) }
    ensures { TakesNumbers text.now here form values row column table.old result table.new }
{
    let numbers = read_numbers::read_numbers(text, here, form, values, table, row, column);
    if !numbers.staged {
        return left_numbers(values, row, column);
    }
    if table_layout::bound::VALUES - values < numbers.count {
        return left_numbers(values, row, column);
    }
    TakenNumbers {
        taken: true,
        values: values + numbers.count,
        row: numbers.row,
        column: numbers.column,
        next: next_line(text, numbers.end),
    }
}

fn take_numbers(
    text: &[u8],
    here: usize,
    form: u64,
    values: u64,
    table: &mut [u64],
    row: u64,
    column: u64,
) -> TakenNumbers
    requires fact_1 { row ≤ most_given + values }
    requires fact_2 { column ≤ most_given + values }
    requires fact_3 { values ≤ most_values }
    requires fact_4 { (form ≡ sparse → ⊥) }
    ensures { TakesNumbers text.now here form values row column table.old result table.new }
{
    match front_at(text, here) {
        Front::Blanks => left_numbers(values, row, column),
        Front::Words => plain_numbers(text, here, form, values, table, row, column),
        Front::Opening => left_numbers(values, row, column),
    }
}

fn numbers_passed(at: usize, line: u64, part: Data, values: u64, row: u64, column: u64) -> BodyWalk
    ensures { result ≡ record { at = at; line = line; part = numbers_part part values row column } }
{
    let matrix = part.matrix;
    let before = part.staging;
    let bandwidth = before.bandwidth;
    let staging = Staging {
        row,
        column,
        bandwidth,
        greatest: before.greatest,
    };
    let reached = Data {
        taken: true,
        rule: 0,
        matrix,
        values,
        staging,
    };
    BodyWalk {
        at,
        line,
        part: reached,
    }
}

// A run of lines of numbers.
fn pass_numbers(text: &[u8], at: usize, line: u64, part: Data, table: &mut [u64]) -> BodyWalk
    requires fact_1 { Runs text.now at line part }
    requires fact_2 { (part.matrix.form ≡ sparse → ⊥) }
    ensures { ResumesRun text.now at line part table.old result table.new }
{
    let matrix = part.matrix;
    let form = matrix.form;
    let staging = part.staging;
    let mut here = at;
    let mut line_here = line;
    let mut values = part.values;
    let mut row = staging.row;
    let mut column = staging.column;
    // No for: each turn finds where the next line starts.
    while here < text.len() {
        let next = take_numbers(text, here, form, values, table, row, column);
        if !next.taken {
            return numbers_passed(here, line_here, part, values, row, column);
        }
        here = next.next;
        line_here += 1;
        values = next.values;
        row = next.row;
        column = next.column;
    }
    numbers_passed(here, line_here, part, values, row, column)
}

// The result of a line of a Sparse_matrix: whether it is taken; if so, its column, and where the next line starts.
#[derive(Clone, Copy)]
struct TakenPair {
    taken: bool,
    column: u64,
    next: usize,
}

// A line that is not part of the run.
fn left_pair() -> TakenPair
    ensures { result ≡ record { taken = false; column = 0; next = 0 } }
{
    TakenPair {
        taken: false,
        column: 0,
        next: 0,
    }
}

fn plain_pair(text: &[u8], here: usize, values: u64, table: &mut [u64], row: u64) -> TakenPair
    requires fact_1 { (is_blank_line (content_at text.now here) ≡ false) × (bracket_of (content_at text.now here) ≡ Plain) }
    requires fact_2 { row ≤ most_given + values }
    ensures { TakesPair text.now here values row table.old result table.new }
{
    if table_layout::bound::VALUES <= values {
        return left_pair();
    }
    let pair = read_numbers::read_pair(text, here, values, table, row);
    if !pair.staged {
        return left_pair();
    }
    TakenPair {
        taken: true,
        column: pair.column,
        next: next_line(text, pair.end),
    }
}

fn take_pair(text: &[u8], here: usize, values: u64, table: &mut [u64], row: u64) -> TakenPair
    requires { row ≤ most_given + values }
    ensures { TakesPair text.now here values row table.old result table.new }
{
    match front_at(text, here) {
        Front::Blanks => left_pair(),
        Front::Words => plain_pair(text, here, values, table, row),
        Front::Opening => left_pair(),
    }
}

// The matrix after a run of lines of a Sparse_matrix, which changes only its rows.
fn pairs_matrix(matrix: Matrix, least: u64, greatest: u64, fits: bool) -> Matrix
    ensures { result ≡ pairs_matrix matrix least greatest fits }
{
    let before = matrix.rows;
    let rows = Rows {
        row: before.row,
        above: before.above,
        from: before.from,
        least,
        greatest,
        fits,
    };
    Matrix {
        form: matrix.form,
        band: matrix.band,
        first: matrix.first,
        rows,
    }
}

fn pairs_passed(
    at: usize,
    line: u64,
    part: Data,
    values: u64,
    matrix: Matrix,
    named: u64,
) -> BodyWalk
    ensures { result ≡ record { at = at; line = line; part = pairs_part part values matrix named } }
{
    let before = part.staging;
    let bandwidth = before.bandwidth;
    let staging = Staging {
        row: before.row,
        column: before.column,
        bandwidth,
        greatest: named,
    };
    let reached = Data {
        taken: true,
        rule: 0,
        matrix,
        values,
        staging,
    };
    BodyWalk {
        at,
        line,
        part: reached,
    }
}

// A run of lines of a Sparse_matrix.
fn pass_pairs(text: &[u8], at: usize, line: u64, part: Data, table: &mut [u64]) -> BodyWalk
    requires fact_1 { Runs text.now at line part }
    requires fact_2 { part.matrix.form ≡ sparse }
    ensures { ResumesRun text.now at line part table.old result table.new }
{
    let matrix = part.matrix;
    let rows = matrix.rows;
    let staging = part.staging;
    let row = staging.row;
    let mut here = at;
    let mut line_here = line;
    let mut values = part.values;
    let mut least = rows.least;
    let mut greatest = rows.greatest;
    let mut fits = rows.fits;
    let mut named = staging.greatest;
    // No for: each turn finds where the next line starts.
    while here < text.len() {
        let next = take_pair(text, here, values, table, row);
        if !next.taken {
            let reached = pairs_matrix(matrix, least, greatest, fits);
            return pairs_passed(here, line_here, part, values, reached, named);
        }
        here = next.next;
        line_here += 1;
        values += 1;
        fits &= least <= next.column;
        least = next.column + 1;
        greatest = base::greater(greatest, next.column);
        named = base::greater(named, next.column);
    }
    let reached = pairs_matrix(matrix, least, greatest, fits);
    pairs_passed(here, line_here, part, values, reached, named)
}

// Whether a data line is allowed here: a form with rows must have had a [Row].
fn is_ordered(matrix: Matrix) -> bool
    ensures { result ≡ is_ordered matrix }
{
    if matrix.form == table_layout::code::DIAGONAL {
        return true;
    }
    let rows = matrix.rows;
    rows.row != 0
}

// A run of plain lines, perhaps empty.
fn pass_run(text: &[u8], at: usize, line: u64, part: Data, table: &mut [u64]) -> BodyWalk
    requires fact_1 { at ≤ length text.now }
    requires fact_2 { line ≤ at + 1 }
    requires fact_3 { BoundedStaging part.staging part.values }
    requires fact_4 { part.values ≤ most_values }
    ensures { ResumesRun text.now at line part table.old result table.new }
{
    let matrix = part.matrix;
    if !is_ordered(matrix) {
        return BodyWalk { at, line, part };
    }
    if matrix.form == table_layout::code::SPARSE {
        return pass_pairs(text, at, line, part, table);
    }
    pass_numbers(text, at, line, part, table)
}

// Judges and stages the lines of a matrix. It stops before the keyword that ends the matrix, before a bracket that is
// not read here, or after a line that breaks a rule.
pub fn pass_data(
    text: &[u8],
    at: usize,
    line: u64,
    matrix: Matrix,
    values: u64,
    table: &mut [u64],
) -> BodyWalk
    requires { (at ≤ length text.now) × (line ≤ at + 1) × (values ≤ most_values) }
    ensures { ResumesMatrix text.now at line matrix values table.old result table.new }
{
    let mut here = at;
    let mut line_here = line;
    let mut part = Data {
        taken: true,
        rule: 0,
        matrix,
        values,
        staging: new_staging(),
    };
    // No for: each turn finds where the next line starts.
    while here < text.len() {
        let run = pass_run(text, here, line_here, part, table);
        here = run.at;
        line_here = run.line;
        part = run.part;
        if text.len() <= here {
            return BodyWalk {
                at: here,
                line: line_here,
                part,
            };
        }
        let found = lex_line::line_at(text, here, lex_line::COMMENT);
        let content = found.content;
        let next = take_data(&text[here..content], part.matrix, part.values, part.staging);
        if !next.taken {
            return BodyWalk {
                at: here,
                line: line_here,
                part,
            };
        }
        here = found.next;
        part = next;
        if part.rule != 0 {
            return BodyWalk {
                at: here,
                line: line_here,
                part,
            };
        }
        line_here += 1;
    }
    BodyWalk {
        at: here,
        line: line_here,
        part,
    }
}
