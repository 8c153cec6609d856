// The walk over the lines behind [End ICM Family]: it judges them, and stages their sections, matrices and values.
#![tactic(auto)]

ghost use Rattle.std.specs.Prelude.{◌≡◌, List, ℕ, ◌+◌, ◌-◌, ◌*◌, ◌≤◌, ◌<◌, length, drop, eqb, unwrap_or};
ghost use Rattle.base.specs.If.{provided◌then◌else◌};
ghost use Rattle.lex_line.specs.Lines.{contents};
ghost use Rattle.lex_line.specs.Way.LineEnds.{content_at};
ghost use Rattle.lex_keyword.specs.Bracket.{bracket_of};
ghost use Rattle.line_place.specs.Place as place;
ghost use Rattle.line_keyword.specs.Way.Bounded.{NoneYet, most_lines};
ghost use Rattle.line_keyword.specs.declared.Counts.{Counts};
ghost use Rattle.table_layout.specs.Codes.{diagonal, matrix_kinds};
ghost use Rattle.table_layout.specs.Layout.{matrix_width};
ghost use Rattle.table_record.specs.Records.{matrix_words};
ghost use Rattle.table_record.specs.Way.Stage.{put_at};
ghost use Rattle.read_line.specs.Reading.{read_from};
ghost use Rattle.read_line.specs.declared.Reading.TheVariants.{Read};
ghost use Rattle.read_line.specs.Way.Walk.{Onward};
ghost use Rattle.doc.specs.Document.{kind_of};
ghost use Rattle.read_matrix.specs.Way.Body.{Ends};
ghost use Rattle.read_sections.specs.Way.Open.{kinds_with, no_section, beginning, open_after, sections_after, matrix_closed, section_with};
ghost use Rattle.read_sections.specs.Way.Sections.{SectionsStaged, Late, outside_matrix, EndsKeyed, Continues};

use lex_keyword::Bracket;
use line_keyword::State;
use read_line::{Reading, Walk};
use read_matrix::BodyWalk;
use table_record::{MatrixRecord, SectionRecord};

// How many kinds of matrices there are.
const KINDS: usize = table_layout::code::MATRIX_KINDS as usize;

// The section that is open: the offset and size of its name, and what its matrices have given. N is that of the first
// matrix. Of each kind the first matrix counts, as its index plus 1; 0 is none. The kind is that of the open matrix.
#[derive(Clone, Copy)]
pub struct OpenSection {
    pub start: u64,
    pub size: u64,
    pub conductors: Option<u64>,
    pub kinds: [u64; KINDS],
    pub kind: u64,
}

// How far the walk has come, as in `read_line::Walk`, and the section that is open there.
#[derive(Clone, Copy)]
pub struct SectionWalk {
    pub rule: u64,
    pub at: usize,
    pub line: u64,
    pub state: State,
    pub block: OpenSection,
}

// ---- what a matrix gives

// "R L G C".
fn kind_of(key: u64) -> u64
    ensures { result ≡ kind_of key }
{
    if key == lex_keyword::RESISTANCE_MATRIX {
        return table_layout::code::RESISTANCE;
    }
    if key == lex_keyword::INDUCTANCE_MATRIX {
        return table_layout::code::INDUCTANCE;
    }
    if key == lex_keyword::CONDUCTANCE_MATRIX {
        return table_layout::code::CONDUCTANCE;
    }
    table_layout::code::CAPACITANCE
}

// Adds a matrix to the kinds if it is the first of its kind.
fn with_kind(kinds: [u64; KINDS], kind: usize, index: u64) -> [u64; KINDS]
    requires { kind < matrix_kinds }
    ensures { result ≡ kinds_with kinds kind index }
{
    if kinds[kind] == 0 {
        let mut next = kinds;
        next[kind] = index;
        return next;
    }
    kinds
}

// N of a matrix: the count of its numbers if it is diagonal, else the greatest row or column that it names.
fn conductors_in(form: u64, values: u64, greatest: u64) -> u64
    ensures { result ≡ (provided eqb form diagonal then values else greatest) }
{
    if form == table_layout::code::DIAGONAL {
        return values;
    }
    greatest
}

// The open section with one matrix more, whose index plus 1 is `index`.
fn section_with(conductors: u64, index: u64, block: OpenSection) -> OpenSection
    requires { block.kind < matrix_kinds }
    ensures { result ≡ section_with conductors index block }
{
    let before = block.conductors;
    let kept = block.kinds;
    OpenSection {
        start: block.start,
        size: block.size,
        conductors: before.or(Some(conductors)),
        kinds: with_kind(kept, block.kind as usize, index),
        kind: block.kind,
    }
}

// ---- sections that open and close

fn no_section() -> OpenSection
    ensures { result ≡ no_section }
{
    OpenSection {
        start: 0,
        size: 0,
        conductors: None,
        kinds: [0; KINDS],
        kind: 0,
    }
}

// The section that a line opens: its name is the argument of the keyword.
fn begin_section(content: &[u8], at: usize, bracket: Bracket) -> OpenSection
    requires { (at + length content.now ≤ most_lines) × (bracket ≡ bracket_of content.now) }
    ensures { result ≡ beginning at content.now }
{
    let start = doc::argument_in(bracket);
    let name = read_line::argument_of(content, start);
    OpenSection {
        start: (at + start) as u64,
        size: name.len() as u64,
        conductors: None,
        kinds: [0; KINDS],
        kind: 0,
    }
}

// The section that is open after a line, which leads from one place to another.
fn open_after(
    content: &[u8],
    at: usize,
    bracket: Bracket,
    before: u64,
    after: u64,
    block: OpenSection,
) -> OpenSection
    requires { (at + length content.now ≤ most_lines) × (bracket ≡ bracket_of content.now) }
    ensures { result ≡ open_after at content.now before after block }
{
    if after == line_place::MATRIX {
        let mut next = block;
        next.kind = kind_of(doc::key_in(bracket));
        return next;
    }
    if after != line_place::SECTION_HEAD {
        return block;
    }
    if before == line_place::SECTION_HEAD {
        return block;
    }
    begin_section(content, at, bracket)
}

// Stages the open section if a line leads out of it.
fn close_section(s: State, before: u64, after: u64, block: OpenSection, sections: &mut [u64])
    ensures { sections.new ≡ sections_after block s before after sections.old }
{
    if after != line_place::AFTER {
        return;
    }
    if before == line_place::AFTER {
        return;
    }
    let counts = s.counts;
    let section = s.section;
    let conductors = block.conductors;
    let kinds = block.kinds;
    let own = SectionRecord {
        start: block.start,
        size: block.size,
        method: section.method,
        conductors: conductors.unwrap_or(0),
        resistance: kinds[table_layout::code::RESISTANCE as usize],
        inductance: kinds[table_layout::code::INDUCTANCE as usize],
        conductance: kinds[table_layout::code::CONDUCTANCE as usize],
        capacitance: kinds[table_layout::code::CAPACITANCE as usize],
    };
    table_record::stage::put(sections, base::minus(counts.sections, 1), own);
}

// ---- lines

// Reads a line that is not part of a matrix: it may open a section, open a matrix, or close the section.
fn read_alone(
    text: &[u8],
    at: usize,
    line: u64,
    s: State,
    block: OpenSection,
    sections: &mut [u64],
) -> SectionWalk
    requires { (at < length text.now) × Onward text.now at line s × Late s.place × (s.place ≡ place.matrix → Ends (content_at text.now at))
        × (block.kind < matrix_kinds) }
    ensures { ((table matrices : List ℕ) → Continues text.now at line (outside_matrix s.place) s block table sections.old matrices
        result table sections.new matrices)
        × (result.rule ≡ 0 → s.place ≡ place.matrix → EndsKeyed (content_at text.now at)) }
{
    let read = read_line::read_single(text, at, line, s);
    let state = read.state;
    if read.rule != 0 {
        return SectionWalk {
            rule: read.rule,
            at: read.at,
            line: read.line,
            state,
            block,
        };
    }
    close_section(s, s.place, state.place, block, sections);
    let end = read.end;
    let bracket = read.bracket;
    let next = open_after(&text[at..end], at, bracket, s.place, state.place, block);
    SectionWalk {
        rule: 0,
        at: read.at,
        line: read.line,
        state,
        block: next,
    }
}

// Stages the matrix whose lines are read, and tells the section what they gave.
fn close_matrix(
    s: State,
    walk: BodyWalk,
    line: u64,
    block: OpenSection,
    matrices: &mut [u64],
) -> OpenSection
    requires { block.kind < matrix_kinds }
    ensures { (matrices.new ≡ put_at (matrix_width * (s.counts.matrices - 1))
        (matrix_words (matrix_closed s.matrix.form (unwrap_or walk.part.staging.bandwidth 0) s.counts.values walk.part.values line)) matrices.old)
        × (result ≡ section_with (provided eqb s.matrix.form diagonal then walk.part.values - s.counts.values else walk.part.staging.greatest) s.counts.matrices block) }
{
    let matrix = s.matrix;
    let counts = s.counts;
    let part = walk.part;
    let staging = part.staging;
    let bandwidth = staging.bandwidth;
    let values = base::minus(part.values, counts.values);
    let own = MatrixRecord {
        form: matrix.form,
        bandwidth: bandwidth.unwrap_or(0),
        first: counts.values,
        values,
        line: base::minus(line, 1),
    };
    table_record::stage::put(matrices, base::minus(counts.matrices, 1), own);
    section_with(
        conductors_in(matrix.form, values, staging.greatest),
        counts.matrices,
        block,
    )
}

// Reads the lines of a matrix, and the line that ends it.
fn read_data(
    text: &[u8],
    at: usize,
    line: u64,
    s: State,
    block: OpenSection,
    table: &mut [u64],
    sections: &mut [u64],
    matrices: &mut [u64],
) -> SectionWalk
    requires { (at < length text.now) × Onward text.now at line s × (s.place ≡ place.matrix) × (block.kind < matrix_kinds) }
    ensures { Continues text.now at line s.place s block table.old sections.old matrices.old
        result table.new sections.new matrices.new }
{
    let matrix = s.matrix;
    let mut counts = s.counts;
    let walk = read_matrix::pass_data(text, at, line, matrix, counts.values, table);
    let part = walk.part;
    let reached = part.matrix;
    counts.values = part.values;
    let mut state = s;
    state.matrix = reached;
    state.counts = counts;
    if part.rule != 0 {
        return SectionWalk {
            rule: part.rule,
            at: walk.at,
            line: walk.line,
            state,
            block,
        };
    }
    if text.len() <= walk.at {
        return SectionWalk {
            rule: base::refusal::END,
            at: walk.at,
            line: 0,
            state,
            block,
        };
    }
    let closed = close_matrix(s, walk, line, block, matrices);
    read_alone(text, walk.at, walk.line, state, closed, sections)
}

// Reads the line at offset `at`, or several: blank lines, or a matrix.
fn read_on(
    text: &[u8],
    at: usize,
    line: u64,
    s: State,
    block: OpenSection,
    table: &mut [u64],
    sections: &mut [u64],
    matrices: &mut [u64],
) -> SectionWalk
    requires { (at < length text.now) × Onward text.now at line s × Late s.place × (block.kind < matrix_kinds) }
    ensures { Continues text.now at line s.place s block table.old sections.old matrices.old
        result table.new sections.new matrices.new }
{
    if s.place == line_place::MATRIX {
        return read_data(text, at, line, s, block, table, sections, matrices);
    }
    let passing = doc::idle::skip_idle(text, at, line, s.place);
    if at < passing.at {
        return SectionWalk {
            rule: 0,
            at: passing.at,
            line: passing.line,
            state: s,
            block,
        };
    }
    read_alone(text, at, line, s, block, sections)
}

// Rules 5 to 17 over the rest of a text, from behind [End ICM Family] on. If none is broken, what these lines write is
// staged: sections and matrices in their own slices, values at the front of the table.
pub fn read_sections(
    text: &[u8],
    walk: Walk,
    table: &mut [u64],
    sections: &mut [u64],
    matrices: &mut [u64],
) -> Reading
    requires { Onward text.now walk.at walk.line walk.state
        × (walk.at < length text.now → walk.state.place ≡ place.after)
        × NoneYet walk.state.counts }
    ensures fact_1 { (result ≡ read_from walk.line (contents (drop walk.at text.now)) walk.state)
        × ((c : Counts) → result ≡ Read c →
        SectionsStaged text.now walk.line walk.at table.new sections.new matrices.new) }
    ensures fact_2 { length table.new ≡ length table.old }
    ensures fact_3 { length sections.new ≡ length sections.old }
    ensures fact_4 { length matrices.new ≡ length matrices.old }
{
    let mut at = walk.at;
    let mut line = walk.line;
    let start = walk.state;
    let mut s = start;
    let mut block = no_section();
    // No for: each turn finds where the next lines start.
    while at < text.len() {
        let next = read_on(text, at, line, s, block, table, sections, matrices);
        if next.rule != 0 {
            return Reading::Refused(next.rule, next.line);
        }
        at = next.at;
        line = next.line;
        let state = next.state;
        s = state;
        let reached = next.block;
        block = reached;
    }
    read_line::at_end(s)
}
