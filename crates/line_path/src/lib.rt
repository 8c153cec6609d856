// Document 01, "Paths": "End, items, end", line by line.
#![tactic(auto)]

ghost use Rattle.std.specs.Prelude.{◌≡◌, true, ◌+◌, ◌-◌, ◌^◌, ◌≤◌, ◌<◌, length, eqb};
ghost use Rattle.table_layout.specs.Bounds.{deepest};
ghost use Rattle.base.specs.If.{either};
ghost use Rattle.lex_line.specs.Words.{words};
ghost use Rattle.lex_line.specs.Way.Spans.{first_two_of};
ghost use Rattle.line_path.specs.Path.{says_fork, says_endfork, says_end, says_side, saying_of, names_one, is_length, new_path, is_bad_fork, is_path_out_of_order, is_step_line, with_end, path_next, path_open, path_lacks};
ghost use Rattle.line_path.specs.Way.Section.{span_from, plain_parts, amount_line, unit_line, parts_line, section_parts};
ghost use Rattle.line_path.specs.Way.Parts.{named_parts, said_parts, parts_of, ParsesLine};
ghost use Rattle.line_path.specs.Way.Rule.{open_rule, closed_rule, path_rule};

use lex_line::{FirstTwo, Span};
use lex_number::NumberError;

pub mod fast;

// What a line of a path says. Model_pinmap is an end.
const NOTHING: u64 = 0;

pub const END: u64 = 1;

pub const SIDE: u64 = 2;

pub const SECTION: u64 = 3;

pub const FORK: u64 = 4;

pub const ENDFORK: u64 = 5;

// The stages of a path: before its first end, before its first Section, among its items, after its closing end.
const STARTING: u64 = 0;

const STARTED: u64 = 1;

const ITEMS: u64 = 2;

const CLOSED: u64 = 3;

// "A block may hold further blocks, to a depth of 8".
const ZERO_WORD: u64 = 128;

// What has been read of a path: its stage, how many fork blocks are open, whether the end of the innermost block has
// been read, and whether the next line may be a Side.
#[derive(Clone, Copy)]
pub struct Path {
    pub stage: u64,
    pub depth: u64,
    pub ended: bool,
    pub side: bool,
}

// One line of a path: what it says, whether its rest is right, and whether its number is well formed and in bounds.
#[derive(Clone, Copy)]
pub struct PathLine {
    pub says: u64,
    pub right: bool,
    pub formed: bool,
    pub bounded: bool,
}

// A line with its parts, each read once: the name as a span of the line, the amount, and whether that is a Mult. The
// parts are told of a line whose rest is right.
#[derive(Clone, Copy)]
pub struct PathParts {
    pub line: PathLine,
    pub name: Span,
    pub amount: u64,
    pub mult: bool,
}

// ---- what a line says

// What a line says, by its first word.
pub fn saying_of(word: &[u8]) -> u64
    ensures { result ≡ saying_of word.now }
{
    if lex_line::same_bytes(word, b"Section") {
        return SECTION;
    }
    if lex_line::same_bytes(word, b"Fork") {
        return FORK;
    }
    if lex_line::same_bytes(word, b"Endfork") {
        return ENDFORK;
    }
    if lex_line::same_bytes(word, b"Model_pinmap") {
        return END;
    }
    if lex_line::same_bytes(word, b"Side") {
        return SIDE;
    }
    NOTHING
}

// A line of which no part is told.
fn plain_line(says: u64, right: bool) -> PathParts
    ensures { result ≡ plain_parts says right }
{
    PathParts {
        line: PathLine {
            says,
            right,
            formed: true,
            bounded: true,
        },
        name: Span { start: 0, end: 0 },
        amount: 0,
        mult: false,
    }
}

// "`Model_pinmap name`", "`Side name`": one more word, which is not reserved.
fn names_one(content: &[u8], few: FirstTwo) -> bool
    requires { few ≡ first_two_of content.now }
    ensures { result ≡ names_one (words content.now) }
{
    let second = few.second;
    few.count == 2 && !line_argument::is_reserved(lex_line::marked(content, second))
}

// Whether a value word is above zero: it is not the word of zero, and its sign bit is not set.
fn is_above_zero(word: u64) -> bool
    ensures { result ≡ is_length (Ok word) }
{
    word != ZERO_WORD && word % 2 == 0
}

// "Len=v name (v above zero)": zero, a negative number and a number out of its bounds are 14. A word that is no number
// is 13, and not 14.
fn is_length(n: Result<u64, NumberError>) -> bool
    ensures { result ≡ is_length n }
{
    match n {
        Ok(word) => is_above_zero(word),
        Err(NumberError::Malformed) => true,
        Err(NumberError::Range) => false,
    }
}

// Mult is an integer from 1 to 65,535, Len a number above zero. Either is read once.
fn amount_line(mult: bool, amount: &[u8], name: Span) -> PathParts
    ensures { result ≡ amount_line mult amount.now name }
{
    if mult {
        let times = lex_number::read_integer(amount);
        return PathParts {
            line: PathLine {
                says: SECTION,
                right: true,
                formed: times.is_some(),
                bounded: lex_number::is_whole_within(1, table_layout::bound::MULT, times),
            },
            name,
            amount: times.unwrap_or(0),
            mult,
        };
    }
    let length = lex_number::read_number(amount);
    PathParts {
        line: PathLine {
            says: SECTION,
            right: true,
            formed: lex_number::is_formed(length),
            bounded: is_length(length),
        },
        name,
        amount: length.unwrap_or(0),
        mult,
    }
}

fn unit_line(unit: &[u8], amount: &[u8], name: Span) -> PathParts
    ensures { result ≡ unit_line unit.now amount.now name }
{
    if lex_line::same_bytes(unit, b"Mult") {
        return amount_line(true, amount, name);
    }
    if lex_line::same_bytes(unit, b"Len") {
        return amount_line(false, amount, name);
    }
    plain_line(SECTION, false)
}

// Reads a Section line from its two sides: before the sign Section and the unit, after it the amount and the name.
// `from` is where the right side starts.
fn parts_line(left: &[u8], right: &[u8], from: usize) -> PathParts
    requires { from + length right.now < 2 ^ 63 }
    ensures { result ≡ parts_line (words left.now) (words right.now) (span_from from (first_two_of right.now).second) }
{
    let before = lex_line::first_two_words(left);
    if before.count != 2 {
        return plain_line(SECTION, false);
    }
    let after = lex_line::first_two_words(right);
    if after.count != 2 {
        return plain_line(SECTION, false);
    }
    let name = after.second;
    if line_argument::is_reserved(lex_line::marked(right, name)) {
        return plain_line(SECTION, false);
    }
    let unit = before.second;
    let amount = after.first;
    unit_line(
        lex_line::marked(left, unit),
        lex_line::marked(right, amount),
        Span {
            start: from + name.start,
            end: from + name.end,
        },
    )
}

// "`Section Mult=n name`, `Section Len=v name`".
fn section_line(content: &[u8]) -> PathParts
    ensures { result ≡ section_parts content.now }
{
    let sign = lex_line::equals_at(content);
    if content.len() <= sign {
        return plain_line(SECTION, false);
    }
    let from = sign + 1;
    parts_line(&content[..sign], &content[from..], from)
}

// Fork and Endfork have no other word.
fn stands_alone(says: u64) -> bool
    ensures { result ≡ either (eqb says says_fork) (eqb says says_endfork) }
{
    says == FORK || says == ENDFORK
}

// Model_pinmap and Side have a name.
fn takes_name(says: u64) -> bool
    ensures { result ≡ either (eqb says says_end) (eqb says says_side) }
{
    says == END || says == SIDE
}

// A line with a name; it is right if the name is its only other word.
fn named_line(says: u64, content: &[u8], few: FirstTwo) -> PathParts
    requires { few ≡ first_two_of content.now }
    ensures { result ≡ named_parts says content.now }
{
    let name = few.second;
    PathParts {
        line: PathLine {
            says,
            right: names_one(content, few),
            formed: true,
            bounded: true,
        },
        name,
        amount: 0,
        mult: false,
    }
}

fn line_saying(says: u64, content: &[u8], few: FirstTwo) -> PathParts
    requires { few ≡ first_two_of content.now }
    ensures { result ≡ said_parts says content.now }
{
    if says == SECTION {
        return section_line(content);
    }
    if stands_alone(says) {
        return plain_line(says, few.count == 1);
    }
    if takes_name(says) {
        return named_line(says, content, few);
    }
    plain_line(NOTHING, true)
}

// Reads a line of a path of any form, by its first word.
fn general_line(content: &[u8]) -> PathParts
    ensures { result ≡ parts_of content.now }
{
    let few = lex_line::first_two_words(content);
    let first = few.first;
    let says = saying_of(lex_line::marked(content, first));
    line_saying(says, content, few)
}

// Reads a line of a path, with its parts. The usual forms are tried first.
pub fn path_line(content: &[u8]) -> PathParts
    ensures { ParsesLine content.now result }
{
    let end = fast::usual_amount(content);
    if end != 0 {
        return fast::usual_line(content, end);
    }
    let fork = fast::usual_fork(content);
    if fork != NOTHING {
        return plain_line(fork, true);
    }
    general_line(content)
}

// A path of which no line has been read.
pub fn new_path() -> Path
    ensures { result ≡ new_path }
{
    Path {
        stage: STARTING,
        depth: 0,
        ended: false,
        side: false,
    }
}

// "15 FORK: nesting over 8, Endfork with none open".
fn is_bad_fork(l: PathLine, p: Path) -> bool
    ensures { result ≡ is_bad_fork l p }
{
    match l.says {
        FORK => table_layout::bound::DEPTH <= p.depth,
        ENDFORK => p.depth == 0,
        _ => false,
    }
}

// "perhaps with `Side name` as the next line read"; "The first item is a Section"; "perhaps one end as last". An
// Endfork is never out of order while a block is open.
fn is_out_of_order(l: PathLine, p: Path) -> bool
    ensures { result ≡ is_path_out_of_order l p }
{
    match l.says {
        SIDE => !p.side,
        SECTION => p.stage == STARTING || p.ended,
        FORK => p.stage < ITEMS || p.ended,
        END => p.stage == STARTED || p.ended,
        ENDFORK => false,
        _ => true,
    }
}

// Of the lines that a path takes, all but Side are steps.
fn is_step(l: PathLine) -> bool
    ensures { result ≡ is_step_line l }
{
    l.says != SIDE
}

// The rule that a line breaks in a path that is not closed yet: 15 "goes before 9, 11 and 12".
fn open_rule(l: PathLine, p: Path, steps: u64) -> u64
    ensures { result ≡ open_rule l p steps }
{
    if is_bad_fork(l, p) {
        return base::refusal::FORK;
    }
    if !l.right {
        return base::refusal::ARGUMENT;
    }
    if is_out_of_order(l, p) {
        return base::refusal::LINE;
    }
    if !l.formed {
        return base::refusal::NUMBER;
    }
    if !l.bounded {
        return base::refusal::RANGE;
    }
    if !is_step(l) {
        return 0;
    }
    if table_layout::bound::STEPS <= steps {
        return base::refusal::LIMIT;
    }
    0
}

// The rule that a line breaks in a closed path. "The end at depth 0 closes the path": only its Side may follow.
fn closed_rule(l: PathLine, p: Path) -> u64
    ensures { result ≡ closed_rule l p }
{
    if l.says != SIDE {
        return base::refusal::LINE;
    }
    if !p.side {
        return base::refusal::LINE;
    }
    if l.right {
        return 0;
    }
    base::refusal::ARGUMENT
}

// The rule that a line breaks, 0 for none; `steps` is the count of steps before it.
pub fn path_rule(l: PathLine, p: Path, steps: u64) -> u64
    ensures { result ≡ path_rule l p steps }
{
    if p.stage == CLOSED {
        closed_rule(l, p)
    } else {
        open_rule(l, p, steps)
    }
}

// The path after an end: its first end, its closing end, or the end of a fork block.
fn with_end(p: Path) -> Path
    ensures { result ≡ with_end p }
{
    if p.stage == STARTING {
        Path {
            stage: STARTED,
            depth: p.depth,
            ended: false,
            side: true,
        }
    } else if p.depth == 0 {
        Path {
            stage: CLOSED,
            depth: 0,
            ended: false,
            side: true,
        }
    } else {
        Path {
            stage: ITEMS,
            depth: p.depth,
            ended: true,
            side: true,
        }
    }
}

// The path after a line that breaks no rule.
pub fn path_next(l: PathLine, p: Path) -> Path
    requires { p.depth ≤ deepest }
    ensures { result ≡ path_next l p }
{
    match l.says {
        END => with_end(p),
        SECTION => Path {
            stage: ITEMS,
            depth: p.depth,
            ended: false,
            side: false,
        },
        FORK => Path {
            stage: ITEMS,
            depth: p.depth + 1,
            ended: false,
            side: false,
        },
        ENDFORK => Path {
            stage: ITEMS,
            depth: p.depth.saturating_sub(1),
            ended: false,
            side: false,
        },
        _ => Path { side: false, ..p },
    }
}

// Whether a fork block is still open when a keyword closes the path: 15.
pub fn path_open(p: Path) -> bool
    ensures { result ≡ path_open p }
{
    0 < p.depth
}

// Whether the first end, the first Section or the last end is missing when a keyword closes the path: 9.
pub fn path_lacks(p: Path) -> bool
    ensures { result ≡ path_lacks p }
{
    p.stage != CLOSED
}
