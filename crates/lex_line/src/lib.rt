// Lines, words, and the rules about bytes: document 000, section 3; document 01, "Lines and keywords" and rules 1 to 4.
#![tactic(auto)]

ghost use Rattle.std.specs.Prelude.{◌≡◌, false, ◌+◌, ◌-◌, ◌<◌, ◌≤◌, length};
ghost use Rattle.base.specs.Runs.{same};
ghost use Rattle.lex_line.specs.Way.LineEnds.{line_at, terminator_at};
ghost use Rattle.base.specs.Way.Class.{run_end};
ghost use Rattle.base.specs.Bytes.{is_before, is_content};
ghost use Rattle.lex_line.specs.Words.{back_run, words, first_of, to_equals};
ghost use Rattle.lex_line.specs.Way.Spans.{word_span, last_word, first_two_of, marked_by};
ghost use Rattle.lex_line.specs.ByteRules.{byte_rules};
ghost use Rattle.lex_line.specs.Way.Resumes.{ResumesAfterLine};

use base::class::{Before, Blank, ByteClass, Content, Filled, Printed};

pub mod fast;

// "From `|` on, a line is comment".
pub const COMMENT: u8 = b'|';

pub const LINE_FEED: u8 = 10;

const CARRIAGE_RETURN: u8 = 13;

const MOST_BYTES: usize = 1048576;

const MOST_CHARACTERS: usize = 120;

// A line: where its content ends, and where the next line starts.
#[derive(Clone, Copy)]
pub struct Line {
    pub content: usize,
    pub next: usize,
}

// Where a word starts and where it ends.
#[derive(Clone, Copy)]
pub struct Span {
    pub start: usize,
    pub end: usize,
}

// The first two words of a line, and how many words it has; a count of 3 means 3 or more.
#[derive(Clone, Copy)]
pub struct FirstTwo {
    pub count: u64,
    pub first: Span,
    pub second: Span,
}

// The result of rules 1 to 4 for a text: none is broken, or which rule is broken at which line.
#[derive(Clone, Copy)]
pub enum Checked {
    Fine,
    Refused(u64, u64),
}

// Where the content of the line at `at` ends. Many lines have no content, so the first byte is tested on its own.
fn past_content(text: &[u8], at: usize, comment: u8) -> usize
    ensures { result ≡ run_end (is_content comment) text.now at }
{
    if text.len() <= at {
        return at;
    }
    if !Content(comment).contains(text[at]) {
        return at;
    }
    if comment != COMMENT {
        return base::skip(Content(comment), text, at);
    }
    base::skip(Content(COMMENT), text, fast::skip_content(text, at))
}

// The position of the first LF at or after `from`, or the end of the text if there is none. The next byte is tested
// before the search: the LF may follow a CR or an empty comment.
fn feed_from(text: &[u8], from: usize) -> usize
    ensures { result ≡ run_end (is_before 10) text.now from }
{
    if text.len() <= from {
        return from;
    }
    if text[from] == LINE_FEED {
        return from;
    }
    if base::byte_at(text, from + 1) == LINE_FEED {
        return from + 1;
    }
    base::fast::skip_far(Before(LINE_FEED), text, from)
}

// The line that starts at `at` and whose content ends at `content`.
fn ended_at(text: &[u8], at: usize, content: usize, comment: u8) -> Line
    requires { content ≡ run_end (is_content comment) text.now at }
    ensures { result ≡ line_at comment text.now at }
{
    let end = feed_from(text, content);
    if end < text.len() {
        Line {
            content,
            next: end + 1,
        }
    } else {
        Line { content, next: end }
    }
}

// The line that starts at `at`. The search for its LF starts where the content ends, so that each byte is read once.
// Most lines have no comment, and the LF is right there.
pub fn line_at(text: &[u8], at: usize, comment: u8) -> Line
    ensures { result ≡ line_at comment text.now at }
{
    let content = past_content(text, at, comment);
    if base::byte_at(text, content) == LINE_FEED {
        return Line {
            content,
            next: content + 1,
        };
    }
    ended_at(text, at, content, comment)
}

// The first word at or after `from`. From 0 it is the first word of a line, from the end of a word it is the next one.
pub fn word_at(s: &[u8], from: usize) -> Span
    ensures { result ≡ word_span s.now from }
{
    let start = base::past_blanks(s, from);
    Span {
        start,
        end: base::past_word(s, start),
    }
}

// How many bytes at the end are in a class.
fn end_length<C: ByteClass>(class: C, s: &[u8]) -> usize
    ensures length { result ≡ back_run (C.holds class) s.now (length s.now) }
    ensures inside { result ≤ length s.now }
{
    s.iter()
        .rev()
        .position(|b| !class.contains(*b))
        .unwrap_or(s.len())
}

// Where the run of a class that ends at `from` starts.
fn skip_back<C: ByteClass>(class: C, s: &[u8], from: usize) -> usize
    requires { from ≤ length s.now }
    ensures { result ≡ from - back_run (C.holds class) s.now from }
{
    from - end_length(class, &s[..from])
}

// The last word of a line, or an empty span at 0 if there is none.
pub fn last_word(s: &[u8]) -> Span
    ensures { result ≡ last_word s.now }
{
    let end = skip_back(Blank, s, s.len());
    Span {
        start: skip_back(Filled, s, end),
        end,
    }
}

// Whether two words have the same bytes.
pub fn same_bytes(a: &[u8], b: &[u8]) -> bool
    ensures { result ≡ same a.now b.now }
{
    if a.len() != b.len() {
        return false;
    }
    if fast::has_other_end(a, b) {
        return false;
    }
    fast::same_by_blocks(a, b)
}

// The length of the terminator at `i`: 1 for LF, 2 for CR LF, 0 for none.
fn terminator_at(text: &[u8], i: usize) -> usize
    requires { i ≤ length text.now }
    ensures { result ≡ terminator_at text.now i }
{
    let b = base::byte_at(text, i);
    if b == LINE_FEED {
        return 1;
    }
    if b != CARRIAGE_RETURN {
        return 0;
    }
    if base::byte_at(text, i + 1) == LINE_FEED {
        return 2;
    }
    0
}

// Which of the rules 2 to 4 a line breaks, 0 for none, and where the next line starts.
#[derive(Clone, Copy)]
struct LineCheck {
    rule: u64,
    next: usize,
}

// Rules 2 to 4 for the line at `at`. Its characters are a run of bytes that a line may contain. If the run ends at a
// byte that is no terminator, that byte is a bad one: rule 2 is the lowest, so the rest of the line is not read. An
// empty line breaks nothing.
fn line_check(text: &[u8], at: usize) -> LineCheck
    requires { at < length text.now }
    ensures { ResumesAfterLine text.now at result.rule result.next }
{
    if text[at] == LINE_FEED {
        return LineCheck {
            rule: 0,
            next: at + 1,
        };
    }
    let stop = base::fast::skip_far(Printed, text, at);
    let terminator = terminator_at(text, stop);
    let next = stop + terminator;
    let characters = stop - at;
    if terminator == 0 {
        if stop < text.len() {
            return LineCheck {
                rule: base::refusal::BYTE,
                next,
            };
        }
        if MOST_CHARACTERS < characters {
            return LineCheck {
                rule: base::refusal::LONG,
                next,
            };
        }
        return LineCheck {
            rule: base::refusal::UNENDED,
            next,
        };
    }
    if MOST_CHARACTERS < characters {
        return LineCheck {
            rule: base::refusal::LONG,
            next,
        };
    }
    LineCheck { rule: 0, next }
}

// Rules 1 to 4 for a whole text.
pub fn check_bytes(text: &[u8]) -> Checked
    ensures { result ≡ byte_rules text.now }
{
    if MOST_BYTES < text.len() {
        return Checked::Refused(base::refusal::SIZE, 0);
    }
    let mut at = 0;
    let mut line = 1;
    // No for: each turn finds where the next line starts.
    while at < text.len() {
        let check = line_check(text, at);
        if check.rule != 0 {
            return Checked::Refused(check.rule, line);
        }
        let past = fast::past_more(text, check.next, line + 1, check.next - at);
        at = past.at;
        line = past.line;
    }
    Checked::Fine
}

// The first two words of a line, and whether there is a third.
pub fn first_two_words(s: &[u8]) -> FirstTwo
    ensures { result ≡ first_two_of s.now }
{
    let first = word_at(s, 0);
    let second = word_at(s, first.end);
    let third = base::past_blanks(s, second.end);
    if s.len() <= first.start {
        return FirstTwo {
            count: 0,
            first,
            second,
        };
    }
    if s.len() <= second.start {
        return FirstTwo {
            count: 1,
            first,
            second,
        };
    }
    if s.len() <= third {
        return FirstTwo {
            count: 2,
            first,
            second,
        };
    }
    FirstTwo {
        count: 3,
        first,
        second,
    }
}

// The bytes of a span.
pub fn marked(s: &[u8], w: Span) -> &[u8]
    requires { (w.start ≤ w.end) × (w.end ≤ length s.now) }
    ensures { result.now ≡ marked_by s.now w }
{
    let start = w.start;
    let end = w.end;
    &s[start..end]
}

// The first word of a line.
pub fn first_word(s: &[u8]) -> &[u8]
    ensures { result.now ≡ first_of (words s.now) }
{
    let word = word_at(s, 0);
    marked(s, word)
}

// The position of the first `=`, or the end of the line if there is none.
pub fn equals_at(content: &[u8]) -> usize
    ensures { result ≡ to_equals content.now }
{
    base::skip(Before(b'='), content, 0)
}
