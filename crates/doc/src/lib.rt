// Finds the significant lines of a text (neither blank nor all comment) and the words of such a line, by their offsets.
#![tactic(auto)]

ghost use Rattle.std.specs.Prelude.{◌≡◌, ◌+◌, ◌≤◌, length};
ghost use Rattle.lex_line.specs.Words.{words_from};
ghost use Rattle.line_keyword.specs.Way.Bounded.{most_lines};
ghost use Rattle.doc.specs.Lines.{key_in, argument_in, first_word, second_word, place_after};
ghost use Rattle.doc.specs.Way.Found.{extent_of, extent_at, FindsLine, Located, content_in, cursor_start, cursor_past};

use lex_keyword::Bracket;
use lex_line::Span;

pub mod idle;

// The number that is used as the keyword of a line without one.
pub const PLAIN: u64 = 41;

// A significant line, if there is one: which line it is, the offsets where it starts, where its content ends and where
// the next line starts, its keyword, and where in the line the keyword's argument starts.
#[derive(Clone, Copy)]
pub struct Found {
    pub there: bool,
    pub line: u64,
    pub at: usize,
    pub end: usize,
    pub next: usize,
    pub key: u64,
    pub argument: usize,
}

// Where a walk over the lines goes on: the offset and the number of the next line, and the place in which it is read.
#[derive(Clone, Copy)]
pub struct Cursor {
    pub at: usize,
    pub line: u64,
    pub place: u64,
}

// A word of the text: where it starts, and how many bytes it has.
#[derive(Clone, Copy)]
pub struct Extent {
    pub start: usize,
    pub size: usize,
}

// The keyword in a bracket.
pub fn key_in(bracket: Bracket) -> u64
    ensures { result ≡ key_in bracket }
{
    match bracket {
        Bracket::Plain => PLAIN,
        Bracket::Indented => PLAIN,
        Bracket::Bad => lex_keyword::UNKNOWN,
        Bracket::Unknown => lex_keyword::UNKNOWN,
        Bracket::Later => lex_keyword::UNKNOWN,
        Bracket::Keyword(key, _start) => key,
    }
}

// Where the argument after a bracket starts.
pub fn argument_in(bracket: Bracket) -> usize
    ensures { result ≡ argument_in bracket }
{
    match bracket {
        Bracket::Plain => 0,
        Bracket::Indented => 0,
        Bracket::Bad => 0,
        Bracket::Unknown => 0,
        Bracket::Later => 0,
        Bracket::Keyword(_key, start) => start,
    }
}

// The first significant line from offset `at` on: blank lines and comments are skipped.
pub fn next_line(text: &[u8], at: usize, line: u64) -> Found
    requires { (at ≤ length text.now) × (line ≤ at + 1) }
    ensures { FindsLine text.now line at result }
{
    let mut here = at;
    let mut line_here = line;
    // No for: each turn finds where the next line starts.
    while here < text.len() {
        let ends = lex_line::line_at(text, here, lex_line::COMMENT);
        let end = ends.content;
        if !read_line::is_blank_line(&text[here..end]) {
            let bracket = lex_keyword::read_bracket(&text[here..end]);
            return Found {
                there: true,
                line: line_here,
                at: here,
                end,
                next: ends.next,
                key: key_in(bracket),
                argument: argument_in(bracket),
            };
        }
        here = ends.next;
        line_here += 1;
    }
    Found {
        there: false,
        line: line_here,
        at: here,
        end: here,
        next: here,
        key: PLAIN,
        argument: 0,
    }
}

// The place after a line. A line without a keyword leads to another place only in the head
// of a map: elsewhere its words are not looked at.
fn place_after(place: u64, text: &[u8], line: Found) -> u64
    requires { Located text.now line }
    ensures { result ≡ place_after place (content_in text.now line) }
{
    if line.key == PLAIN {
        if place != line_place::MAP_HEAD {
            return place;
        }
        let at = line.at;
        let end = line.end;
        return line_place::moved_by_line(place, lex_line::first_word(&text[at..end]));
    }
    line_place::moved(place, line.key)
}

// The cursor at the first line.
pub fn start() -> Cursor
    ensures { result ≡ cursor_start }
{
    Cursor {
        at: 0,
        line: 1,
        place: line_place::BEFORE,
    }
}

// The cursor behind a line that was found from it on.
pub fn past(text: &[u8], cursor: Cursor, line: Found) -> Cursor
    requires { Located text.now line }
    ensures { result ≡ cursor_past text.now cursor line }
{
    Cursor {
        at: line.next,
        line: line.line + 1,
        place: place_after(cursor.place, text, line),
    }
}

// The offset and size of a word, in a part of the text that starts at `offset`; they are 0 0 if there is no word.
fn extent_of(s: &[u8], offset: usize, word: Span) -> Extent
    requires { (offset + length s.now ≤ most_lines) × (word.start ≤ word.end) × (word.end ≤ length s.now) }
    ensures { result ≡ extent_at s.now offset word }
{
    if s.len() <= word.start {
        return Extent { start: 0, size: 0 };
    }
    Extent {
        start: offset + word.start,
        size: word.end - word.start,
    }
}

// The first word of a part of the text.
pub fn first_extent(s: &[u8], offset: usize) -> Extent
    requires { offset + length s.now ≤ most_lines }
    ensures { result ≡ extent_of (first_word (words_from offset s.now)) }
{
    let word = lex_line::word_at(s, 0);
    extent_of(s, offset, word)
}

// Its second word.
pub fn second_extent(s: &[u8], offset: usize) -> Extent
    requires { offset + length s.now ≤ most_lines }
    ensures { result ≡ extent_of (second_word (words_from offset s.now)) }
{
    let first = lex_line::word_at(s, 0);
    let word = lex_line::word_at(s, first.end);
    extent_of(s, offset, word)
}
