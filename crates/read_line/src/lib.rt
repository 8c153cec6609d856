// Rules 5 to 17 for one line: its result in its place.
// `read_family` and `read_sections` build the walk over a whole text from these functions.
#![tactic(auto)]

ghost use Rattle.std.specs.Prelude.{◌≡◌, ◌<◌, length};
ghost use Rattle.line_place.specs.Place as place;
ghost use Rattle.line_keyword.specs.Way.Bounded.{BoundedState, most_lines};
ghost use Rattle.read_line.specs.Reading.{goes, breaks, argument_from, line_result, at_end};
ghost use Rattle.read_line.specs.Way.Steps.{line_step, keyword_step, bracket_step, before_step};
ghost use Rattle.lex_line.specs.Lines.{is_blank_line};
ghost use Rattle.lex_line.specs.Way.LineEnds.{content_at};
ghost use Rattle.line_keyword.specs.declared.State.{State};
ghost use Rattle.lex_keyword.specs.Bracket.{bracket_of};
ghost use Rattle.lex_keyword.specs.declared.Bracket.TheVariants.{Plain, Indented, Keyword};
ghost use Rattle.read_line.specs.Way.Walk.{Onward, Fronted, ReadLineByLine, BracketOrLineByLine, ReadsLine};

use lex_keyword::Bracket;
use line_keyword::{Counts, State};

pub mod fast;

const OPENING: u8 = b'[';

const CARRIAGE_RETURN: u8 = 13;

// The result of one line: the rule that it breaks, 0 for none, and the state after it.
#[derive(Clone, Copy)]
pub struct LineResult {
    pub rule: u64,
    pub state: State,
}

// The result of a text for rules 5 to 17: the counts of all records, or the rule broken and its line.
#[derive(Clone, Copy)]
pub enum Reading {
    Read(Counts),
    Refused(u64, u64),
}

// How far a walk over the lines has come: the offset, line and state where it goes on, or the rule broken and its line.
#[derive(Clone, Copy)]
pub struct Walk {
    pub rule: u64,
    pub at: usize,
    pub line: u64,
    pub state: State,
}

// A single line that is read: as in a walk, with the offset where its content ends and the bracket at its front.
#[derive(Clone, Copy)]
pub struct LineRead {
    pub rule: u64,
    pub at: usize,
    pub line: u64,
    pub state: State,
    pub end: usize,
    pub bracket: Bracket,
}

fn goes_on(s: State) -> LineResult
    ensures { result ≡ goes s }
{
    LineResult { rule: 0, state: s }
}

fn stops(rule: u64, s: State) -> LineResult
    ensures { result ≡ breaks rule s }
{
    LineResult { rule, state: s }
}

// ---- lines without a keyword, place by place

// A line of the model list: its first word is never a reserved one.
fn list_step(content: &[u8], s: State) -> LineResult
    requires { s.place ≡ place.list }
    ensures { result ≡ line_step content.now s }
{
    if line_argument::is_reserved(lex_line::first_word(content)) {
        return stops(base::refusal::ARGUMENT, s);
    }
    goes_on(s)
}

fn head_step(content: &[u8], s: State) -> LineResult
    requires { s.place ≡ place.head }
    ensures { result ≡ line_step content.now s }
{
    let line = line_head::head_line(content);
    let head = s.head;
    let rule = line_head::head_rule(line, head);
    if rule != 0 {
        return stops(rule, s);
    }
    let mut next = s;
    next.head = line_head::head_next(line, head);
    goes_on(next)
}

fn map_step(content: &[u8], s: State) -> LineResult
    requires { s.place ≡ place.map_head }
    ensures { result ≡ line_step content.now s }
{
    let line = line_map::map_line(content);
    let map = s.map;
    let rule = line_map::map_rule(line, map);
    if rule != 0 {
        return stops(rule, s);
    }
    let mut next = s;
    next.place = line_place::moved_by_line(s.place, lex_line::first_word(content));
    next.map = line_map::map_next(line, map);
    goes_on(next)
}

// A line without a keyword, judged by what its place takes. Lines of a matrix, a path or a pin list are not read here:
// they are read several at once, with only the part of the state that they change
// (`read_matrix::pass_data`, `pass_path`, `pass_pins`).
fn line_step(content: &[u8], s: State) -> LineResult
    requires { ReadLineByLine s.place }
    ensures { result ≡ line_step content.now s }
{
    if s.place == line_place::LIST {
        return list_step(content, s);
    }
    if s.place == line_place::MAP_HEAD {
        return map_step(content, s);
    }
    if s.place == line_place::HEAD {
        return head_step(content, s);
    }
    if line_place::is_text(s.place) {
        return goes_on(s);
    }
    stops(base::refusal::LINE, s)
}

// ---- one line

// A keyword line: first the rules that it may break, then the state after it.
fn keyword_step(key: u64, argument: &[u8], s: State) -> LineResult
    requires { BoundedState most_lines s }
    ensures { result ≡ keyword_step key argument.now s }
{
    let rule = line_keyword::keyword_rule(key, argument, s);
    if rule != 0 {
        return stops(rule, s);
    }
    goes_on(line_keyword::keyword_next(key, argument, s))
}

// The argument of a keyword, without the blanks at its ends.
pub fn argument_of(content: &[u8], start: usize) -> &[u8]
    ensures { result.now ≡ argument_from content.now start }
{
    let last = lex_line::last_word(content);
    let end = last.end;
    if end <= start {
        return &content[..0];
    }
    &content[start..end]
}

fn named_step(key: u64, start: usize, content: &[u8], s: State) -> LineResult
    requires { BoundedState most_lines s }
    ensures { result ≡ keyword_step key (argument_from content.now start) s }
{
    keyword_step(key, argument_of(content, start), s)
}

// An indented bracket is text in a text block, and bad elsewhere.
fn indented_step(content: &[u8], s: State) -> LineResult
    ensures { result ≡ bracket_step Indented content.now s }
{
    if line_place::is_text(s.place) {
        return line_step(content, s);
    }
    stops(base::refusal::KEYWORD, s)
}

fn bracket_step(content: &[u8], bracket: Bracket, s: State) -> LineResult
    requires { BoundedState most_lines s × (bracket ≡ bracket_of content.now) × (bracket ≡ Plain → ReadLineByLine s.place) }
    ensures { result ≡ bracket_step (bracket_of content.now) content.now s }
{
    match bracket {
        Bracket::Plain => line_step(content, s),
        Bracket::Indented => indented_step(content, s),
        Bracket::Bad => stops(base::refusal::KEYWORD, s),
        Bracket::Unknown => stops(base::refusal::UNKNOWN, s),
        Bracket::Later => stops(base::refusal::LATER, s),
        Bracket::Keyword(key, start) => named_step(key, start, content, s),
    }
}

// Above the header only [Begin Header] counts; every other keyword is skipped.
fn opening_step(key: u64, start: usize, content: &[u8], s: State) -> LineResult
    requires { BoundedState most_lines s }
    ensures { result ≡ before_step (Keyword key start) content.now s }
{
    if key == lex_keyword::BEGIN_HEADER {
        return named_step(key, start, content, s);
    }
    goes_on(s)
}

fn before_step(content: &[u8], bracket: Bracket, s: State) -> LineResult
    requires { BoundedState most_lines s × (bracket ≡ bracket_of content.now) }
    ensures { result ≡ before_step (bracket_of content.now) content.now s }
{
    match bracket {
        Bracket::Plain => goes_on(s),
        Bracket::Indented => goes_on(s),
        Bracket::Bad => goes_on(s),
        Bracket::Unknown => goes_on(s),
        Bracket::Later => goes_on(s),
        Bracket::Keyword(key, start) => opening_step(key, start, content, s),
    }
}

pub fn is_blank_line(content: &[u8]) -> bool
    ensures { result ≡ is_blank_line content.now }
{
    base::past_blanks(content, 0) == content.len()
}

// One line, given by its content and the bracket at its front.
fn take_line(content: &[u8], bracket: Bracket, s: State) -> LineResult
    requires { BoundedState most_lines s × (bracket ≡ bracket_of content.now) × BracketOrLineByLine content.now s.place }
    ensures { result ≡ line_result content.now s }
{
    if is_blank_line(content) {
        return goes_on(s);
    }
    if s.place == line_place::DONE {
        return goes_on(s);
    }
    if s.place == line_place::BEFORE {
        return before_step(content, bracket, s);
    }
    bracket_step(content, bracket, s)
}

// ---- lines that change one part

// What is at the front of a line: nothing (the line is blank), words, or a bracket.
#[derive(Clone, Copy)]
pub enum Front {
    Blanks,
    Words,
    Opening,
}

pub fn front_of(content: &[u8]) -> Front
    ensures { Fronted content.now result }
{
    let front = base::past_blanks(content, 0);
    if front == content.len() {
        return Front::Blanks;
    }
    if base::byte_at(content, front) == OPENING {
        return Front::Opening;
    }
    Front::Words
}

// ---- a line of a text

// Reads the line at offset `at`. Each byte is looked at a bounded number of times.
pub fn read_single(text: &[u8], at: usize, line: u64, s: State) -> LineRead
    requires { (at < length text.now) × Onward text.now at line s × BracketOrLineByLine (content_at text.now at) s.place }
    ensures { ReadsLine text.now at line s result }
{
    let here = lex_line::line_at(text, at, lex_line::COMMENT);
    let content = here.content;
    let bracket = lex_keyword::read_bracket(&text[at..content]);
    let taken = take_line(&text[at..content], bracket, s);
    let state = taken.state;
    LineRead {
        rule: taken.rule,
        at: here.next,
        line: line_keyword::one_more_if(taken.rule == 0, line),
        state,
        end: content,
        bracket,
    }
}

pub fn at_end(s: State) -> Reading
    ensures { result ≡ at_end s }
{
    if s.place == line_place::DONE {
        let counts = s.counts;
        return Reading::Read(counts);
    }
    if s.place == line_place::BEFORE {
        return Reading::Refused(base::refusal::HEADER, 0);
    }
    Reading::Refused(base::refusal::END, 0)
}
