// Document 01, "Model": the lines of a model before its first keyword, ICM_model_type, SGR and Ref_impedance.
#![tactic(auto)]

ghost use Rattle.std.specs.Prelude.{◌≡◌};
ghost use Rattle.base.specs.Bytes.{bytes};
ghost use Rattle.base.specs.Runs.{same};
ghost use Rattle.lex_line.specs.Words.{words, first_of, left_of};
ghost use Rattle.lex_line.specs.Way.Spans.{first_two_of};
ghost use Rattle.line_head.specs.Head.{model_type_of, wrong_head_line, type_line, sgr_line, impedance_line, head_line_of, is_head_out_of_order, head_next, new_head, head_lacks};
ghost use Rattle.line_head.specs.Way.Rule.{head_rule};

use base::class::Before;
use lex_line::FirstTwo;

// What a line of the head says: which of the three it is, or none.
const NOTHING: u64 = 0;

const MODEL_TYPE: u64 = 1;

const RATIO: u64 = 2;

const IMPEDANCE: u64 = 3;

// The types of a model: the number in the table plus 1; 0 means no type.
const SLM_GENERAL: u64 = table_layout::code::SLM_GENERAL + 1;

const SLM_QUIESCENT: u64 = table_layout::code::SLM_QUIESCENT + 1;

const MLM: u64 = table_layout::code::MLM + 1;

// What the lines of a head have given so far: the type, and whether SGR and Ref_impedance have been read.
#[derive(Clone, Copy)]
pub struct Head {
    pub kind: u64,
    pub sgr: bool,
    pub impedance: bool,
}

// One line of a head: which of the three it is, whether its rest is right, whether its number is well formed and within
// its bounds, and the type that it names.
#[derive(Clone, Copy)]
pub struct HeadLine {
    pub says: u64,
    pub right: bool,
    pub formed: bool,
    pub bounded: bool,
    pub kind: u64,
}

// SLM_general, SLM_quiescent or MLM; 0 for any other word, also for the other types of document 000.
fn kind_of(word: &[u8]) -> u64
    ensures { result ≡ model_type_of word.now }
{
    if lex_line::same_bytes(word, b"SLM_general") {
        return SLM_GENERAL;
    }
    if lex_line::same_bytes(word, b"SLM_quiescent") {
        return SLM_QUIESCENT;
    }
    if lex_line::same_bytes(word, b"MLM") {
        return MLM;
    }
    0
}

// A line that is known by its first word but has a wrong rest.
fn wrong_line(says: u64) -> HeadLine
    ensures { result ≡ wrong_head_line says }
{
    HeadLine {
        says,
        right: false,
        formed: true,
        bounded: true,
        kind: 0,
    }
}

// "ICM_model_type (SLM_general, SLM_quiescent, MLM)".
fn type_line(content: &[u8], few: FirstTwo) -> HeadLine
    requires { few ≡ first_two_of content.now }
    ensures { result ≡ type_line (words content.now) }
{
    if few.count != 2 {
        return wrong_line(MODEL_TYPE);
    }
    let second = few.second;
    let kind = kind_of(lex_line::marked(content, second));
    if kind == 0 {
        return wrong_line(MODEL_TYPE);
    }
    HeadLine {
        says: MODEL_TYPE,
        right: true,
        formed: true,
        bounded: true,
        kind,
    }
}

// "`SGR n:1`, n 1 to 65,535": one word, split at its first colon, with exactly `1` after the colon.
fn sgr_line(content: &[u8], few: FirstTwo) -> HeadLine
    requires { few ≡ first_two_of content.now }
    ensures { result ≡ sgr_line (words content.now) }
{
    if few.count != 2 {
        return wrong_line(RATIO);
    }
    let second = few.second;
    let word = lex_line::marked(content, second);
    let colon = base::skip(Before(b':'), word, 0);
    if !lex_line::same_bytes(&word[colon..], b":1") {
        return wrong_line(RATIO);
    }
    let ratio = lex_number::read_integer(&word[..colon]);
    HeadLine {
        says: RATIO,
        right: true,
        formed: ratio.is_some(),
        bounded: lex_number::is_whole_within(1, table_layout::bound::RATIO, ratio),
        kind: 0,
    }
}

// "`Ref_impedance=` a number": one word before the sign and one after it.
fn impedance_line(content: &[u8]) -> HeadLine
    ensures { result ≡ impedance_line content.now }
{
    let sign = lex_line::equals_at(content);
    if content.len() <= sign {
        return wrong_line(IMPEDANCE);
    }
    let left = lex_line::first_two_words(&content[..sign]);
    if left.count != 1 {
        return wrong_line(IMPEDANCE);
    }
    let rest = &content[sign + 1..];
    let right = lex_line::first_two_words(rest);
    if right.count != 1 {
        return wrong_line(IMPEDANCE);
    }
    let first = right.first;
    let amount = lex_number::read_number(lex_line::marked(rest, first));
    HeadLine {
        says: IMPEDANCE,
        right: true,
        formed: lex_number::is_formed(amount),
        bounded: lex_number::is_bounded(amount),
        kind: 0,
    }
}

// Whether the first word of a line is Ref_impedance. In this form a `=` ends the word.
fn is_impedance(content: &[u8]) -> bool
    ensures { result ≡ same (first_of (left_of content.now)) (bytes "Ref_impedance") }
{
    let sign = lex_line::equals_at(content);
    let left = &content[..sign];
    let few = lex_line::first_two_words(left);
    let first = few.first;
    lex_line::same_bytes(lex_line::marked(left, first), b"Ref_impedance")
}

// Reads a line of the head, which is known by its first word.
pub fn head_line(content: &[u8]) -> HeadLine
    ensures { result ≡ head_line_of content.now }
{
    let few = lex_line::first_two_words(content);
    let first = few.first;
    let word = lex_line::marked(content, first);
    if lex_line::same_bytes(word, b"ICM_model_type") {
        return type_line(content, few);
    }
    if lex_line::same_bytes(word, b"SGR") {
        return sgr_line(content, few);
    }
    if is_impedance(content) {
        return impedance_line(content);
    }
    HeadLine {
        says: NOTHING,
        right: true,
        formed: true,
        bounded: true,
        kind: 0,
    }
}

// Each of the three may appear once; the head takes no other line.
fn is_out_of_order(l: HeadLine, h: Head) -> bool
    ensures { result ≡ is_head_out_of_order l h }
{
    match l.says {
        MODEL_TYPE => h.kind != 0,
        RATIO => h.sgr,
        IMPEDANCE => h.impedance,
        _ => true,
    }
}

// The rule that a line of the head breaks, 0 for none: "A line its place takes with a wrong rest is 11, repeated or out
// of order 12"; any other line is 12.
pub fn head_rule(l: HeadLine, h: Head) -> u64
    ensures { result ≡ head_rule l h }
{
    if !l.right {
        return base::refusal::ARGUMENT;
    }
    if is_out_of_order(l, h) {
        return base::refusal::LINE;
    }
    if !l.formed {
        return base::refusal::NUMBER;
    }
    if !l.bounded {
        return base::refusal::RANGE;
    }
    0
}

// The head after a line that breaks no rule.
pub fn head_next(l: HeadLine, h: Head) -> Head
    ensures { result ≡ head_next l h }
{
    match l.says {
        MODEL_TYPE => Head { kind: l.kind, ..h },
        RATIO => Head { sgr: true, ..h },
        IMPEDANCE => Head {
            impedance: true,
            ..h
        },
        _ => h,
    }
}

// A head of which no line has been read.
pub fn new_head() -> Head
    ensures { result ≡ new_head }
{
    Head {
        kind: 0,
        sgr: false,
        impedance: false,
    }
}

// Whether the head lacks something at the model's first keyword: the type, or SGR, which is "required for SLM_general";
// "where one lacking is 9".
pub fn head_lacks(h: Head) -> bool
    ensures { result ≡ head_lacks h }
{
    h.kind == 0 || h.kind == SLM_GENERAL && !h.sgr
}
