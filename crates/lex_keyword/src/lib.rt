// Document 01, "Lines and keywords": reads the bracket at the front of a line.
#![tactic(auto)]

ghost use Rattle.std.specs.Prelude.{◌≡◌, [], ◌+◌, ◌≤◌, ◌<◌, length, get_or};
ghost use Rattle.base.specs.Bytes.{is_blank};
ghost use Rattle.base.specs.Way.Class.{run_end};
ghost use Rattle.base.specs.Runs.{all};
ghost use Rattle.lex_keyword.specs.Names.{folded, names, same_name, keyword_of, is_later};
ghost use Rattle.lex_keyword.specs.Way.Lookup.{letters, start_of, first_of_size, stands_at};
ghost use Rattle.lex_keyword.specs.Way.Reading.{closes_at, says_name};
ghost use Rattle.lex_keyword.specs.Bracket.{is_separator, is_plain_byte, parted, is_hyphen_word, is_good_word, are_good_words, is_good_name, named_as, bracket_of};

use base::class::{Before, Blank, ByteClass};

mod fast;

#[derive(Clone, Copy)]
pub enum Bracket {
    // The first byte of the line that is not blank is no `[`.
    Plain,
    // It is a `[`, but not in column 1.
    Indented,
    // Rule 6: a `[` in column 1 that opens no well-formed keyword.
    Bad,
    // Rule 7: a keyword that document 000 does not have.
    Unknown,
    // Rule 8: a later keyword.
    Later,
    // The number of the keyword, and where its argument starts.
    Keyword(u64, usize),
}

// The numbers of the keywords: the index of each name in the list below.
pub const THE_END: u64 = 0;

pub const ROW: u64 = 1;

pub const DATE: u64 = 2;

pub const NOTES: u64 = 3;

pub const SOURCE: u64 = 4;

pub const SUPPORT: u64 = 5;

pub const ICM_VER: u64 = 6;

pub const FILE_REV: u64 = 7;

pub const FILE_NAME: u64 = 8;

pub const COPYRIGHT: u64 = 9;

pub const BANDWIDTH: u64 = 10;

pub const FREQUENCY: u64 = 11;

pub const DISCLAIMER: u64 = 12;

pub const END_HEADER: u64 = 13;

pub const ICM_PIN_MAP: u64 = 14;

pub const BEGIN_HEADER: u64 = 15;

pub const MANUFACTURER: u64 = 16;

pub const COMMENT_CHAR: u64 = 17;

pub const ICM_NODE_MAP: u64 = 18;

pub const END_ICM_MODEL: u64 = 19;

pub const ICM_MODEL_LIST: u64 = 20;

pub const END_ICM_FAMILY: u64 = 21;

pub const REDISTRIBUTION: u64 = 22;

pub const BEGIN_ICM_MODEL: u64 = 23;

pub const END_ICM_SECTION: u64 = 24;

pub const ICM_S_PARAMETER: u64 = 25;

pub const BEGIN_ICM_FAMILY: u64 = 26;

pub const DERIVATION_METHOD: u64 = 27;

pub const RESISTANCE_MATRIX: u64 = 28;

pub const INDUCTANCE_MATRIX: u64 = 29;

pub const BEGIN_ICM_SECTION: u64 = 30;

pub const CONDUCTANCE_MATRIX: u64 = 31;

pub const CAPACITANCE_MATRIX: u64 = 32;

pub const REDISTRIBUTION_TEXT: u64 = 33;

pub const ICM_SWATH_PARAMETERS: u64 = 34;

pub const TREE_PATH_DESCRIPTION: u64 = 35;

pub const ICM_MODEL_DESCRIPTION: u64 = 36;

pub const ICM_SWATH_PIN_NUMBERS: u64 = 37;

pub const ICM_FAMILY_DESCRIPTION: u64 = 38;

pub const NODAL_PATH_DESCRIPTION: u64 = 39;

// The number of a name that is no keyword.
pub const UNKNOWN: u64 = 40;

// The names of the keywords as they are compared, one after another, shorter names first.
const LETTERS: [u8; 524] = *b"\
    end\
    row\
    date\
    notes\
    source\
    support\
    icm ver\
    file rev\
    file name\
    copyright\
    bandwidth\
    frequency\
    disclaimer\
    end header\
    icm pin map\
    begin header\
    manufacturer\
    comment char\
    icm node map\
    end icm model\
    icm model list\
    end icm family\
    redistribution\
    begin icm model\
    end icm section\
    icm s-parameter\
    begin icm family\
    derivation method\
    resistance matrix\
    inductance matrix\
    begin icm section\
    conductance matrix\
    capacitance matrix\
    redistribution text\
    icm swath parameters\
    tree path description\
    icm model description\
    icm swath pin numbers\
    icm family description\
    nodal path description";

// Where each name starts in LETTERS.
const STARTS: [u16; 40] = [
    0, 3, 6, 10, 15, 21, 28, 35, 43, 52, 61, 70, 79, 89, 99, 110, 122, 134, 146, 158, 171, 185,
    199, 213, 228, 243, 258, 274, 291, 308, 325, 342, 360, 378, 397, 417, 438, 459, 480, 502,
];

// For each length, the number of the first name that is at least that long. The name on a line is compared only with
// the names of its own length, four at most, and not with all forty.
const FIRSTS: [u8; 24] = [
    0, 0, 0, 0, 2, 3, 4, 5, 7, 8, 12, 14, 15, 19, 20, 23, 26, 27, 31, 33, 34, 35, 38, 40,
];

// The length of the longest name.
const LONGEST: usize = 22;

// The only word that may contain a hyphen, as it is compared.
const HYPHEN_WORD: [u8; 11] = *b"s-parameter";

// A byte of a keyword as it is compared: underscore and space are equal, case does not count.
fn fold(b: u8) -> u8
    ensures { result ≡ folded b }
{
    if b == b'_' {
        return b' ';
    }
    b.to_ascii_lowercase()
}

// The table of letters. A constant that is indexed is built anew at each use. So a search builds this table once and
// lends it, and the two tables used below have narrow numbers.
fn all_letters() -> [u8; 524]
    ensures { result ≡ letters }
{
    LETTERS
}

fn start_of(key: usize) -> usize
    requires { key < length names }
    ensures { result ≡ start_of key }
{
    usize::from(STARTS[key])
}

fn first_of(size: usize) -> usize
    requires { size < 24 }
    ensures { result ≡ first_of_size size }
{
    usize::from(FIRSTS[size])
}

// Whether the table has the bytes of the name, as they are compared, from `start` on.
fn stands_at(table: &[u8], name: &[u8], start: usize) -> bool
    requires { start + length name.now ≤ length table.now }
    ensures { result ≡ stands_at table.now name.now start }
{
    for i in 0..name.len() {
        if fold(name[i]) != table[start + i] {
            return false;
        }
    }
    true
}

// Whether the name is that of keyword `key`, whose name has the same length.
fn is_name_of(table: &[u8], name: &[u8], key: usize) -> bool
    requires table_value { table.now ≡ letters }
    requires key_in_bounds { key < length names }
    requires name_len { length name.now ≡ length (get_or names key []) }
    ensures { result ≡ same_name name.now (get_or names key []) }
{
    let start = start_of(key);
    stands_at(table, name, start)
}

// The number of the keyword with this name, or UNKNOWN.
fn key_of(name: &[u8]) -> u64
    ensures { result ≡ keyword_of name.now }
{
    let size = name.len();
    if LONGEST < size {
        return UNKNOWN;
    }
    let table = all_letters();
    for key in first_of(size)..first_of(size + 1) {
        if is_name_of(&table, name, key) {
            return key as u64;
        }
    }
    UNKNOWN
}

fn is_later(key: u64) -> bool
    ensures { result ≡ is_later key }
{
    if key == COMMENT_CHAR {
        return true;
    }
    if key == NODAL_PATH_DESCRIPTION {
        return true;
    }
    if key == ICM_NODE_MAP {
        return true;
    }
    if key == ICM_SWATH_PARAMETERS {
        return true;
    }
    if key == ICM_SWATH_PIN_NUMBERS {
        return true;
    }
    if key == FREQUENCY {
        return true;
    }
    key == ICM_S_PARAMETER
}

// A space or an underscore.
fn is_separator(b: u8) -> bool
    ensures { result ≡ is_separator b }
{
    b == b' ' || b == b'_'
}

// A letter or a digit.
fn is_plain_byte(b: u8) -> bool
    ensures { result ≡ is_plain_byte b }
{
    if base::is_letter(b) {
        return true;
    }
    base::is_digit(b)
}

fn is_plain(word: &[u8]) -> bool
    ensures { result ≡ all is_plain_byte word.now }
{
    word.iter().all(|b| is_plain_byte(*b))
}

fn is_hyphen_word(word: &[u8]) -> bool
    ensures { result ≡ is_hyphen_word word.now }
{
    if word.len() != HYPHEN_WORD.len() {
        return false;
    }
    stands_at(&HYPHEN_WORD, word, 0)
}

fn is_good_word(word: &[u8]) -> bool
    ensures { result ≡ is_good_word word.now }
{
    if word.is_empty() {
        return false;
    }
    if is_plain(word) {
        return true;
    }
    is_hyphen_word(word)
}

fn are_good_words(name: &[u8]) -> bool
    ensures { result ≡ are_good_words (parted name.now) }
{
    name.split(|b| is_separator(*b))
        .all(|word| is_good_word(word))
}

fn is_good_name(name: &[u8]) -> bool
    ensures { result ≡ is_good_name name.now }
{
    if !base::is_letter(base::byte_at(name, 0)) {
        return false;
    }
    are_good_words(name)
}

fn named_as(key: u64, argument: usize) -> Bracket
    ensures { result ≡ named_as key argument }
{
    if key == UNKNOWN {
        return Bracket::Unknown;
    }
    if is_later(key) {
        return Bracket::Later;
    }
    Bracket::Keyword(key, argument)
}

fn says_name(name: &[u8], argument: usize) -> Bracket
    ensures { result ≡ says_name name.now argument }
{
    if !is_good_name(name) {
        return Bracket::Bad;
    }
    named_as(key_of(name), argument)
}

// Whether a bracket is closed at `end`, which is its first `]` or the end of the line: there is a `]`, and after it a
// blank or the end of the line.
fn closes_at(content: &[u8], end: usize) -> bool
    ensures { result ≡ closes_at content.now end }
{
    if content.len() <= end {
        return false;
    }
    let next = end + 1;
    if content.len() <= next {
        return true;
    }
    Blank.contains(content[next])
}

// Reads a bracket in column 1. Most are `[Row]`, which needs no search.
fn opened_bracket(content: &[u8]) -> Bracket
    requires { (0 ≡ run_end is_blank content.now 0) × (91 ≡ get_or content.now 0 0) }
    ensures { result ≡ bracket_of content.now }
{
    if fast::is_row(content) {
        return Bracket::Keyword(ROW, base::past_blanks(content, 5));
    }
    let end = base::skip(Before(b']'), content, 1);
    if !closes_at(content, end) {
        return Bracket::Bad;
    }
    let argument = base::past_blanks(content, end + 1);
    says_name(&content[1..end], argument)
}

// Reads the bracket at the front of a line. A line is given by its content, the bytes before its comment and
// terminator. Most lines have no bracket.
pub fn read_bracket(content: &[u8]) -> Bracket
    ensures { result ≡ bracket_of content.now }
{
    let front = base::past_blanks(content, 0);
    if base::byte_at(content, front) != b'[' {
        return Bracket::Plain;
    }
    if 0 < front {
        return Bracket::Indented;
    }
    opened_bracket(content)
}
