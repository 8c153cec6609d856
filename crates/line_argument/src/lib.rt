// Document 01, "Lines and keywords" and the sections after it: which argument each keyword takes, and the words that
// are never a name. An argument is given without the blanks at its ends and without the comment.
#![tactic(auto)]

ghost use Rattle.std.specs.Prelude.{◌≡◌, length};
ghost use Rattle.base.specs.Bytes.{within};
ghost use Rattle.line_argument.specs.Argument.{
  is_reserved,
  is_one_word,
  is_name,
  is_file_byte,
  is_extension,
  is_file_name,
  form_of,
  method_of,
  takes_nothing,
  takes_free_text,
  takes_name,
  is_bad_form,
  is_bad_argument,
  is_bad_integer,
  is_out_of_bounds,
};
ghost use Rattle.line_argument.specs.Way.Reserved.{starts_reserved};

use base::class::{ByteClass, Filled};

// Whether a reserved word starts with this byte.
pub fn starts_reserved(b: u8) -> bool
    ensures { result ≡ starts_reserved b }
{
    matches!(b, b'P' | b'G' | b'N')
}

// "names .. never POWER, GND, NC or NA". For most words the first byte decides it.
pub fn is_reserved(word: &[u8]) -> bool
    ensures { result ≡ is_reserved word.now }
{
    starts_reserved(base::byte_at(word, 0))
        && (lex_line::same_bytes(word, b"POWER")
            || lex_line::same_bytes(word, b"GND")
            || lex_line::same_bytes(word, b"NC")
            || lex_line::same_bytes(word, b"NA"))
}

// One word: not empty, and without a blank.
fn is_one_word(s: &[u8]) -> bool
    ensures { result ≡ is_one_word s.now }
{
    0 < s.len() && base::skip(Filled, s, 0) == s.len()
}

// "names of models, maps, sections .. are one word".
fn is_name(s: &[u8]) -> bool
    ensures { result ≡ is_name s.now }
{
    is_one_word(s) && !is_reserved(s)
}

// "from a-z 0-9 _ -".
fn is_file_byte(b: u8) -> bool
    ensures { result ≡ is_file_byte b }
{
    base::is_small(b) || base::is_digit(b) || b == b'_' || b == b'-'
}

// The bytes of a file's name before its period, and behind it.
#[derive(Clone, Copy)]
struct FileByte;

impl ByteClass for FileByte {
    ghost holds = { λ _ b. is_file_byte b };

    fn contains(self, b: u8) -> bool {
        is_file_byte(b)
    }
}

// "1 to 3 more".
fn is_extension(s: &[u8]) -> bool
    ensures { result ≡ is_extension s.now }
{
    1 <= s.len() && s.len() <= 3 && base::skip(FileByte, s, 0) == s.len()
}

// "A file name is a base, one period, 1 to 3 more".
fn is_file_name(s: &[u8]) -> bool
    ensures { result ≡ is_file_name s.now }
{
    let period = base::skip(FileByte, s, 0);
    // Not joined by &&: the part behind the period is taken on what both tests say.
    if period < 1 {
        return false;
    }
    if base::byte_at(s, period) != b'.' {
        return false;
    }
    let after = period + 1;
    is_extension(&s[after..])
}

// "at most 40 characters", and not empty.
fn is_date(s: &[u8]) -> bool
    ensures { result ≡ within 1 40 (length s.now) }
{
    1 <= s.len() && s.len() <= 40
}

// The form of a matrix by its number in the table; FORMS for any other word.
pub fn form_of(s: &[u8]) -> u64
    ensures { result ≡ form_of s.now }
{
    if lex_line::same_bytes(s, b"Diagonal_matrix") {
        return table_layout::code::DIAGONAL;
    }
    if lex_line::same_bytes(s, b"Banded_matrix") {
        return table_layout::code::BANDED;
    }
    if lex_line::same_bytes(s, b"Sparse_matrix") {
        return table_layout::code::SPARSE;
    }
    if lex_line::same_bytes(s, b"Full_matrix") {
        return table_layout::code::FULL;
    }
    table_layout::code::FORMS
}

// "[Derivation Method] Lumped or Distributed", by its number in the table; METHODS for any other word.
pub fn method_of(s: &[u8]) -> u64
    ensures { result ≡ method_of s.now }
{
    if lex_line::same_bytes(s, b"Lumped") {
        return table_layout::code::LUMPED;
    }
    if lex_line::same_bytes(s, b"Distributed") {
        return table_layout::code::DISTRIBUTED;
    }
    table_layout::code::METHODS
}

// The keywords that take no argument.
fn takes_nothing(key: u64) -> bool
    ensures { result ≡ takes_nothing key }
{
    matches!(
        key,
        lex_keyword::BEGIN_HEADER
            | lex_keyword::END_HEADER
            | lex_keyword::ICM_MODEL_LIST
            | lex_keyword::TREE_PATH_DESCRIPTION
            | lex_keyword::END_ICM_MODEL
            | lex_keyword::END_ICM_FAMILY
            | lex_keyword::END_ICM_SECTION
            | lex_keyword::THE_END
    )
}

// "Other arguments are non-empty text".
fn takes_text(key: u64) -> bool
    ensures { result ≡ takes_free_text key }
{
    matches!(
        key,
        lex_keyword::FILE_REV
            | lex_keyword::REDISTRIBUTION
            | lex_keyword::BEGIN_ICM_FAMILY
            | lex_keyword::MANUFACTURER
    )
}

// "names of models, maps, sections".
fn takes_name(key: u64) -> bool
    ensures { result ≡ takes_name key }
{
    matches!(
        key,
        lex_keyword::BEGIN_ICM_MODEL | lex_keyword::ICM_PIN_MAP | lex_keyword::BEGIN_ICM_SECTION
    )
}

// Rule 11 for the keywords that take a text of a form of their own.
fn is_bad_form(key: u64, argument: &[u8]) -> bool
    ensures { result ≡ is_bad_form key argument.now }
{
    match key {
        lex_keyword::ICM_VER => !lex_line::same_bytes(argument, b"1.1"),
        lex_keyword::FILE_NAME => !is_file_name(argument),
        lex_keyword::DATE => !is_date(argument),
        lex_keyword::DERIVATION_METHOD => method_of(argument) == table_layout::code::METHODS,
        _ => false,
    }
}

// "11 ARGUMENT: argument missing, surplus or not allowed". A keyword that opens a text block takes any text, even none.
pub fn is_bad_argument(key: u64, argument: &[u8]) -> bool
    ensures { result ≡ is_bad_argument key argument.now }
{
    if line_place::is_row_or_bandwidth(key) {
        return !is_one_word(argument);
    }
    if line_place::opens_matrix(key) {
        return form_of(argument) == table_layout::code::FORMS;
    }
    if takes_nothing(key) {
        return 0 < argument.len();
    }
    if takes_name(key) {
        return !is_name(argument);
    }
    if takes_text(key) {
        return argument.is_empty();
    }
    is_bad_form(key, argument)
}

// Rule 13 for a keyword line: [Row] and [Bandwidth] take an integer.
pub fn is_bad_integer(key: u64, argument: &[u8]) -> bool
    ensures { result ≡ is_bad_integer key argument.now }
{
    line_place::is_row_or_bandwidth(key) && lex_number::read_integer(argument).is_none()
}

// Rule 14 for a keyword line: "[Row] .. 1 to 256; B 0 to 255".
pub fn is_out_of_bounds(key: u64, argument: &[u8]) -> bool
    ensures { result ≡ is_out_of_bounds key argument.now }
{
    if key == lex_keyword::ROW {
        let row = lex_number::read_integer(argument);
        return !lex_number::is_whole_within(1, table_layout::bound::CONDUCTORS, row);
    }
    if key == lex_keyword::BANDWIDTH {
        let bandwidth = lex_number::read_integer(argument);
        return table_layout::bound::BANDWIDTH < bandwidth.unwrap_or(0);
    }
    false
}
