// Document 01, "Numbers": a word read as a number or an integer, and the value word that the table stores.
// Words of any length are read in one pass. Numbers too great to matter are capped, which changes no answer.
#![tactic(auto)]

ghost use Rattle.std.specs.Prelude.{◌≡◌, true, false, ◌+◌, ◌-◌, ◌*◌, ◌/◌, ◌<◌, ◌≤◌, min, length, drop, get_or, ltb};
ghost use Rattle.base.specs.If.{provided◌then◌else◌, both};
ghost use Rattle.base.specs.Bytes.{within};
ghost use Rattle.base.specs.Runs.{all};
ghost use Rattle.base.specs.Way.Class.{run_end};
ghost use Rattle.lex_number.specs.Number.{is_sign, is_minus, is_e, past_sign, digits_go_on, no_digits, with_point, with_digit, with_byte, scan, no_exponent, exponent_of, scalings, power_in, above_zero, scale_of, raised, lowered, value_as, well_formed, number_of, is_formed, is_bounded};
ghost use Rattle.lex_number.specs.Integer.{whole_of, is_whole_within};
ghost use Rattle.lex_number.specs.ValueWord.{value_word, decimal_of, is_decimal, is_value_word};
ghost use Rattle.lex_number.specs.Way.Capped.{exponent_cap, count_cap, capped_digits, capped_exponent, size_at, raising, lowering, CutDigits, BoundedNumber};
ghost use Rattle.lex_number.specs.Way.At.{number_at};
ghost use Rattle.lex_number.specs.Way.In.{is_word, is_spelling, number_in};

use base::class::{ByteClass, Content, Filled, Letter};

mod fast;

// A letter that scales a number, and the power of ten that it scales by.
#[derive(Clone, Copy)]
struct Scaling(u8, i8);

// "the first scaling by T G M k m u n p f (12, 9, 6, 3, -3, -6, -9, -12, -15)". Case counts: 1M is a million, 1m a thousandth.
const SCALINGS: [Scaling; 9] = [
    Scaling(b'T', 12), // tera
    Scaling(b'G', 9), // giga
    Scaling(b'M', 6), // mega
    Scaling(b'k', 3), // kilo
    Scaling(b'm', -3), // milli
    Scaling(b'u', -6), // micro
    Scaling(b'n', -9), // nano
    Scaling(b'p', -12), // pico
    Scaling(b'f', -15), // femto
];

// Digits read so far: the number that they write, the number up to the last digit that is not 0, the count of zeros
// after that digit, the count of digits after the point, whether there is a digit and a point, and where they end.
#[derive(Clone, Copy)]
pub struct Digits {
    pub all: u64,
    pub size: u64,
    pub zeros: u64,
    pub fraction: u64,
    pub some: bool,
    pub point: bool,
    pub end: usize,
}

// An exponent, 0 if there is none, and where the letters after it start.
#[derive(Clone, Copy)]
pub struct Exponent {
    pub size: u64,
    pub negative: bool,
    pub end: usize,
}

// The power of ten of a letter: by how much it raises and by how much it lowers. One of the two is 0.
#[derive(Clone, Copy)]
pub struct Scale {
    pub up: u64,
    pub down: u64,
}

// Why a word has no value word: it is no number (rule 13), or its number is out of range (rule 14).
#[derive(Clone, Copy, PartialEq, Eq, Debug)]
pub enum NumberError {
    Malformed,
    Range,
}

// The parts of a value word: the sign, m's size, and k + 64.
#[derive(Clone, Copy)]
pub struct Decimal {
    pub negative: bool,
    pub size: u64,
    pub shifted: u64,
}

// "256 times m's size, plus 2(k+64), plus 1 if negative"; `shifted` is k + 64.
fn value_word(negative: bool, size: u64, shifted: u64) -> u64
    requires fact_1 { size < 1_000_000_000_000_000 }
    requires fact_2 { shifted < 128 }
    ensures { result ≡ value_word negative size shifted }
{
    256 * size + 2 * shifted + u64::from(negative)
}

// The three parts of a value word.
pub fn decimal_of(word: u64) -> Decimal
    ensures { result ≡ decimal_of word }
{
    Decimal {
        negative: word % 2 == 1,
        size: word / 256,
        shifted: word / 2 % 128,
    }
}

// From 1 to 15 digits, the last not 0, and k from -60 to 60.
fn is_decimal(d: Decimal) -> bool
    ensures { result ≡ is_decimal d }
{
    is_within(1, 999_999_999_999_999, d.size) && d.size % 10 != 0 && is_within(4, 124, d.shifted)
}

// Whether a word is the value word of a number, as every value of a sound table must be. 128 is zero.
pub fn is_value_word(word: u64) -> bool
    ensures { result ≡ is_value_word word }
{
    word == 128 || is_decimal(decimal_of(word))
}

// A number with one more digit, capped at ten times `tenth`.
fn extended(number: u64, digit: u64, tenth: u64) -> u64
    requires { (digit ≤ 9) × (tenth ≤ 1_000_000_000_000_000_000) }
    ensures { result ≡ min (10 * number + digit) (10 * tenth) }
{
    // Two `min` in its place are slower: read_number took an eighth longer, measured over 60,000 bytes of numbers.
    if number < tenth {
        10 * number + digit
    } else {
        10 * tenth
    }
}

// No digit read yet; the next byte is at `from`.
fn no_digits(from: usize) -> Digits
    ensures { result ≡ no_digits from }
{
    Digits {
        all: 0,
        size: 0,
        zeros: 0,
        fraction: 0,
        some: false,
        point: false,
        end: from,
    }
}

// "digits with at most one point": whether the digits go on with this byte.
fn goes_on(d: Digits, b: u8) -> bool
    ensures { result ≡ digits_go_on d b }
{
    base::is_digit(b) || b == b'.' && !d.point
}

// The digits with a point added.
fn with_point(d: Digits) -> Digits
    requires fact_1 { CutDigits d }
    requires fact_2 { d.end < count_cap }
    ensures { result ≡ capped_digits (with_point d) }
{
    Digits {
        point: true,
        end: d.end + 1,
        ..d
    }
}

// The digits with one more digit. A 0 leaves `size` as it is: only a later digit that is not 0 makes it part of m.
fn with_digit(d: Digits, digit: u64) -> Digits
    requires fact_1 { CutDigits d }
    requires fact_2 { d.end < count_cap }
    requires fact_3 { digit ≤ 9 }
    ensures { result ≡ capped_digits (with_digit d digit) }
{
    let all = extended(d.all, digit, 100_000_000_000_000);
    let frozen = digit == 0;
    Digits {
        all,
        size: if frozen { d.size } else { all },
        zeros: if frozen { d.zeros + 1 } else { 0 },
        fraction: d.fraction + u64::from(d.point),
        some: true,
        point: d.point,
        end: d.end + 1,
    }
}

// The digits with one more byte, a digit or their point.
fn with_byte(d: Digits, b: u8) -> Digits
    requires fact_1 { CutDigits d }
    requires fact_2 { d.end < count_cap }
    requires fact_3 { digits_go_on d b ≡ true }
    ensures { result ≡ capped_digits (with_byte d b) }
{
    if b == b'.' {
        with_point(d)
    } else {
        with_digit(d, base::wide(b) - 48)
    }
}

// Reads the digits at `from`, in one pass.
fn read_digits(s: &[u8], from: usize) -> Digits
    requires { from ≤ length s.now }
    ensures { result ≡ capped_digits (scan (drop from s.now) (no_digits from)) }
{
    let mut d = no_digits(from);
    for &b in &s[from..] {
        if !goes_on(d, b) {
            return d;
        }
        d = with_byte(d, b);
    }
    d
}

// "Optional sign": + or -.
fn is_sign(b: u8) -> bool
    ensures { result ≡ is_sign b }
{
    b == b'+' || b == b'-'
}

// The position after an optional sign at `from`.
fn past_sign(s: &[u8], from: usize) -> usize
    ensures { result ≡ past_sign s.now from }
{
    if from < s.len() && is_sign(s[from]) {
        from + 1
    } else {
        from
    }
}

// Whether there is a minus at `at`.
fn minus_at(s: &[u8], at: usize) -> bool
    ensures { result ≡ is_minus (get_or s.now at 0) }
{
    at < s.len() && s[at] == b'-'
}

// Reads the run of digits at `from` as an exponent with the given sign, in one pass.
fn read_size(s: &[u8], from: usize, negative: bool) -> Exponent
    requires { from ≤ length s.now }
    ensures { result ≡ capped_exponent (size_at s.now from negative) }
{
    let mut size: u64 = 0;
    for i in from..s.len() {
        let b = s[i];
        if !base::is_digit(b) {
            return Exponent {
                size,
                negative,
                end: i,
            };
        }
        size = extended(size, base::wide(b) - 48, 1_000_000_000_000_000_000);
    }
    Exponent {
        size,
        negative,
        end: s.len(),
    }
}

// "e or E".
fn is_e(b: u8) -> bool
    ensures { result ≡ is_e b }
{
    b == b'e' || b == b'E'
}

// No exponent: the letters start at `from`.
fn no_exponent(from: usize) -> Exponent
    ensures { result ≡ no_exponent from }
{
    Exponent {
        size: 0,
        negative: false,
        end: from,
    }
}

// "e or E with optional sign and digits, if digits follow".
fn read_exponent(s: &[u8], from: usize) -> Exponent
    ensures { result ≡ capped_exponent (exponent_of s.now from) }
{
    if s.len() <= from || !is_e(s[from]) {
        return no_exponent(from);
    }
    let digits = past_sign(s, from + 1);
    let x = read_size(s, digits, minus_at(s, from + 1));
    if x.end == digits {
        no_exponent(from)
    } else {
        x
    }
}

// "Integers: digits, 1 to 9 of them".
pub fn read_integer(s: &[u8]) -> Option<u64>
    ensures { result ≡ whole_of s.now }
{
    if s.is_empty() || 9 < s.len() {
        return None;
    }
    let x = read_size(s, 0, false);
    if x.end == s.len() { Some(x.size) } else { None }
}

// The power of ten that a letter scales by, 0 for "any other letter". The loop tests all nine entries, from the last to
// the first, and the first entry with the letter decides. So there is no branch that a processor has to predict.
fn power_of(b: u8) -> i8
    ensures { result ≡ power_in scalings b }
{
    let mut power: i8 = 0;
    for i in (0..SCALINGS.len()).rev() {
        let scaling = SCALINGS[i];
        if b == scaling.0 {
            power = scaling.1;
        }
    }
    power
}

// By how much a power is above zero, or 0 if it is below.
fn above_zero(power: i8) -> u64
    ensures { result ≡ above_zero power }
{
    power.max(0) as u64
}

// By how much a letter raises the power of ten, and by how much it lowers it.
fn scale_of(b: u8) -> Scale
    ensures { result ≡ scale_of b }
{
    let power = power_of(b);
    Scale {
        up: above_zero(power),
        down: above_zero(-power),
    }
}

// The scale of the letter at `at`; past the end there is none.
fn scale_at(s: &[u8], at: usize) -> Scale
    ensures { result ≡ scale_of (get_or s.now at 0) }
{
    scale_of(s.get(at).copied().unwrap_or(0))
}

// "at least one digit", "then letters only".
fn well_formed(s: &[u8], d: Digits, x: Exponent) -> bool
    requires { x.end ≤ length s.now }
    ensures { result ≡ well_formed s.now d x }
{
    d.some && base::skip(Letter, s, x.end) == s.len()
}

// What the exponent adds to the power of ten.
fn raising(x: Exponent) -> u64
    ensures { result ≡ raising x }
{
    if x.negative { 0 } else { x.size }
}

// What the exponent subtracts from the power of ten.
fn lowering(x: Exponent) -> u64
    ensures { result ≡ lowering x }
{
    if x.negative { x.size } else { 0 }
}

// A count of bytes plus an exponent, capped so that nothing wraps, plus the power of a letter.
fn power(count: u64, size: u64, scale: u64) -> u64
    requires { (count < count_cap) × ((size ≤ exponent_cap) × (scale ≤ 15)) }
    ensures { result ≡ min (count + size) exponent_cap + scale }
{
    count.saturating_add(size).min(10_000_000_000_000_000_000) + scale
}

// "Non-zero: at most 15 digits in m, k from -60 to 60"; k is `up` minus `down`.
fn judged(negative: bool, size: u64, up: u64, down: u64) -> Result<u64, NumberError>
    requires fact_1 { up ≤ exponent_cap + 15 }
    requires fact_2 { down ≤ exponent_cap + 15 }
    ensures { result ≡ value_as negative size up down }
{
    if size == 0 {
        return Ok(128);
    }
    if size >= 1_000_000_000_000_000 || down > up + 60 || up > down + 60 {
        return Err(NumberError::Range);
    }
    Ok(value_word(negative, size, up + 64 - down))
}

// The value of a well-formed number.
fn value_of(negative: bool, d: Digits, x: Exponent, c: Scale) -> Result<u64, NumberError>
    requires { BoundedNumber d x c }
    ensures { result ≡ value_as negative d.size (raised d x c) (lowered d x c) }
{
    let up = power(d.zeros, raising(x), c.up);
    let down = power(d.fraction, lowering(x), c.down);
    judged(negative, d.size, up, down)
}

// Reads a word of any length as a number.
pub fn read_number(s: &[u8]) -> Result<u64, NumberError>
    ensures { result ≡ number_of s.now }
{
    let d = read_digits(s, past_sign(s, 0));
    let x = read_exponent(s, d.end);
    if !well_formed(s, d, x) {
        return Err(NumberError::Malformed);
    }
    value_of(minus_at(s, 0), d, x, scale_at(s, x.end))
}

// ---- a number inside a line

// A number inside a line or a text, and where its word ends.
#[derive(Clone, Copy)]
pub struct NumberAt {
    pub number: Result<u64, NumberError>,
    pub end: usize,
}

// Reads the number at `from` in a line: first the end of its word is found, then the word is read.
pub fn number_at(s: &[u8], from: usize) -> NumberAt
    ensures { result ≡ number_at s.now from }
{
    if s.len() <= from {
        return NumberAt {
            number: Err(NumberError::Malformed),
            end: from,
        };
    }
    let end = base::skip(Filled, s, from);
    NumberAt {
        number: read_number(&s[from..end]),
        end,
    }
}

// ---- a number inside a whole text, whose lines have not been found yet

// A byte of a word: content that is not blank, where comments begin with this byte.
#[derive(Clone, Copy)]
struct WordByte(u8);

impl ByteClass for WordByte {
    ghost holds = { λ s b. is_word s.0 b };

    fn contains(self, b: u8) -> bool {
        Content(self.0).contains(b) && Filled.contains(b)
    }
}

// Whether there is a byte of a word at `at`.
pub fn is_word_at(s: &[u8], at: usize, comment: u8) -> bool
    ensures { result ≡ both (ltb at (length s.now)) (is_word comment (get_or s.now at 0)) }
{
    at < s.len() && WordByte(comment).contains(s[at])
}

// Where the word at `from` ends.
pub fn word_end(s: &[u8], from: usize, comment: u8) -> usize
    ensures { result ≡ run_end (is_word comment) s.now from }
{
    base::skip(WordByte(comment), s, from)
}

// The long way, for any word: first the end of the word at `from` is found, then the word is read.
fn long_number(s: &[u8], from: usize, comment: u8) -> NumberAt
    ensures { result ≡ number_in comment s.now from }
{
    if s.len() <= from {
        return NumberAt {
            number: Err(NumberError::Malformed),
            end: from,
        };
    }
    let end = word_end(s, from, comment);
    NumberAt {
        number: read_number(&s[from..end]),
        end,
    }
}

// Reads the number at `from`, and where its word ends: the short way if it knows the number, else the long way. Passing
// a new slice to the long way and rebuilding its answer keeps the text and the answer of the short way out of memory.
pub fn number_in(s: &[u8], from: usize, comment: u8) -> NumberAt
    requires { is_spelling comment ≡ false }
    ensures { result ≡ number_in comment s.now from }
{
    if let Some(near) = fast::short_number(s, from, comment) {
        return near;
    }
    let far = long_number(&s[0..], from, comment);
    let number = far.number;
    let end = far.end;
    NumberAt { number, end }
}

// Whether a word is a number; if not, it breaks rule 13.
pub fn is_formed(n: Result<u64, NumberError>) -> bool
    ensures { result ≡ is_formed n }
{
    match n {
        Ok(_) => true,
        Err(error) => error != NumberError::Malformed,
    }
}

// Whether a number is within its bounds; if not, it breaks rule 14. A word that is no number breaks no bounds.
pub fn is_bounded(n: Result<u64, NumberError>) -> bool
    ensures { result ≡ is_bounded n }
{
    match n {
        Ok(_) => true,
        Err(error) => error != NumberError::Range,
    }
}

// From `low` to `high`, both included: the bounds of an integer.
pub fn is_within(low: u64, high: u64, value: u64) -> bool
    ensures { result ≡ within low high value }
{
    low <= value && value <= high
}

// Whether an integer is within its bounds; if not, it breaks rule 14. A word that is no integer breaks no bounds.
pub fn is_whole_within(low: u64, high: u64, whole: Option<u64>) -> bool
    ensures { result ≡ is_whole_within low high whole }
{
    whole.is_none_or(|value| is_within(low, high, value))
}
