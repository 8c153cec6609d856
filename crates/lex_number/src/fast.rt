// The short way to a number: a short number at a place of the text is read in one pass, several digits at a time.
// Where it does not know the number it says so, and the long way of lib.rt reads it.
ghost use Rattle.std.specs.Prelude.{◌≡◌, true, false, ◌+◌, ◌-◌, ◌*◌, ◌/◌, ◌^◌, ◌<◌, ◌≤◌, length, take, drop, get_or};
ghost use Rattle.base.specs.If.{provided◌then◌else◌};
ghost use Rattle.base.specs.Bytes.{is_digit, is_letter};
ghost use Rattle.base.specs.Runs.{all};
ghost use Rattle.lex_number.specs.Number.{is_sign};
ghost use Rattle.lex_number.specs.Integer.{value_of};
ghost use Rattle.lex_number.specs.Way.Capped.{exponent_cap, count_cap, raising, lowering};
ghost use Rattle.lex_number.specs.Way.At.{weight, no_reading, RunRead, DigitsRead, ExponentRead, PartsRead, ShortParts, Splits, Says};
ghost use Rattle.lex_number.specs.Way.Block.{bytes_of, AreDigits, paired_digits};
ghost use Rattle.lex_number.specs.Way.In.{is_spelling, Knows};

use crate::{Exponent, NumberAt, NumberError, Scale, WordByte};
use base::class::{ByteClass, Letter};

// The short way reads at most this many bytes of digits, with their point. The number that they write fits a word. A
// number with more digits is read the long way.
const MOST_DIGITS: usize = 19;

// The same for the digits of an exponent.
const MOST_EXPONENT: usize = 9;

// The short way is taken only if at least this many bytes are left. Then sign, digits, exponent and two letters of a
// unit all lie before the end of the text, and reading them needs no test for the end.
const ROOM: usize = 40;

// A run of digits: the number that it writes, where it ends, and the byte there.
#[derive(Clone, Copy)]
pub struct Run {
    pub value: u64,
    pub end: usize,
    pub next: u8,
}

// Digits with at most one point: the number that they write, the count of digits after the point, whether there is a
// digit, where they end, and the byte there.
#[derive(Clone, Copy)]
pub struct Plain {
    pub all: u64,
    pub fraction: u64,
    pub some: bool,
    pub end: usize,
    pub next: u8,
}

// An exponent, and the byte where it ends.
#[derive(Clone, Copy)]
pub struct Reading {
    pub exponent: Exponent,
    pub next: u8,
}

// The parts of a number without its letters, and the byte where they end.
#[derive(Clone, Copy)]
pub struct Parts {
    pub negative: bool,
    pub digits: Plain,
    pub exponent: Exponent,
    pub next: u8,
}

// A number as a size that does not end in 0, and the count of zeros after it.
#[derive(Clone, Copy)]
struct Trimmed {
    size: u64,
    zeros: u64,
}

// Reads the run of digits at `from`. `before` is the number that earlier digits write, and the value includes it. Reads
// up to `stop` at most, so that nothing has to be capped.
fn read_run(s: &[u8], from: usize, stop: usize, before: u64) -> Run
    requires fact_1 { from < length s.now }
    requires fact_2 { stop < length s.now }
    requires fact_3 { weight before from stop ≤ exponent_cap }
    ensures { RunRead s.now from stop before result }
{
    let mut value = before;
    for i in from..stop {
        let next = s[i];
        if !base::is_digit(next) {
            return Run {
                value,
                end: i,
                next,
            };
        }
        value = 10 * value + (base::wide(next) - 48);
    }
    let end = from.max(stop);
    Run {
        value,
        end,
        next: s[end],
    }
}

// Whether eight bytes, given as one word, are all digits. Digits are 0x30 to 0x39: the high half of such a byte is 3,
// and it is still 3 after 6 is added.
fn are_eight(word: u64) -> bool
    ensures { AreDigits 8 word result }
{
    word & 0xf0f0_f0f0_f0f0_f0f0 == 0x3030_3030_3030_3030
        && (word + 0x0606_0606_0606_0606) & 0xf0f0_f0f0_f0f0_f0f0 == 0x3030_3030_3030_3030
}

// The same for four bytes.
fn are_four(word: u64) -> bool
    requires { word < 4_294_967_296 }
    ensures { AreDigits 4 word result }
{
    word & 0xf0f0_f0f0 == 0x3030_3030 && (word + 0x0606_0606) & 0xf0f0_f0f0 == 0x3030_3030
}

// A word contains numbers side by side, each `width` bits wide. Combines each pair into one number: the first times
// `factor`, plus the second. The results are twice as wide, and the mask clears the bits between them.
fn paired(word: u64, width: u64, factor: u64, mask: u64) -> u64
    requires fact_1 { width < 64 }
    requires fact_2 { factor * word + word / 2 ^ width < 18_446_744_073_709_551_616 }
    ensures { result ≡ paired_digits word width factor mask }
{
    (factor * word + (word >> width)) & mask
}

// The number that eight digits write, given as one word. It takes three steps. One digit after the other would take
// eight steps, and each would wait for the one before.
fn eight_value(word: u64) -> u64
    requires { all is_digit (bytes_of 8 word) ≡ true }
    ensures fact_1 { result ≡ value_of 0 (bytes_of 8 word) }
    ensures fact_2 { result < 100_000_000 }
{
    let ones = word - 0x3030_3030_3030_3030;
    let twos = paired(ones, 8, 10, 0x00ff_00ff_00ff_00ff);
    let fours = paired(twos, 16, 100, 0x0000_ffff_0000_ffff);
    paired(fours, 32, 10_000, 0xffff_ffff)
}

// The number that four digits write, computed in the same way.
fn four_value(word: u64) -> u64
    requires fact_1 { all is_digit (bytes_of 4 word) ≡ true }
    requires fact_2 { word < 4_294_967_296 }
    ensures fact_1 { result ≡ value_of 0 (bytes_of 4 word) }
    ensures fact_2 { result < 10_000 }
{
    let ones = word - 0x3030_3030;
    let twos = paired(ones, 8, 10, 0x00ff_00ff);
    paired(twos, 16, 100, 0xffff)
}

// Like `read_run`, but reads four digits at once if there are four. Mostly there is no digit, so that is tested first.
fn read_four(s: &[u8], from: usize, stop: usize, before: u64) -> Run
    requires fact_1 { from < length s.now }
    requires fact_2 { stop < length s.now }
    requires fact_3 { weight before from stop ≤ exponent_cap }
    ensures { RunRead s.now from stop before result }
{
    let next = s[from];
    if !base::is_digit(next) {
        return Run {
            value: before,
            end: from,
            next,
        };
    }
    let end = from + 4;
    if end <= stop {
        let word = base::fast::four_at(s, from);
        if are_four(word) {
            return read_run(s, end, stop, 10_000 * before + four_value(word));
        }
    }
    read_run(s, from, stop, before)
}

// Like `read_run`, for the digits after a point, which are often many: if there are eight, reads them at once, then
// four at once, then the rest.
fn read_part(s: &[u8], from: usize, stop: usize, before: u64) -> Run
    requires fact_1 { from < length s.now }
    requires fact_2 { stop < length s.now }
    requires fact_3 { weight before from stop ≤ exponent_cap }
    ensures { RunRead s.now from stop before result }
{
    let end = from + 8;
    if end <= stop {
        let word = base::fast::eight_at(s, from);
        if are_eight(word) {
            return read_four(s, end, stop, 100_000_000 * before + eight_value(word));
        }
    }
    read_run(s, from, stop, before)
}

// Reads the digits at `from`: a run, and if a point follows it, another run.
fn plain_digits(s: &[u8], from: usize) -> Plain
    requires { from + 20 < length s.now }
    ensures { DigitsRead s.now from result }
{
    let stop = from + MOST_DIGITS;
    let whole = read_run(s, from, stop, 0);
    let end = whole.end;
    if whole.next != b'.' {
        return Plain {
            all: whole.value,
            fraction: 0,
            some: from < end,
            end,
            next: whole.next,
        };
    }
    let point = end + 1;
    let part = read_part(s, point, stop, whole.value);
    let last = part.end;
    let fraction = last - point;
    Plain {
        all: part.value,
        fraction: fraction as u64,
        some: from + 1 < last,
        end: last,
        next: part.next,
    }
}

// The position after the byte b at `at` if b is a sign, else `at`.
fn past(b: u8, at: usize) -> usize
    requires { at < count_cap }
    ensures fact_1 { result ≡ (provided is_sign b then at + 1 else at) }
    ensures fact_2 { result ≤ at + 1 }
{
    at + usize::from(crate::is_sign(b))
}

// No exponent at `from`, where the byte is b.
fn no_reading(from: usize, b: u8) -> Reading
    ensures { result ≡ no_reading from b }
{
    let exponent = crate::no_exponent(from);
    Reading { exponent, next: b }
}

// Reads the exponent at `from`, where the byte is b.
fn plain_exponent(s: &[u8], from: usize, b: u8) -> Reading
    requires fact_1 { from + 11 < length s.now }
    requires fact_2 { b ≡ get_or s.now from 0 }
    ensures { ExponentRead s.now from b result }
{
    if !crate::is_e(b) {
        return no_reading(from, b);
    }
    let sign = s[from + 1];
    let digits = past(sign, from + 1);
    let stop = digits + MOST_EXPONENT;
    let x = read_run(s, digits, stop, 0);
    if x.end == digits {
        return no_reading(from, b);
    }
    let exponent = Exponent {
        size: x.value,
        negative: sign == b'-',
        end: x.end,
    };
    Reading {
        exponent,
        next: x.next,
    }
}

// Reads the parts of the number at the front of a text.
fn parts_of(s: &[u8]) -> Parts
    requires { 40 ≤ length s.now }
    ensures { PartsRead s.now result }
{
    let first = s[0];
    let digits = plain_digits(s, past(first, 0));
    let reading = plain_exponent(s, digits.end, digits.next);
    let exponent = reading.exponent;
    Parts {
        negative: first == b'-',
        digits,
        exponent,
        next: reading.next,
    }
}

// Splits a number that is not 0 into its size and the zeros at its end.
fn without_zeros(all: u64) -> Trimmed
    requires { 0 < all }
    ensures fact_1 { Splits all result.size result.zeros }
    ensures fact_2 { result.zeros < 20 }
{
    let mut size = all;
    let mut zeros = 0;
    while size % 10 == 0 {
        size = size / 10;
        zeros += 1;
    }
    Trimmed { size, zeros }
}

// The value of a number whose parts are short, so that no sum has to be capped.
fn plain_value(parts: Parts, c: Scale) -> Result<u64, NumberError>
    requires fact_1 { ShortParts parts }
    requires fact_2 { c.up ≤ 15 }
    requires fact_3 { c.down ≤ 15 }
    ensures { Says parts c result }
{
    let d = parts.digits;
    let x = parts.exponent;
    if d.all == 0 {
        return Ok(128);
    }
    let m = without_zeros(d.all);
    let up = m.zeros + crate::raising(x) + c.up;
    let down = d.fraction + crate::lowering(x) + c.down;
    crate::judged(parts.negative, m.size, up, down)
}

// The position after the byte at `at` if it is a letter, else `at`: skips a unit of two letters without a branch.
fn past_letter(s: &[u8], at: usize) -> usize
    requires { at < length s.now }
    ensures fact_1 { result ≡ (provided is_letter (get_or s.now at 0) then at + 1 else at) }
    ensures fact_2 { result ≤ at + 1 }
{
    at + usize::from(base::is_letter(s[at]))
}

// The short way for a number at `from` whose parts have been read and whose word goes on after them. The number is
// known if the rest of the word is letters only; else the long way has to read it.
fn scaled_in(s: &[u8], from: usize, comment: u8, parts: Parts) -> Option<NumberAt>
    requires fact_1 { is_spelling comment ≡ false }
    requires fact_2 { from < length s.now }
    requires fact_3 { 40 ≤ length s.now - from }
    requires fact_4 { PartsRead (take (length s.now - from) (drop from s.now)) parts }
    ensures { Knows comment s.now from result }
{
    let digits = parts.digits;
    if !digits.some || !base::is_letter(parts.next) {
        return None;
    }
    let exponent = parts.exponent;
    let scale = crate::scale_of(parts.next);
    let near = past_letter(s, from + exponent.end + 1);
    if !WordByte(comment).contains(s[near]) {
        return Some(NumberAt {
            number: plain_value(parts, scale),
            end: near,
        });
    }
    let end = base::skip(Letter, s, near);
    if crate::is_word_at(s, end, comment) {
        return None;
    }
    Some(NumberAt {
        number: plain_value(parts, scale),
        end,
    })
}

// The short way: reads the number at `from` in one pass, and where its word ends, if the number is short.
pub fn short_number(s: &[u8], from: usize, comment: u8) -> Option<NumberAt>
    requires { is_spelling comment ≡ false }
    ensures { Knows comment s.now from result }
{
    if s.len().saturating_sub(from) < ROOM {
        return None;
    }
    let parts = parts_of(&s[from..]);
    if WordByte(comment).contains(parts.next) {
        return scaled_in(s, from, comment, parts);
    }
    let digits = parts.digits;
    if !digits.some {
        return None;
    }
    let exponent = parts.exponent;
    let scale = Scale { up: 0, down: 0 };
    Some(NumberAt {
        number: plain_value(parts, scale),
        end: from + exponent.end,
    })
}
