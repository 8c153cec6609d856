// What every other crate uses: byte classes, runs of bytes, and stores into a lent table.
#![tactic(auto)]

ghost use Rattle.std.specs.Prelude.{◌≡◌, ◌++◌, ◌+◌, ◌-◌, ◌<◌, ◌≤◌, min, max, length, get_or, take, replicate};
ghost use Rattle.std.proofs.lemmas.List.Edits.{sets};
ghost use Rattle.base.specs.Bytes.{is_blank, is_digit, is_small, is_letter, is_filled, is_printed};
ghost use Rattle.base.specs.Runs.{run};
ghost use Rattle.base.specs.Way.Class.{run_end};

pub mod class;
pub mod fast;
pub mod refusal;

use crate::class::{Blank, ByteClass, Filled};

// A space or a TAB.
fn is_blank(b: u8) -> bool
    ensures { result ≡ is_blank b }
{
    b == b' ' || b == b'\t'
}

pub fn is_digit(b: u8) -> bool
    ensures { result ≡ is_digit b }
{
    b.is_ascii_digit()
}

pub fn is_small(b: u8) -> bool
    ensures { result ≡ is_small b }
{
    b.is_ascii_lowercase()
}

pub fn is_letter(b: u8) -> bool
    ensures { result ≡ is_letter b }
{
    b.is_ascii_alphabetic()
}

fn is_printed(b: u8) -> bool
    ensures { result ≡ is_printed b }
{
    if b == b'\t' {
        return true;
    }
    b' ' <= b && b <= b'~'
}

// The byte at position `i`, or 0 past the end. A text that passes rule 2 contains no 0, so past the end a comparison
// with any other byte fails.
pub fn byte_at(s: &[u8], i: usize) -> u8
    ensures { result ≡ get_or s.now i 0 }
{
    s.get(i).copied().unwrap_or(0)
}

// ---- numbers

pub fn lesser(a: u64, b: u64) -> u64
    ensures { result ≡ min a b }
{
    a.min(b)
}

pub fn greater(a: u64, b: u64) -> u64
    ensures { result ≡ max a b }
{
    a.max(b)
}

// a minus b, or 0 if b is greater.
pub fn minus(a: u64, b: u64) -> u64
    ensures { result ≡ a - b }
{
    a.saturating_sub(b)
}

// A byte as a 64-bit word, so that arithmetic with it cannot overflow the width of a byte.
pub fn wide(b: u8) -> u64
    ensures { (result ≡ b) × (result < 256) }
{
    u64::from(b)
}

// ---- runs

// How many bytes from the front are in a class.
fn run_length<C: ByteClass>(class: C, s: &[u8]) -> usize
    ensures length { result ≡ run (C.holds class) s.now }
    ensures inside { result ≤ length s.now }
{
    s.iter()
        .position(|b| !class.contains(*b))
        .unwrap_or(s.len())
}

// Where the run of a class that starts at `from` ends. No chain: most runs are short, and a loop in place is faster then.
pub fn skip<C: ByteClass>(class: C, s: &[u8], from: usize) -> usize
    ensures { result ≡ run_end (C.holds class) s.now from }
{
    if s.len() <= from {
        return from;
    }
    for i in from..s.len() {
        if !class.contains(s[i]) {
            return i;
        }
    }
    s.len()
}

// The position after the blanks at `from`: where the next word of a line starts.
pub fn past_blanks(s: &[u8], from: usize) -> usize
    ensures { result ≡ run_end is_blank s.now from }
{
    skip(Blank, s, from)
}

// The position after the word at `from`.
pub fn past_word(s: &[u8], from: usize) -> usize
    ensures { result ≡ run_end is_filled s.now from }
{
    skip(Filled, s, from)
}

// Stores the words one after another, the first at `at`.
pub fn put_words(table: &mut [u64], at: usize, words: &[u64])
    requires { at + length words.now ≤ length table.old }
    ensures { table.new ≡ sets table.old at words.now }
{
    table[at..at + words.len()].copy_from_slice(words);
}

// Sets every word from `from` to the end to zero. Does nothing if `from` is past the end.
pub fn zero_from(table: &mut [u64], from: usize)
    ensures { table.new ≡ take from table.old ++ replicate (length table.old - from) 0 }
{
    let kept = from.min(table.len());
    table[kept..].fill(0);
}

// Zeroes the whole table, as a refused intake must.
pub fn zero_all(table: &mut [u64])
    ensures { table.new ≡ replicate (length table.old) 0 }
{
    table.fill(0);
}
