// Runs the intake over the test files of data/ and prints its answers. A line of standard input is one of these:
//   FILE       the answer with a table of 8,192 words, or `toolong` for a text that the listing program does not take
//   FILE N     the answer with a table of N words, at most 250,000
//   FILE hash  the words used and a hash of the table
//   FILE list  the listing
// A table is not zero before the intake. An answer ends with `old words` if a word of that is left.
// A word ends at a space or a TAB. What cannot be printed is left out.
#![tactic(auto)]

use intake::Answer;
use std::fs::File;
use std::io::{self, Read};
use std::rt::Files;

// How much of standard input is read.
const LINES: usize = 65536;

// How much of a file is read: one byte more than a text may have, so that a longer text is recognized.
const MOST: usize = 1048577;

// The longest text that the listing program takes, and the longest listing that is printed.
const LISTED: usize = 65536;

// The words of a table, and of the longest one that a line may ask for.
const WORDS: usize = 8192;

const ROOM: usize = 250000;

// What a word of a table is before the intake.
const OLD: u64 = 9;

// The initial value of FNV-1a, and its prime.
const BASIS: u64 = 14695981039346656037;

const PRIME: u64 = 1099511628211;

// FNV-1a of a table, 64 bits: of each word's eight bytes, the least significant first.
fn hash_table(table: &[u64]) -> u64 {
    let mut hash = BASIS;
    for word in table {
        for byte in word.to_le_bytes() {
            hash = (hash ^ u64::from(byte)).wrapping_mul(PRIME);
        }
    }
    hash
}

// Ends an answer. A word from `from` on that is not zero is left from before the intake.
fn print_end(rt: &impl Print, table: &[u64], from: usize) {
    if table.iter().skip(from).any(|word| *word != 0) {
        let _ = print!(rt; " old words");
    }
    let _ = println!(rt; "");
}

fn print_refusal(rt: &impl Print, rule: u64, line: u64, table: &[u64]) {
    let _ = print!(rt; " refused {rule} {line}");
    print_end(rt, table, 0);
}

fn print_answer(rt: &impl Print, text: &[u8], table: &mut [u64]) {
    match intake::intake(text, table) {
        Answer::Accepted(words) => {
            let _ = print!(rt; " accepted {words}");
            print_end(rt, table, words);
        }
        Answer::Refused(rule, line) => print_refusal(rt, rule, line, table),
    }
}

fn print_hash(rt: &impl Print, text: &[u8], table: &mut [u64]) {
    match intake::intake(text, table) {
        Answer::Accepted(words) => {
            let hash = hash_table(table);
            let _ = print!(rt; " {words} {hash:016x}");
            print_end(rt, table, words);
        }
        Answer::Refused(rule, line) => print_refusal(rt, rule, line, table),
    }
}

fn print_listing(rt: &impl Print, text: &[u8], table: &mut [u64], room: &mut [u8]) {
    let length = match intake::intake(text, table) {
        Answer::Accepted(words) => out_listing::write_listing(text, table, words, room),
        Answer::Refused(rule, line) => out_listing::write_refusal(rule, line, room),
    };
    let _ = println!(rt; "");
    let _ = rt.write_all(&room[..length.min(room.len())]);
}

// Does what the second word of a line asks for, if there is one.
fn run_text<R: Print + AllocGlobal>(rt: &R, text: &[u8], asked: Option<&[u8]>) -> io::Result<()> {
    let alloc = rt.alloc();
    match asked {
        None if LISTED < text.len() => {
            let _ = println!(rt; " toolong");
        }
        None => print_answer(rt, text, &mut vec![in alloc; OLD; WORDS]?),
        Some(b"hash") => print_hash(rt, text, &mut vec![in alloc; OLD; WORDS]?),
        Some(b"list") => print_listing(
            rt,
            text,
            &mut vec![in alloc; OLD; WORDS]?,
            &mut vec![in alloc; 0u8; LISTED]?,
        ),
        Some(word) => {
            let _ = print!(rt; " ");
            let _ = rt.write_all(word);
            // As in a text, a word of more than nine digits is no number.
            let words = lex_number::read_integer(word).unwrap_or(0);
            print_answer(
                rt,
                text,
                &mut vec![in alloc; OLD; ROOM.min(words as usize)]?,
            );
        }
    }
    Ok(())
}

// Opens a file to read; none if its name is not UTF-8 or it cannot be opened.
fn open<R: Files>(rt: &R, name: &[u8]) -> Option<R::File> {
    File::open(rt, str::from_utf8(name).ok()?).ok()
}

// The first `most` bytes, or fewer if they end before or a read fails.
fn read_most<R: AllocGlobal>(rt: &R, from: impl Read + Drop, most: usize) -> io::Result<Vec<u8>> {
    let mut bytes = Vec::with_capacity(rt.alloc(), most)?;
    let _ = from.take(most as u64).read_to_end(&mut bytes);
    Ok(bytes)
}

fn run_line<R: Files + Print + AllocGlobal>(rt: &R, line: &[u8]) -> io::Result<()> {
    let mut words = line
        .split(|b| *b == b' ' || *b == b'\t')
        .filter(|word| !word.is_empty());
    let name = words.next().unwrap_or(b"");
    // A name is printed without its ending, `.icm` or any other four bytes.
    let _ = rt.write_all(&name[..name.len().saturating_sub(4)]);
    match open(rt, name) {
        Some(file) => run_text(rt, &read_most(rt, file, MOST)?, words.next()),
        None => {
            let _ = println!(rt; " cannot be read");
            Ok(())
        }
    }
}

fn main(rt: HostRuntime) -> io::Result<()> {
    let lines = read_most(&rt, rt.reader(), LINES)?;
    for line in lines.split_inclusive(|b| *b == b'\n') {
        run_line(&rt, line.strip_suffix(b"\n").unwrap_or(line))?;
    }
    Ok(())
}
