// Reads words from standard input, one a line, and prints each with its number: m and k, or rule 13 or 14.
// At most 65,536 bytes are read, and what cannot be printed is left out. No contract says what is printed: the file
// `stdout` does.
#![tactic(auto)]

use lex_number::NumberError;
use std::io::{self, Read};

const MOST: usize = 65536;

// Prints m and k, each with a minus sign if it is negative.
fn print_value(rt: &impl Print, word: u64) {
    let d = lex_number::decimal_of(word);
    let sign = if d.negative { "-" } else { "" };
    let _ = if d.shifted < 64 {
        println!(rt; "{sign}{} -{}", d.size, 64 - d.shifted)
    } else {
        println!(rt; "{sign}{} {}", d.size, d.shifted - 64)
    };
}

fn print_reading(rt: &impl Print, word: &[u8]) {
    let _ = rt.write_all(word);
    let _ = print!(rt; " ");
    match lex_number::read_number(word) {
        Ok(value) => print_value(rt, value),
        Err(NumberError::Malformed) => {
            let _ = println!(rt; "13");
        }
        Err(NumberError::Range) => {
            let _ = println!(rt; "14");
        }
    }
}

fn main(rt: HostRuntime) -> io::Result<()> {
    let mut text = Vec::with_capacity(rt.alloc(), MOST)?;
    // A read that fails ends the text.
    let _ = rt.reader().take(MOST as u64).read_to_end(&mut text);
    for line in text.split_inclusive(|b| *b == b'\n') {
        print_reading(&rt, line.strip_suffix(b"\n").unwrap_or(line));
    }
    Ok(())
}
