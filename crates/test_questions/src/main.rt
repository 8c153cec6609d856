// Asks questions about any text and any table. Standard input has one command a line, and each question is answered on a line.
// Run as: test_questions < COMMANDS, in the folder of the files that they name. Numbers are decimal, up to 2^64 - 1.
// The commands:
//   text           empties the text
//   text FILE      reads the text from a file
//   line REST      appends a line to the text: REST and LF
//   table N        makes a table of N zeros, at most 8,192
//   intake N       makes the table of N words that the intake leaves for the text, and prints
//                  `intake accepted WORDS` or `intake refused RULE LINE`
//   size N         changes the table's length to N words; words that it gains have their last values, zeros if never set
//   set INDEX V .. sets the words from an index on
//   sound          prints `sound yes` or `sound no`
//   entry SECTION KIND ROW COLUMN
//                  prints `entry WORD` or `entry refused RULE`
//   walk MODEL STEP DEPTH
//                  prints `walk step KIND TARGET AMOUNT SIDE SIZE LINE next MODEL STEP DEPTH`,
//                  `walk done MODEL STEP DEPTH` or `walk refused RULE`
//   # REST         is printed as it is, to label the answers
// Any other line that is not empty, and a command with a bad number, is answered with `what` and the line.
// A word ends at a space or a TAB. Only `entry` and `walk` may stand behind blanks. What cannot be printed is left out.
#![tactic(auto)]

use ask_walk::{Place, Walked};
use std::fs::File;
use std::io::{self, Read};
use std::rt::Files;

// How much of standard input is read.
const COMMANDS: usize = 1048576;

// The longest text, and the longest table.
const MOST: usize = 65536;

const ROOM: usize = 8192;

// The text and the table: the first `words` words of its room.
#[derive(Drop)]
struct Host {
    text: Vec<u8>,
    room: Vec<u64>,
    words: usize,
}

// What is asked of a matrix.
#[derive(Clone, Copy)]
struct Entry {
    section: u64,
    kind: u64,
    row: u64,
    column: u64,
}

#[derive(Clone, Copy)]
enum Command<'a> {
    NoText,
    Text(&'a [u8]),
    Line,
    Table(usize),
    Intake(usize),
    Size(usize),
    Set,
    Sound,
    Entry(Entry),
    Walk(Place),
}

// ---- commands

fn is_blank(b: &u8) -> bool {
    *b == b' ' || *b == b'\t'
}

// A number of 64 bits; none for a word that is not all digits.
fn number_of(word: &[u8]) -> Option<u64> {
    if word.starts_with(b"+") {
        None
    } else {
        str::from_utf8(word).ok()?.parse::<u64>().ok()
    }
}

// The numbers after a command, as many as are asked for; none if there are more or fewer, or a word is no number.
fn numbers_of<const N: usize>(line: &[u8]) -> Option<[u64; N]> {
    let mut words = line.split(is_blank).filter(|w| !w.is_empty()).skip(1);
    let mut numbers = [0; N];
    for number in numbers.iter_mut() {
        *number = number_of(words.next()?)?;
    }
    match words.next() {
        None => Some(numbers),
        Some(_) => None,
    }
}

// A number of words that a table may have.
fn size_of(line: &[u8]) -> Option<usize> {
    let [words] = numbers_of::<1>(line)?;
    if words <= ROOM as u64 {
        Some(words as usize)
    } else {
        None
    }
}

// What a line asks for; none if it is malformed.
fn command_of(line: &[u8]) -> Option<Command<'_>> {
    let mut words = line.split(is_blank).filter(|w| !w.is_empty());
    match words.next()? {
        b"entry" => {
            let [section, kind, row, column] = numbers_of::<4>(line)?;
            Some(Command::Entry(Entry {
                section,
                kind,
                row,
                column,
            }))
        }
        b"walk" => {
            let [model, step, depth] = numbers_of::<3>(line)?;
            Some(Command::Walk(Place { model, step, depth }))
        }
        word if !line.starts_with(word) => None,
        b"text" => match words.next() {
            None => Some(Command::NoText),
            Some(file) => Some(Command::Text(file)),
        },
        b"line" => Some(Command::Line),
        b"table" => Some(Command::Table(size_of(line)?)),
        b"intake" => Some(Command::Intake(size_of(line)?)),
        b"size" => Some(Command::Size(size_of(line)?)),
        b"set" => Some(Command::Set),
        b"sound" if line.len() == 5 => Some(Command::Sound),
        _ => None,
    }
}

// ---- questions

// Prints a line as it is, after a label. What needs no formatting is written as it is, which takes less time.
fn print_line(rt: &impl Print, label: &str, line: &[u8]) {
    let _ = rt.write_all(label.as_bytes());
    let _ = rt.write_all(line);
    let _ = rt.write_all(b"\n");
}

fn print_entry(rt: &impl Print, answer: Result<u64, u64>) {
    let _ = match answer {
        Ok(word) => println!(rt; "entry {word}"),
        Err(rule) => println!(rt; "entry refused {rule}"),
    };
}

fn print_walked(rt: &impl Print, walked: Walked) {
    match walked {
        Walked::Step(step, next) => {
            let _ = print!(rt; "walk step {} {} {}", step.kind, step.target, step.amount);
            let _ = print!(rt; " {} {} {}", step.side, step.side_size, step.line);
            let _ = println!(rt; " next {} {} {}", next.model, next.step, next.depth);
        }
        Walked::Done(place) => {
            let _ = println!(rt; "walk done {} {} {}", place.model, place.step, place.depth);
        }
        Walked::Refused(rule) => {
            let _ = println!(rt; "walk refused {rule}");
        }
    }
}

// Not inlined: each command would pay for the room that the intake needs on the stack.
#[inline(never)]
fn print_intake(rt: &impl Print, text: &[u8], table: &mut [u64]) {
    let _ = match intake::intake(text, table) {
        intake::Answer::Accepted(words) => println!(rt; "intake accepted {words}"),
        intake::Answer::Refused(rule, line) => println!(rt; "intake refused {rule} {line}"),
    };
}

// ---- the text and the table

// Opens a file to read; none if its name is not UTF-8 or it cannot be opened.
fn open<R: Files>(rt: &R, name: &[u8]) -> Option<R::File> {
    File::open(rt, str::from_utf8(name).ok()?).ok()
}

// The first `most` bytes, or fewer if they end before or a read fails.
fn read_most<R: AllocGlobal>(rt: &R, from: impl Read + Drop, most: usize) -> io::Result<Vec<u8>> {
    let mut bytes = Vec::with_capacity(rt.alloc(), most)?;
    let _ = from.take(most as u64).read_to_end(&mut bytes);
    Ok(bytes)
}

// Reads the text from a file; it is empty if the file cannot be opened or is too long.
fn read_text<R: Files + Print + AllocGlobal>(
    rt: &R,
    text: &mut Vec<u8>,
    name: &[u8],
) -> io::Result<()> {
    text.clear();
    match open(rt, name) {
        Some(file) => {
            // One byte more than a text may have, so that a longer one is recognized.
            let bytes = read_most(rt, file, MOST + 1)?;
            if bytes.len() <= MOST {
                *text = bytes;
            } else {
                let _ = rt.write_all(b"text too long\n");
            }
        }
        None => {
            let _ = rt.write_all(b"text cannot be read\n");
        }
    }
    Ok(())
}

// Appends a line to the text if there is room for it: what stands behind `line` and a blank.
fn add_line(rt: &impl Print, text: &mut Vec<u8>, line: &[u8]) -> io::Result<()> {
    let rest = line.get(5..).unwrap_or(b"");
    if MOST < text.len() + rest.len() + 1 {
        let _ = rt.write_all(b"text too long\n");
        return Ok(());
    }
    text.extend_from_slice(rest)?;
    text.extend_from_slice(b"\n")?;
    Ok(())
}

// Stores numbers in the table from an index on; none if a word is no number or the index is past the table.
fn set_words(table: &mut [u64], line: &[u8]) -> Option<()> {
    let mut words = line.split(is_blank).filter(|w| !w.is_empty()).skip(1);
    let mut index = usize::try_from(number_of(words.next()?)?).ok()?;
    for word in words {
        let place = table.get_mut(index)?;
        *place = number_of(word)?;
        index += 1;
    }
    Some(())
}

fn run<R: Files + Print + AllocGlobal>(
    rt: &R,
    host: &mut Host,
    line: &[u8],
    command: Command<'_>,
) -> io::Result<()> {
    let words = host.words.min(host.room.len());
    match command {
        Command::NoText => host.text.clear(),
        Command::Text(file) => read_text(rt, &mut host.text, file)?,
        Command::Line => add_line(rt, &mut host.text, line)?,
        Command::Table(many) => {
            host.room.fill(0);
            host.words = many;
        }
        Command::Intake(many) => {
            host.room.fill(0);
            host.words = many;
            let size = many.min(host.room.len());
            print_intake(rt, &host.text, &mut host.room[..size]);
        }
        Command::Size(many) => host.words = many,
        Command::Set => {
            if set_words(&mut host.room[..words], line).is_none() {
                print_line(rt, "what ", line);
            }
        }
        Command::Sound => {
            let sound = ask_sound::is_sound(&host.text, &host.room[..words]);
            let _ = println!(rt; "sound {}", if sound { "yes" } else { "no" });
        }
        Command::Entry(e) => {
            let table = &host.room[..words];
            let answer = ask_entry::entry(&host.text, table, e.section, e.kind, e.row, e.column);
            print_entry(rt, answer);
        }
        Command::Walk(place) => print_walked(rt, place.step(&host.text, &host.room[..words])),
    }
    Ok(())
}

fn run_line<R: Files + Print + AllocGlobal>(
    rt: &R,
    host: &mut Host,
    line: &[u8],
) -> io::Result<()> {
    if line.starts_with(b"#") {
        print_line(rt, "", line);
    } else if let Some(command) = command_of(line) {
        run(rt, host, line, command)?;
    } else if !line.is_empty() {
        print_line(rt, "what ", line);
    }
    Ok(())
}

fn main(rt: HostRuntime) -> io::Result<()> {
    let alloc = rt.alloc();
    let mut host = Host {
        text: Vec::new(alloc),
        room: vec![in alloc; 0u64; ROOM]?,
        words: 0,
    };
    for line in read_most(&rt, rt.reader(), COMMANDS)?.split(|b| *b == b'\n') {
        run_line(&rt, &mut host, line)?;
    }
    Ok(())
}
