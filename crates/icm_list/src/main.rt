// Reads an ICM file from standard input and prints its listing, or the rule that it breaks and the line.
// Run as: icm_list < FILE
#![tactic(auto)]

use intake::Answer;

// The longest file that the program takes, in bytes.
const MOST: usize = 65536;

// Room for a text, with one byte more so that a longer one is recognized; for the table, which starts as zeros; and for
// the listing: that of a table of 8,192 words is shorter than 500,000 bytes. Functions return the rooms so that no
// proof has to look at all their words.
fn text_room() -> [u8; 65537] {
    [0u8; 65537]
}

fn table_room() -> [u64; 8192] {
    [0u64; 8192]
}

fn listing_room() -> [u8; 524288] {
    [0u8; 524288]
}

// Prints the first `length` bytes of the room, or all of it if it is shorter.
fn print_room(room: &[u8], length: usize) {
    io::write_all(1, &room[..length.min(room.len())]);
}

fn print_listing(text: &[u8], table: &[u64], words: usize) {
    let mut room = listing_room();
    let length = out_listing::write_listing(text, table, words, &mut room);
    print_room(&room, length);
}

fn print_refusal(rule: u64, line: u64) {
    let mut room = [0u8; 64];
    let length = out_listing::write_refusal(rule, line, &mut room);
    print_room(&room, length);
}

fn list(text: &[u8]) {
    let mut table = table_room();
    match intake::intake(text, &mut table) {
        Answer::Accepted(words) => print_listing(text, &table, words),
        Answer::Refused(rule, line) => print_refusal(rule, line),
    }
}

fn main() {
    let mut text = text_room();
    let count = io::read_full(0, &mut text);
    if MOST < count {
        io::write_all(1, b"toolong\n");
    } else {
        list(&text[..count]);
    }
}
