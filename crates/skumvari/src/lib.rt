// What hosts in other languages call. The crate `skumvari_c` exports each function under the same name, as declared in
// include/skumvari.h. Each writes its answer into lent words, in the layout of specs/Words.antt. If there are too few words
// it returns false and writes no answer.
#![tactic(auto)]

ghost use Rattle.std.specs.Prelude.{◌≡◌, true, [], ◌∷◌, length};
ghost use Rattle.ask_sound.specs.Sound.{is_sound};
ghost use Rattle.intake.specs.Verdict.{verdict_of, table_for};
ghost use Rattle.ask_entry.specs.Entry as entries;
ghost use Rattle.ask_walk.specs.Walk as walks;
ghost use Rattle.ask_entry.specs.WholeMatrix.{whole_words, matrix_answer, room_after};
ghost use Rattle.table_record.specs.Records.{records_of};
ghost use Rattle.out_text.specs.Written.{Written};
ghost use Rattle.out_listing.specs.Listing.{listing};
ghost use Rattle.out_double.specs.Double.{drawn_of, paired};
ghost use Rattle.skumvari.specs.Words.{intake_layout, entry_layout, walk_layout, matrix_layout, double_layout, pair_layout, step_layout, is_room, answered, table_after, values_after};
ghost use Rattle.skumvari.specs.Room.{most_words};

use ask_entry::WholeAnswer;
use ask_walk::{Place, Walked};
use table_record::StepRecord;

// How many words an answer of the intake or of a whole matrix has.
const ANSWER_WORDS: usize = 4;

// And how many that of a walk has.
const WALK_WORDS: usize = 13;

// ---- answers

// Writes the words of an answer if there is room for all of them.
fn put_answer(answer: &mut [u64], words: &[u64]) -> bool
    ensures room { result ≡ is_room (length words.now) answer.old }
    ensures written { answer.new ≡ answered words.now answer.old }
{
    if words.len() <= answer.len() {
        answer[..words.len()].copy_from_slice(words);
        true
    } else {
        false
    }
}

// The words of an answer of a walk.
fn walk_words(given: u64, rule: u64, done: u64, step: StepRecord, next: Place) -> [u64; WALK_WORDS]
    ensures { result ≡ given ∷ rule ∷ 0 ∷ done ∷ step_layout step next }
{
    [
        given,
        rule,
        0,
        done,
        step.kind,
        step.target,
        step.amount,
        step.side,
        step.side_size,
        step.line,
        next.model,
        next.step,
        next.depth,
    ]
}

fn say_entry(answer: &mut [u64], said: Result<u64, u64>) -> bool
    ensures value { result ≡ is_room 4 answer.old }
    ensures answer_after { answer.new ≡ answered (entry_layout (entries.entry_words said)) answer.old }
{
    match said {
        Ok(word) => put_answer(answer, &[1, 0, 0, word]),
        Err(rule) => put_answer(answer, &[0, rule, 0, 0]),
    }
}

fn say_walk(answer: &mut [u64], said: Walked) -> bool
    ensures value { result ≡ is_room 13 answer.old }
    ensures answer_after { answer.new ≡ answered (walk_layout (walks.walk_words said)) answer.old }
{
    match said {
        Walked::Step(words, next) => put_answer(answer, &walk_words(1, 0, 0, words, next)),
        Walked::Done(here) => {
            put_answer(answer, &walk_words(1, 0, 1, StepRecord::default(), here))
        },
        Walked::Refused(rule) => {
            let nowhere = Place {
                model: 0,
                step: 0,
                depth: 0,
            };
            put_answer(
                answer,
                &walk_words(0, rule, 0, StepRecord::default(), nowhere),
            )
        }
    }
}

fn say_matrix(answer: &mut [u64], said: WholeAnswer) -> bool
    ensures value { result ≡ is_room 4 answer.old }
    ensures answer_after { answer.new ≡ answered (matrix_layout (whole_words said)) answer.old }
{
    match said {
        WholeAnswer::Found(conductors) => put_answer(answer, &[1, 0, 0, conductors]),
        WholeAnswer::Short(conductors) => put_answer(answer, &[0, 0, 0, conductors]),
        WholeAnswer::Refused(rule) => put_answer(answer, &[0, rule, 0, 0]),
    }
}

// ---- what hosts call

// How many words a table needs to be long enough for every text.
pub fn skumvari_table_words() -> usize
    ensures { result ≡ most_words }
{
    table_layout::most_words()
}

// The intake of a text into a lent table. If there are too few words for the answer, the table is zeroed, as for a refusal.
pub fn skumvari_intake(text: &[u8], table: &mut [u64], answer: &mut [u64]) -> bool
    ensures value { result ≡ is_room 4 answer.old }
    ensures answer_after { answer.new ≡ answered (intake_layout (verdict_of text.now (length table.old))) answer.old }
    ensures table_after { table.new ≡ table_after answer.old (table_for text.now (length table.old) (verdict_of text.now (length table.old))) table.old }
{
    if answer.len() < ANSWER_WORDS {
        table.fill(0);
        return false;
    }
    match intake::intake(text, table) {
        intake::Answer::Accepted(used) => put_answer(answer, &[1, 0, 0, used as u64]),
        intake::Answer::Refused(rule, line) => put_answer(answer, &[0, rule, line, 0]),
    }
}

// Whether the table is sound for the text.
pub fn skumvari_sound(text: &[u8], table: &[u64]) -> bool
    ensures { result ≡ is_sound text.now table.now }
{
    ask_sound::is_sound(text, table)
}

// One entry of a section's matrix.
pub fn skumvari_entry(
    text: &[u8],
    table: &[u64],
    section: u64,
    kind: u64,
    row: u64,
    column: u64,
    answer: &mut [u64],
) -> bool
    ensures value { result ≡ is_room 4 answer.old }
    ensures answer_after { answer.new ≡ answered (entry_layout (entries.entry_answer text.now table.now section kind row column)) answer.old }
{
    let said = ask_entry::entry(text, table, section, kind, row, column);
    say_entry(answer, said)
}

// One step of a walk, from the place model, step, depth.
pub fn skumvari_walk(
    text: &[u8],
    table: &[u64],
    model: u64,
    step: u64,
    depth: u64,
    answer: &mut [u64],
) -> bool
    ensures value { result ≡ is_room 13 answer.old }
    ensures answer_after { answer.new ≡ answered (walk_layout (walks.walk_answer text.now table.now (record { model = model; step = step; depth = depth }))) answer.old }
{
    let place = Place { model, step, depth };
    let said = place.step(text, table);
    say_walk(answer, said)
}

// Every entry of a section's matrix, row by row, into lent values of N times N words. If there are fewer, they are left
// unchanged and the answer gives N.
pub fn skumvari_matrix(
    text: &[u8],
    table: &[u64],
    section: u64,
    kind: u64,
    values: &mut [u64],
    answer: &mut [u64],
) -> bool
    ensures value { result ≡ is_room 4 answer.old }
    ensures answer_after { answer.new ≡ answered (matrix_layout (matrix_answer text.now table.now section kind (length values.old))) answer.old }
    ensures values_after { values.new ≡ values_after answer.old (room_after table.now section kind (matrix_answer text.now table.now section kind (length values.old)) values.old) values.old }
{
    if answer.len() < ANSWER_WORDS {
        return false;
    }
    let said = ask_entry::whole_matrix(text, table, section, kind, values);
    say_matrix(answer, said)
}

// The double of a value word, as its 64 bits.
pub fn skumvari_double(word: u64, answer: &mut [u64]) -> bool
    ensures value { result ≡ is_room 4 answer.old }
    ensures answer_after { answer.new ≡ answered (double_layout (drawn_of word)) answer.old }
{
    match out_double::double_of(word) {
        Some(x) => put_answer(answer, &[1, 0, 0, x.to_bits()]),
        None => put_answer(answer, &[0, 0, 0, 0]),
    }
}

// The doubles of a frequency and a value, as their 64 bits each.
pub fn skumvari_pair(frequency: u64, value: u64, answer: &mut [u64]) -> bool
    ensures value { result ≡ is_room 5 answer.old }
    ensures answer_after { answer.new ≡ answered (pair_layout (paired (drawn_of frequency) (drawn_of value))) answer.old }
{
    match out_double::pair_of(frequency, value) {
        Some((x, y)) => put_answer(answer, &[1, 0, 0, x.to_bits(), y.to_bits()]),
        None => put_answer(answer, &[0, 0, 0, 0, 0]),
    }
}

// The listing of an accepted text: `words` is the words used that the intake answered with. As much as there is room
// for is written; the answer is how many bytes that are.
pub fn skumvari_list(text: &[u8], table: &[u64], words: usize, out: &mut [u8]) -> usize
    ensures { Written out.old out.new 0 result (listing text.now table.now words) }
{
    out_listing::write_listing(text, table, words, out)
}

// ---- the questions without judging: no entry points, but for a host that keeps a text and the table that the intake left
// for it together and unchanged. The table of every accepted text is sound (`accepted-sound`). If a table is not sound for
// its text nothing is promised of these functions, not even that only lent words are read.

// One entry of a section's matrix, in a table that is sound for the text.
pub fn skumvari_entry_unjudged(
    text: &[u8],
    table: &[u64],
    section: u64,
    kind: u64,
    row: u64,
    column: u64,
    answer: &mut [u64],
) -> bool
    requires { is_sound text.now table.now ≡ true }
    ensures value { result ≡ is_room 4 answer.old }
    ensures answer_after { answer.new ≡ answered (entry_layout (entries.entry_answer text.now table.now section kind row column)) answer.old }
{
    let said = ask_entry::entry_unjudged(text, table, section, kind, row, column);
    say_entry(answer, said)
}

// One step of a walk, in a table that is sound for the text and from a place in range: the start of a model, or a place
// that a step has answered with. It takes the same time at every step.
pub fn skumvari_walk_unjudged(
    text: &[u8],
    table: &[u64],
    model: u64,
    step: u64,
    depth: u64,
    answer: &mut [u64],
) -> bool
    requires { (is_sound text.now table.now ≡ true) × (walks.is_place (records_of table.now) (record { model = model; step = step; depth = depth }) ≡ true) }
    ensures value { result ≡ is_room 13 answer.old }
    ensures answer_after { answer.new ≡ answered (walk_layout (walks.walk_answer text.now table.now (record { model = model; step = step; depth = depth }))) answer.old }
{
    let place = Place { model, step, depth };
    let said = place.step_unjudged(text, table);
    say_walk(answer, said)
}

// Every entry of a section's matrix, in a table that is sound for the text.
pub fn skumvari_matrix_unjudged(
    text: &[u8],
    table: &[u64],
    section: u64,
    kind: u64,
    values: &mut [u64],
    answer: &mut [u64],
) -> bool
    requires { is_sound text.now table.now ≡ true }
    ensures value { result ≡ is_room 4 answer.old }
    ensures answer_after { answer.new ≡ answered (matrix_layout (matrix_answer text.now table.now section kind (length values.old))) answer.old }
    ensures values_after { values.new ≡ values_after answer.old (room_after table.now section kind (matrix_answer text.now table.now section kind (length values.old)) values.old) values.old }
{
    if answer.len() < ANSWER_WORDS {
        return false;
    }
    let said = ask_entry::whole_matrix_unjudged(text, table, section, kind, values);
    say_matrix(answer, said)
}
