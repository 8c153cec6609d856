// What hosts in other languages link: the functions of the crate `skumvari` under the names of include/skumvari.h, each with
// the promise that it has there. An archive exports only the functions of its own crate.
#![tactic(auto)]

ghost use Rattle.std.specs.Prelude.{◌≡◌, true, length};
ghost use Rattle.ask_sound.specs.Sound.{is_sound};
ghost use Rattle.intake.specs.Verdict.{verdict_of, table_for};
ghost use Rattle.ask_entry.specs.Entry as entries;
ghost use Rattle.ask_walk.specs.Walk as walks;
ghost use Rattle.ask_entry.specs.WholeMatrix.{matrix_answer, room_after};
ghost use Rattle.table_record.specs.Records.{records_of};
ghost use Rattle.out_text.specs.Written.{Written};
ghost use Rattle.out_listing.specs.Listing.{listing};
ghost use Rattle.out_double.specs.Double.{drawn_of, paired};
ghost use Rattle.skumvari.specs.Words.{intake_layout, entry_layout, walk_layout, matrix_layout, double_layout, pair_layout, is_room, answered, table_after, values_after};
ghost use Rattle.skumvari.specs.Room.{most_words};

// How many words a table needs to be long enough for every text.
#[unsafe(no_mangle)]
pub extern "C" fn skumvari_table_words() -> usize
    ensures { result ≡ most_words }
{
    skumvari::skumvari_table_words()
}

// The intake of a text into a lent table. If there are too few words for the answer, the table is zeroed, as for a refusal.
#[unsafe(no_mangle)]
pub extern "C" fn skumvari_intake(text: &[u8], table: &mut [u64], answer: &mut [u64]) -> bool
    ensures value { result ≡ is_room 4 answer.old }
    ensures answer_after { answer.new ≡ answered (intake_layout (verdict_of text.now (length table.old))) answer.old }
    ensures table_after { table.new ≡ table_after answer.old (table_for text.now (length table.old) (verdict_of text.now (length table.old))) table.old }
{
    skumvari::skumvari_intake(text, table, answer)
}

// Whether the table is sound for the text.
#[unsafe(no_mangle)]
pub extern "C" fn skumvari_sound(text: &[u8], table: &[u64]) -> bool
    ensures { result ≡ is_sound text.now table.now }
{
    skumvari::skumvari_sound(text, table)
}

// One entry of a section's matrix.
#[unsafe(no_mangle)]
pub extern "C" fn skumvari_entry(
    text: &[u8],
    table: &[u64],
    section: u64,
    kind: u64,
    row: u64,
    column: u64,
    answer: &mut [u64],
) -> bool
    ensures value { result ≡ is_room 4 answer.old }
    ensures answer_after { answer.new ≡ answered (entry_layout (entries.entry_answer text.now table.now section kind row column)) answer.old }
{
    skumvari::skumvari_entry(text, table, section, kind, row, column, answer)
}

// One step of a walk, from the place model, step, depth.
#[unsafe(no_mangle)]
pub extern "C" fn skumvari_walk(
    text: &[u8],
    table: &[u64],
    model: u64,
    step: u64,
    depth: u64,
    answer: &mut [u64],
) -> bool
    ensures value { result ≡ is_room 13 answer.old }
    ensures answer_after { answer.new ≡ answered (walk_layout (walks.walk_answer text.now table.now (record { model = model; step = step; depth = depth }))) answer.old }
{
    skumvari::skumvari_walk(text, table, model, step, depth, answer)
}

// Every entry of a section's matrix, row by row, into lent values of N times N words. If there are fewer, they are left
// unchanged and the answer gives N.
#[unsafe(no_mangle)]
pub extern "C" fn skumvari_matrix(
    text: &[u8],
    table: &[u64],
    section: u64,
    kind: u64,
    values: &mut [u64],
    answer: &mut [u64],
) -> bool
    ensures value { result ≡ is_room 4 answer.old }
    ensures answer_after { answer.new ≡ answered (matrix_layout (matrix_answer text.now table.now section kind (length values.old))) answer.old }
    ensures values_after { values.new ≡ values_after answer.old (room_after table.now section kind (matrix_answer text.now table.now section kind (length values.old)) values.old) values.old }
{
    skumvari::skumvari_matrix(text, table, section, kind, values, answer)
}

// The double of a value word, as its 64 bits.
#[unsafe(no_mangle)]
pub extern "C" fn skumvari_double(word: u64, answer: &mut [u64]) -> bool
    ensures value { result ≡ is_room 4 answer.old }
    ensures answer_after { answer.new ≡ answered (double_layout (drawn_of word)) answer.old }
{
    skumvari::skumvari_double(word, answer)
}

// The doubles of a frequency and a value, as their 64 bits each.
#[unsafe(no_mangle)]
pub extern "C" fn skumvari_pair(frequency: u64, value: u64, answer: &mut [u64]) -> bool
    ensures value { result ≡ is_room 5 answer.old }
    ensures answer_after { answer.new ≡ answered (pair_layout (paired (drawn_of frequency) (drawn_of value))) answer.old }
{
    skumvari::skumvari_pair(frequency, value, answer)
}

// The listing of an accepted text: `words` is the words used that the intake answered with. As much as there is room
// for is written; the answer is how many bytes that are.
#[unsafe(no_mangle)]
pub extern "C" fn skumvari_list(text: &[u8], table: &[u64], words: usize, out: &mut [u8]) -> usize
    ensures { Written out.old out.new 0 result (listing text.now table.now words) }
{
    skumvari::skumvari_list(text, table, words, out)
}

// ---- the questions without judging: no entry points. `skumvari` says which hosts may ask them; from others nothing is
// promised, not even that only lent words are read.

// One entry of a section's matrix, in a table that is sound for the text.
#[unsafe(no_mangle)]
pub extern "C" fn skumvari_entry_unjudged(
    text: &[u8],
    table: &[u64],
    section: u64,
    kind: u64,
    row: u64,
    column: u64,
    answer: &mut [u64],
) -> bool
    requires { is_sound text.now table.now ≡ true }
    ensures value { result ≡ is_room 4 answer.old }
    ensures answer_after { answer.new ≡ answered (entry_layout (entries.entry_answer text.now table.now section kind row column)) answer.old }
{
    skumvari::skumvari_entry_unjudged(text, table, section, kind, row, column, answer)
}

// One step of a walk, in a table that is sound for the text and from a place in range: the start of a model, or a place
// that a step has answered with. It takes the same time at every step.
#[unsafe(no_mangle)]
pub extern "C" fn skumvari_walk_unjudged(
    text: &[u8],
    table: &[u64],
    model: u64,
    step: u64,
    depth: u64,
    answer: &mut [u64],
) -> bool
    requires { (is_sound text.now table.now ≡ true) × (walks.is_place (records_of table.now) (record { model = model; step = step; depth = depth }) ≡ true) }
    ensures value { result ≡ is_room 13 answer.old }
    ensures answer_after { answer.new ≡ answered (walk_layout (walks.walk_answer text.now table.now (record { model = model; step = step; depth = depth }))) answer.old }
{
    skumvari::skumvari_walk_unjudged(text, table, model, step, depth, answer)
}

// Every entry of a section's matrix, in a table that is sound for the text.
#[unsafe(no_mangle)]
pub extern "C" fn skumvari_matrix_unjudged(
    text: &[u8],
    table: &[u64],
    section: u64,
    kind: u64,
    values: &mut [u64],
    answer: &mut [u64],
) -> bool
    requires { is_sound text.now table.now ≡ true }
    ensures value { result ≡ is_room 4 answer.old }
    ensures answer_after { answer.new ≡ answered (matrix_layout (matrix_answer text.now table.now section kind (length values.old))) answer.old }
    ensures values_after { values.new ≡ values_after answer.old (room_after table.now section kind (matrix_answer text.now table.now section kind (length values.old)) values.old) values.old }
{
    skumvari::skumvari_matrix_unjudged(text, table, section, kind, values, answer)
}
