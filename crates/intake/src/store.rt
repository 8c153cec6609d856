// Rules 5 to 18 over a text and a lent table. All lines are read once, and each record is staged as its line is judged. If
// the table has room for all records, they are stored in it.
ghost use Rattle.std.specs.Prelude.{◌≡◌, ◌≤◌, ◌<◌, length};
ghost use Rattle.line_place.specs.Place as place;
ghost use Rattle.line_keyword.specs.Way.Bounded.{NoneYet};
ghost use Rattle.line_keyword.specs.declared.Counts.{Counts};
ghost use Rattle.read_line.specs.Reading.{reading_of};
ghost use Rattle.read_line.specs.Way.Walk.{resume, Onward};
ghost use Rattle.read_line.specs.declared.Reading.TheVariants.{Read};
ghost use Rattle.doc.specs.Way.Staged.{ListsFrom, StagedText};
ghost use Rattle.read_sections.specs.Way.Sections.{SectionsStaged};
ghost use Rattle.store_table.specs.Way.Targets.{Roomy};
ghost use Rattle.intake.specs.Stored.{store_answer};
ghost use Rattle.intake.specs.Way.Stored.{table_after_storing};

use doc::Cursor;
use line_keyword::Counts;
use read_line::{Reading, Walk};

// The text is stored, with the words used; or the rule that it breaks, and its line.
#[derive(Clone, Copy)]
pub enum StoreAnswer {
    Stored(usize),
    Refused(u64, u64),
}

// The answer of the reading; and where the model list starts, if all lines are read.
#[derive(Clone, Copy)]
pub struct AllRead {
    pub reading: Reading,
    pub list: Cursor,
}

// Reads the lines behind the family, where it has ended. Before [End ICM Family] the text may not end.
fn read_rest(
    text: &[u8],
    walk: Walk,
    table: &mut [u64],
    sections: &mut [u64],
    matrices: &mut [u64],
) -> Reading
    requires { (walk.rule ≡ 0) × (resume text.now walk ≡ reading_of text.now) × Onward text.now walk.at walk.line walk.state
        × (walk.at < length text.now → walk.state.place ≡ place.after) × (walk.state.place ≤ place.after)
        × (walk.state.place ≡ place.after → NoneYet walk.state.counts) }
    ensures { (result ≡ reading_of text.now)
        × ((c : Counts) → result ≡ Read c → (walk.state.place ≡ place.after)
        × SectionsStaged text.now walk.line walk.at table.new sections.new matrices.new) }
{
    let state = walk.state;
    if state.place != line_place::AFTER {
        return read_line::at_end(state);
    }
    read_sections::read_sections(text, walk, table, sections, matrices)
}

// Reads all lines, first those of the header and the family and then the sections, and stages their records: the values at
// the front of the table, the others each in the stage of its part.
pub fn read(
    text: &[u8],
    table: &mut [u64],
    models: &mut [u64],
    steps: &mut [u64],
    maps: &mut [u64],
    pins: &mut [u64],
    sections: &mut [u64],
    matrices: &mut [u64],
) -> AllRead
    ensures { (result.reading ≡ reading_of text.now)
        × ((c : Counts) → result.reading ≡ Read c → ListsFrom text.now result.list
        × StagedText text.now table.new models.new steps.new maps.new pins.new sections.new matrices.new) }
{
    let family = read_family::read_family(text, models, steps, maps, pins);
    let list = family.list;
    let walk = family.walk;
    if walk.rule != 0 {
        return AllRead {
            reading: Reading::Refused(walk.rule, walk.line),
            list,
        };
    }
    AllRead {
        reading: read_rest(text, walk, table, sections, matrices),
        list,
    }
}

// A text that breaks none of rules 5 to 17: its records are stored if the table has room for them, rule 18.
fn store(
    text: &[u8],
    table: &mut [u64],
    counts: Counts,
    models: &[u64],
    steps: &[u64],
    maps: &[u64],
    pins: &[u64],
    sections: &[u64],
    matrices: &[u64],
) -> StoreAnswer
    requires { (reading_of text.now ≡ Read counts)
        × StagedText text.now table.old models.now steps.now maps.now pins.now sections.now matrices.now
        × Roomy models.now steps.now maps.now pins.now sections.now matrices.now }
    ensures { (result ≡ store_answer text.now (length table.old)) × (table.new ≡ table_after_storing text.now (length table.old) result) }
{
    let words = table_layout::words_needed(store_table::counts_of(counts));
    if table.len() < words {
        base::zero_all(table);
        return StoreAnswer::Refused(base::refusal::ROOM, 0);
    }
    store_table::store_staged(
        text, table, counts, models, steps, maps, pins, sections, matrices,
    );
    StoreAnswer::Stored(words)
}

// Rules 5 to 18, by the answer of the reading: either all records of the text are stored, or the table is zeroed.
pub fn store_text(
    text: &[u8],
    table: &mut [u64],
    reading: Reading,
    models: &[u64],
    steps: &[u64],
    maps: &[u64],
    pins: &[u64],
    sections: &[u64],
    matrices: &[u64],
) -> StoreAnswer
    requires { (reading ≡ reading_of text.now)
        × ((c : Counts) → reading ≡ Read c → StagedText text.now table.old models.now steps.now maps.now pins.now sections.now matrices.now)
        × Roomy models.now steps.now maps.now pins.now sections.now matrices.now }
    ensures { (result ≡ store_answer text.now (length table.old)) × (table.new ≡ table_after_storing text.now (length table.old) result) }
{
    match reading {
        Reading::Read(counts) => store(
            text, table, counts, models, steps, maps, pins, sections, matrices,
        ),
        Reading::Refused(rule, line) => {
            base::zero_all(table);
            StoreAnswer::Refused(rule, line)
        }
    }
}
