// The intake: a text and a lent table, accepted with the words used, or refused with the paper's number and line.
//
// How a text goes:
// 1. Its bytes are checked: rules 1 to 4 (`lex_line::check_bytes`).
// 2. Its lines are read in order, each once: rules 5 to 17. As a line is judged, its records are staged: the values at the
//    front of the table, the others each in the stage of its part (`read_family`, `read_sections`).
// 3. The room is checked: rule 18 (`store::store`).
// 4. The values move to their part, and the other parts are stored before them (`store_table`).
// 5. Rules 19 to 27 and 29 are judged over the whole file (`cross::cross_finding`).
// If a rule is broken, the text is refused and the table is zeroed.
#![tactic(auto)]

ghost use Rattle.std.specs.Prelude.{◌≡◌, ◌*◌, length, replicate};
ghost use Rattle.table_layout.specs.Layout.{map_width, pin_width, section_width, matrix_width};
ghost use Rattle.table_layout.specs.Bounds.{most_models, most_steps, most_maps, most_pins, most_sections, most_matrices};
ghost use Rattle.table_record.specs.Way.Stage.{staged_model_width, staged_step_width};
ghost use Rattle.doc.specs.Way.Staged.{ListsFrom, ModelsStaged, StepsStaged};
ghost use Rattle.doc.specs.Document.{document_of};
ghost use Rattle.intake.specs.Stored.{store_answer};
ghost use Rattle.cross_rules.specs.Rules.{cross_rule};
ghost use Rattle.cross_rules.specs.Way.HoldsText.{HoldsText};
ghost use Rattle.intake.specs.Verdict.{answer_words, crossed, after_storing, table_for, Conforms};

use doc::Cursor;
use lex_line::Checked;

pub mod cross;
pub mod store;

// Accepted with the words used, or refused by a rule at a line.
#[derive(Clone, Copy)]
pub enum Answer {
    Accepted(usize),
    Refused(u64, u64),
}

// Rules 19 to 27 and 29, for a text whose records the table holds.
fn judge(
    text: &[u8],
    table: &mut [u64],
    models: &[u64],
    steps: &[u64],
    list: Cursor,
    words: usize,
) -> Answer
    requires { HoldsText text.now table.old × ModelsStaged text.now models.now × StepsStaged text.now steps.now × ListsFrom text.now list }
    ensures { (answer_words result ≡ crossed words (cross_rule (document_of text.now))) × (table.new ≡ table_for text.now (length table.old) (answer_words result)) }
{
    let finding = cross::cross_finding(text, table, models, steps, list);
    if finding.rule != 0 {
        base::zero_all(table);
        return Answer::Refused(finding.rule, finding.line);
    }
    Answer::Accepted(words)
}

// Room to stage the records of each part, as many as a text may have. A function makes each array, so that no proof has to
// look at all its words.
const MODELS: usize = table_record::stage::MODEL_WIDTH * (table_layout::bound::MODELS as usize);

const STEPS: usize = table_record::stage::STEP_WIDTH * (table_layout::bound::STEPS as usize);

const MAPS: usize = table_layout::MAP_WIDTH * (table_layout::bound::MAPS as usize);

const PINS: usize = table_layout::PIN_WIDTH * (table_layout::bound::PINS as usize);

const SECTIONS: usize = table_layout::SECTION_WIDTH * (table_layout::bound::SECTIONS as usize);

const MATRICES: usize = table_layout::MATRIX_WIDTH * (table_layout::bound::MATRICES as usize);

fn model_room() -> [u64; MODELS]
    ensures { result ≡ replicate (staged_model_width * most_models) 0 }
{
    [0; MODELS]
}

fn step_room() -> [u64; STEPS]
    ensures { result ≡ replicate (staged_step_width * most_steps) 0 }
{
    [0; STEPS]
}

fn map_room() -> [u64; MAPS]
    ensures { result ≡ replicate (map_width * most_maps) 0 }
{
    [0; MAPS]
}

fn pin_room() -> [u64; PINS]
    ensures { result ≡ replicate (pin_width * most_pins) 0 }
{
    [0; PINS]
}

fn section_room() -> [u64; SECTIONS]
    ensures { result ≡ replicate (section_width * most_sections) 0 }
{
    [0; SECTIONS]
}

fn matrix_room() -> [u64; MATRICES]
    ensures { result ≡ replicate (matrix_width * most_matrices) 0 }
{
    [0; MATRICES]
}

// Rules 5 to 29, for a text that breaks none of rules 1 to 4.
fn take(text: &[u8], table: &mut [u64]) -> Answer
    ensures { (answer_words result ≡ after_storing text.now (store_answer text.now (length table.old))) × (table.new ≡ table_for text.now (length table.old) (answer_words result)) }
{
    let mut models = model_room();
    let mut steps = step_room();
    let mut maps = map_room();
    let mut pins = pin_room();
    let mut sections = section_room();
    let mut matrices = matrix_room();
    let read = store::read(
        text,
        table,
        &mut models,
        &mut steps,
        &mut maps,
        &mut pins,
        &mut sections,
        &mut matrices,
    );
    let reading = read.reading;
    let list = read.list;
    match store::store_text(
        text, table, reading, &models, &steps, &maps, &pins, &sections, &matrices,
    ) {
        store::StoreAnswer::Stored(words) => judge(text, table, &models, &steps, list, words),
        store::StoreAnswer::Refused(rule, line) => Answer::Refused(rule, line),
    }
}

// Any bytes and any table may be given. After a refusal the table is all zeros; otherwise it
// holds the records of the text, and zeros after them.
pub fn intake(text: &[u8], table: &mut [u64]) -> Answer
    ensures { Conforms text.now table.old result table.new }
{
    match lex_line::check_bytes(text) {
        Checked::Fine => take(text, table),
        Checked::Refused(rule, line) => {
            base::zero_all(table);
            Answer::Refused(rule, line)
        }
    }
}
