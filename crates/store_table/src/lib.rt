// Stores what is staged in the lent table: the values move to their part, and the other parts are put before them, each
// behind its count. A step gets its target, the map or the section that its name means.
#![tactic(auto)]

ghost use Rattle.std.specs.Prelude.{◌≡◌, [], ◌∷◌, ◌++◌, ◌+◌, ◌-◌, ◌*◌, ◌≤◌, ◌<◌, length, take, replicate};
ghost use Rattle.std.proofs.lemmas.List.Edits.{sets};
ghost use Rattle.table_layout.specs.Layout.{model_width, step_width, section_width, matrix_width, widths, needed};
ghost use Rattle.table_record.specs.Records.{step_words};
ghost use Rattle.table_record.specs.Way.Stage.{staged_from, staged_model_width, staged_step_width, staged_step_at, words_of};
ghost use Rattle.read_line.specs.Reading.{reading_of};
ghost use Rattle.read_line.specs.declared.Reading.TheVariants.{Read};
ghost use Rattle.doc.specs.Records.{table_of};
ghost use Rattle.doc.specs.Way.Holds.{counts_of};
ghost use Rattle.doc.specs.Way.Staged.{StagedText};
ghost use Rattle.store_table.specs.Way.Targets.{Inside, target_found, record_found, Roomy};
ghost use Rattle.store_table.specs.Way.Front.{part_words, step_stored, models_words, family_words, family_long, FamilyThere, sections_words, sections_long};

use line_keyword::Counts;
use table_record::stage::{StagedModel, StagedStep};
use table_record::{StepRecord, Words};

// What a step points at: an end at the first map of its name that stands behind it, a section at the first section of its
// name, wherever that stands.
fn target_of(
    text: &[u8],
    maps: &[u64],
    map_count: u64,
    sections: &[u64],
    section_count: u64,
    step: StagedStep,
) -> u64
    requires { Inside (record { maps = maps.now; map_count = map_count; sections = sections.now; section_count = section_count }) }
    ensures { result ≡ target_found text.now (record { maps = maps.entry.now; map_count = map_count; sections = sections.now; section_count = section_count }) step }
{
    let name = table_name::name_at(text, step.name, step.name_size);
    if step.kind == table_layout::code::END {
        return table_name::find_name(
            text,
            maps,
            0,
            table_layout::MAP_WIDTH,
            map_count,
            name,
            step.name as usize,
        );
    }
    if step.kind == table_layout::code::SECTION {
        return table_name::find_name(
            text,
            sections,
            0,
            table_layout::SECTION_WIDTH,
            section_count,
            name,
            0,
        );
    }
    0
}

// Stores the record of a step, with its target.
fn put_step(
    text: &[u8],
    maps: &[u64],
    map_count: u64,
    sections: &[u64],
    section_count: u64,
    step: StagedStep,
    table: &mut [u64],
    at: usize,
)
    requires { Inside (record { maps = maps.now; map_count = map_count; sections = sections.now; section_count = section_count }) × (at + step_width ≤ length table.old) }
    ensures { table.new ≡ sets table.old at (step_words (record_found text.now (record { maps = maps.entry.now; map_count = map_count; sections = sections.now; section_count = section_count }) step)) }
{
    let own = StepRecord {
        kind: step.kind,
        target: target_of(text, maps, map_count, sections, section_count, step),
        amount: step.amount,
        side: step.side,
        side_size: step.side_size,
        line: step.line,
    };
    own.put_at(table, at);
}

// Stores all steps, the first at word `at`.
fn put_steps(
    text: &[u8],
    maps: &[u64],
    map_count: u64,
    sections: &[u64],
    section_count: u64,
    steps: &[u64],
    count: u64,
    table: &mut [u64],
    at: usize,
)
    requires { Inside (record { maps = maps.now; map_count = map_count; sections = sections.now; section_count = section_count })
        × (staged_step_width * count ≤ length steps.now) × (at + step_width * count ≤ length table.old) }
    ensures { table.new ≡ sets table.old at (words_of (step_stored text.now (record { maps = maps.entry.now; map_count = map_count; sections = sections.now; section_count = section_count })) (staged_from (staged_step_at steps.now) staged_step_width 0 count)) }
{
    for i in 0..count {
        let index = i as usize;
        let step = StagedStep::at(steps, table_record::stage::STEP_WIDTH * index);
        put_step(
            text,
            maps,
            map_count,
            sections,
            section_count,
            step,
            table,
            at + table_layout::STEP_WIDTH * index,
        );
    }
}

fn put_count(table: &mut [u64], at: usize, count: u64)
    requires { at < length table.old }
    ensures { table.new ≡ sets table.old at (count ∷ []) }
{
    table[at] = count;
}

// Stores a part: its count, and behind it the words of so many staged records. Gives the word behind them.
fn put_part(table: &mut [u64], at: usize, width: usize, count: u64, stage: &[u64]) -> usize
    requires { (width * count ≤ length stage.now) × (at + 1 + width * count ≤ length table.old) }
    ensures { (result ≡ at + 1 + width * count) × (table.new ≡ sets table.old at (part_words width count stage.now)) }
{
    let words = width * (count as usize);
    let first = at + 1;
    put_count(table, at, count);
    base::put_words(table, first, &stage[..words]);
    first + words
}

// Stores all models from the first word on, behind their count, without the lines of their SGR. Gives the word behind them.
fn put_models(table: &mut [u64], count: u64, models: &[u64]) -> usize
    requires { (staged_model_width * count ≤ length models.now) × (1 + model_width * count ≤ length table.old) }
    ensures { (result ≡ 1 + model_width * count) × (table.new ≡ sets table.old 0 (models_words count models.now)) }
{
    put_count(table, 0, count);
    for i in 0..count {
        let index = i as usize;
        let staged = StagedModel::at(models, table_record::stage::MODEL_WIDTH * index);
        let model = staged.model;
        model.put_at(table, 1 + table_layout::MODEL_WIDTH * index);
    }
    1 + table_layout::MODEL_WIDTH * (count as usize)
}

// Stores models, steps, maps and pins from the first word on. Gives the word behind them.
fn put_family(
    text: &[u8],
    counts: Counts,
    models: &[u64],
    steps: &[u64],
    maps: &[u64],
    pins: &[u64],
    sections: &[u64],
    table: &mut [u64],
) -> usize
    requires { FamilyThere counts models.now steps.now maps.now pins.now sections.now × (family_long counts ≤ length table.old) }
    ensures { (result ≡ family_long counts)
        × (table.new ≡ sets table.old 0 (family_words text.now counts models.now steps.now maps.now pins.now sections.now)) }
{
    let steps_at = put_models(table, counts.models, models);
    put_count(table, steps_at, counts.steps);
    let first = steps_at + 1;
    put_steps(
        text,
        maps,
        counts.maps,
        sections,
        counts.sections,
        steps,
        counts.steps,
        table,
        first,
    );
    let maps_at = first + table_layout::STEP_WIDTH * (counts.steps as usize);
    let pins_at = put_part(table, maps_at, table_layout::MAP_WIDTH, counts.maps, maps);
    put_part(table, pins_at, table_layout::PIN_WIDTH, counts.pins, pins)
}

// Stores sections and matrices from word `at` on, and behind them the count of the values, which stand there already.
fn put_sections(counts: Counts, sections: &[u64], matrices: &[u64], table: &mut [u64], at: usize)
    requires { (section_width * counts.sections ≤ length sections.now) × (matrix_width * counts.matrices ≤ length matrices.now)
        × (at + sections_long counts ≤ length table.old) }
    ensures { table.new ≡ sets table.old at (sections_words counts sections.now matrices.now) }
{
    let matrices_at = put_part(
        table,
        at,
        table_layout::SECTION_WIDTH,
        counts.sections,
        sections,
    );
    let values_at = put_part(
        table,
        matrices_at,
        table_layout::MATRIX_WIDTH,
        counts.matrices,
        matrices,
    );
    put_count(table, values_at, counts.values);
}

// Moves the first words of the table up, the last word first, so that no word is overwritten before it is moved.
fn move_up(table: &mut [u64], count: usize, up: usize)
    requires { up + count ≤ length table.old }
    ensures { table.new ≡ sets table.old up (take count table.old) }
{
    for i in (0..count).rev() {
        table[up + i] = table[i];
    }
}

// Moves the first words, which are the staged values, up to their part. The words behind them become zero; those before
// them are whatever they are, since other parts are stored there.
fn lift(table: &mut [u64], count: usize, up: usize)
    requires { up + count ≤ length table.old }
    ensures { table.new ≡ take up table.old ++ (take count table.old ++ replicate (length table.old - (up + count)) 0) }
{
    move_up(table, count, up);
    base::zero_from(table, up + count);
}

// The counts of the forward reading in the order of the parts.
pub fn counts_of(counts: Counts) -> [u64; table_layout::PARTS]
    ensures { result ≡ counts_of counts }
{
    [
        counts.models,
        counts.steps,
        counts.maps,
        counts.pins,
        counts.sections,
        counts.matrices,
        counts.values,
    ]
}

// Stores all records of a text that reads to its end, in a table that has room for them. Behind them the table is zero.
pub fn store_staged(
    text: &[u8],
    table: &mut [u64],
    counts: Counts,
    models: &[u64],
    steps: &[u64],
    maps: &[u64],
    pins: &[u64],
    sections: &[u64],
    matrices: &[u64],
)
    requires { (reading_of text.now ≡ Read counts)
        × (needed widths (counts_of counts) ≤ length table.old)
        × StagedText text.now table.old models.now steps.now maps.now pins.now sections.now matrices.now
        × Roomy models.now steps.now maps.now pins.now sections.now matrices.now }
    ensures { table.new ≡ table_of text.now ++ replicate (length table.old - length (table_of text.now)) 0 }
{
    let staged = table_layout::VALUE_WIDTH * (counts.values as usize);
    let begin = table_layout::part_base(counts_of(counts), table_layout::VALUES);
    lift(table, staged, begin);
    let at = put_family(text, counts, models, steps, maps, pins, sections, table);
    put_sections(counts, sections, matrices, table, at);
}
