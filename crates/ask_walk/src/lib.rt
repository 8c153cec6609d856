// The question "walk": one step from a place in a model's path. It answers with the step's words and the next place.
#![tactic(auto)]

ghost use Rattle.std.specs.Prelude.{◌≡◌, true, ◌+◌, ◌*◌, ◌^◌, ◌≤◌, ◌<◌, length, eqb};
ghost use Rattle.base.specs.If.{provided◌then◌else◌};
ghost use Rattle.table_layout.specs.Layout.{step_width};
ghost use Rattle.table_layout.specs.Bounds.{deepest, most_steps};
ghost use Rattle.table_record.specs.Records.{records_of};
ghost use Rattle.table_record.specs.Way.Standing.{kinds_from, Rooms};
ghost use Rattle.ask_sound.specs.Sound.{is_sound};
ghost use Rattle.ask_sound.specs.Way.Judged.{SoundRecords};
ghost use Rattle.ask_walk.specs.Walk.{walk_words, is_depth, is_place, next_of, walk_over, walk_on, walk_from, walk_answer};

use table_layout::View;
use table_record::{ModelRecord, StepRecord, Words};

// "A walk place is model, step, depth".
#[derive(Clone, Copy)]
pub struct Place {
    pub model: u64,
    pub step: u64,
    pub depth: u64,
}

// A step and the next place; or done, and the same place; or refused by a rule.
#[derive(Clone, Copy)]
pub enum Walked {
    Step(StepRecord, Place),
    Done(Place),
    Refused(u64),
}

// ---- one step

// The place after a step of this kind.
fn next_of(place: Place, kind: u64) -> Place
    requires { (place.step ≤ most_steps) × (place.depth ≤ deepest) }
    ensures { result ≡ next_of place kind }
{
    Place {
        model: place.model,
        step: place.step + 1,
        depth: ask_sound::depth_after(place.depth, kind),
    }
}

// Walks over a step.
fn walk_over(step: StepRecord, place: Place) -> Walked
    requires { (place.step ≤ most_steps) × (place.depth ≤ deepest) }
    ensures { walk_words result ≡ walk_over step place }
{
    let next = next_of(place, step.kind);
    Walked::Step(step, next)
}

// ---- places

// One more, if the two kinds are the same.
fn counted(n: u64, kind: u64, other: u64) -> u64
    requires { n < 2 ^ 63 }
    ensures { result ≡ (provided eqb kind other then n + 1 else n) }
{
    if kind == other {
        return n + 1;
    }
    n
}

// Whether the depth is opens less closes along `many` steps, whose records begin at word `from`.
fn is_depth(table: &[u64], from: usize, many: u64, depth: u64) -> bool
    requires { from + step_width * many ≤ length table.now }
    ensures { result ≡ is_depth depth (kinds_from table.now from many) }
{
    let mut opens = 0;
    let mut closes = 0;
    for i in 0..many {
        let step = StepRecord::at(table, from + table_layout::STEP_WIDTH * (i as usize));
        opens = counted(opens, step.kind, table_layout::code::FORK);
        closes = counted(closes, step.kind, table_layout::code::ENDFORK);
    }
    if opens < closes {
        return false;
    }
    depth == opens - closes
}

fn is_place(table: &[u64], view: View, place: Place) -> bool
    requires { Rooms table.now view × SoundRecords table.now }
    ensures { result ≡ is_place (records_of table.now) place }
{
    let bases = view.bases;
    let counts = view.counts;
    if counts[table_layout::MODELS] <= place.model {
        return false;
    }
    let model = table_record::nth::<ModelRecord>(table, view, place.model);
    if model.steps < place.step {
        return false;
    }
    let from = bases[table_layout::STEPS] + table_layout::STEP_WIDTH * (model.first as usize);
    is_depth(table, from, place.step, place.depth)
}

// ---- the whole

// One step from a place that is in range.
fn walk_on(table: &[u64], view: View, place: Place) -> Walked
    requires { Rooms table.now view × SoundRecords table.now × (is_place (records_of table.now) place ≡ true) }
    ensures { walk_words result ≡ walk_on (records_of table.now) place }
{
    let model = table_record::nth::<ModelRecord>(table, view, place.model);
    if place.step == model.steps {
        return Walked::Done(place);
    }
    let index = model.first + place.step;
    walk_over(table_record::nth::<StepRecord>(table, view, index), place)
}

// One step in a sound table, from any place.
fn walk_in(table: &[u64], view: View, place: Place) -> Walked
    requires { Rooms table.now view × SoundRecords table.now }
    ensures { walk_words result ≡ walk_from (records_of table.now) place }
{
    if !is_place(table, view, place) {
        return Walked::Refused(base::refusal::NOSUCH);
    }
    walk_on(table, view, place)
}

impl Place {
    // One step from this place. Every text and every table has an answer.
    pub fn step(self, text: &[u8], table: &[u64]) -> Walked
        ensures { walk_words result ≡ walk_answer text.now table.now self }
    {
        let Some(view) = ask_sound::sound_view(text, table) else {
            return Walked::Refused(base::refusal::TABLE);
        };
        walk_in(table, view, self)
    }

    // The same answer, for a caller that knows the table to be sound for the text and this place to be in range, as the
    // start of a model is, and each place that a step answers with. Neither is judged: if one does not hold, nothing is
    // promised, not even that only words of the table are read.
    pub fn step_unjudged(self, text: &[u8], table: &[u64]) -> Walked
        requires { (is_sound text.now table.now ≡ true) × (is_place (records_of table.now) self ≡ true) }
        ensures { walk_words result ≡ walk_answer text.now table.now self }
    {
        let view = ask_sound::view_unjudged(text, table);
        walk_on(table, view, self)
    }
}
