// Rules 19 to 26 of models and their steps, and 29 of their SGR lines.
#![tactic(auto)]

ghost use Rattle.std.specs.Prelude.{◌≡◌, ◌+◌, ◌*◌, ◌≤◌, ◌<◌, length};
ghost use Rattle.table_layout.specs.Layout.{models};
ghost use Rattle.table_layout.specs.View.{view_of};
ghost use Rattle.table_record.specs.Records.{records_of};
ghost use Rattle.table_record.specs.Way.Standing.{count_of, Rooms};
ghost use Rattle.table_record.specs.Way.Stage.{staged_from, staged_model_width, staged_model_at, staged_step_width};
ghost use Rattle.table_name.specs.Way.Hash.{marks_many};
ghost use Rattle.doc.specs.Document.{document_of};
ghost use Rattle.doc.specs.Way.Staged.{StepsStaged};
ghost use Rattle.cross_rules.specs.Way.Findings.{model_findings};
ghost use Rattle.cross_rules.specs.Way.First.{first_in};
ghost use Rattle.cross_rules.specs.Way.HoldsText.{HoldsText};
ghost use Rattle.cross_names.specs.Way.Listed.{Listed};
ghost use Rattle.cross_models.specs.Way.Models.{ModelRoom, mult_at, owner_at, model_rule_at, StepsTold, is_wrong_sgr, first_sgr};

use cross_rules::Finding;
use cross_steps::Owner;
use table_layout::View;
use table_record::stage::{StagedModel, StagedStep};
use table_record::{ModelRecord, StepRecord, Words};

// A mark that is the number of no model.
const UNMARKED: u8 = table_layout::bound::MODELS as u8;

// Whether the amount of the step at an index is a Mult: no word of the table tells it, the staged step does.
fn is_mult(steps: &[u64], index: u64) -> bool
    requires { staged_step_width * index + staged_step_width ≤ length steps.now }
    ensures { result ≡ mult_at steps.now index }
{
    let step = StagedStep::at(steps, table_record::stage::STEP_WIDTH * (index as usize));
    step.mult == 1
}

// ---- one model

// A model by its line: 20 is asked of the first model of a name alone, whose flag the list raises.
fn model_rule(
    text: &[u8],
    table: &[u64],
    view: View,
    listed: [bool; cross_names::list::FLAGS],
    index: u64,
) -> u64
    requires { Rooms table.now view × (index < count_of view models) }
    ensures { result ≡ model_rule_at text.now table.now view listed index }
{
    let bases = view.bases;
    if cross_rules::is_repeated_name(
        text,
        table,
        bases[table_layout::MODELS],
        table_layout::MODEL_WIDTH,
        index,
    ) {
        return base::refusal::TWICE;
    }
    let flag = index as usize;
    if !listed[flag] {
        return base::refusal::LIST;
    }
    0
}

// What a model says for its steps.
fn owner_of(table: &[u64], view: View, index: u64) -> Owner
    requires { ModelRoom table.now view index }
    ensures { result ≡ owner_at (records_of table.now) index }
{
    let counts = view.counts;
    let model = table_record::nth::<ModelRecord>(table, view, index);
    let maps = counts[table_layout::MAPS];
    Owner {
        kind: model.kind,
        from: model.first,
        many: model.steps,
        first: cross_steps::first_target(table, view, maps, model.first, model.steps),
        stamp: index as u8,
    }
}

// The first step of a model that breaks a rule.
fn steps_finding(
    text: &[u8],
    table: &[u64],
    view: View,
    steps: &[u64],
    marks: &mut [u8; table_name::MARKS],
    index: u64,
) -> Finding
    requires { HoldsText text.now table.now × (Some view ≡ view_of table.now) × StepsStaged text.now steps.now × (index < length (document_of text.now).models) × (length marks.old ≡ marks_many) }
    ensures { StepsTold text.now index result × (result.rule ≡ 0 → length marks.new ≡ marks_many) }
{
    let owner = owner_of(table, view, index);
    let count = owner.many;
    for i in 0..count {
        let here = owner.from + i;
        let own = table_record::nth::<StepRecord>(table, view, here);
        let mult = is_mult(steps, here);
        let rule = cross_steps::step_rule(text, table, view, marks, owner, own, i, mult);
        if rule != 0 {
            return Finding {
                rule,
                line: own.line,
            };
        }
    }
    Finding { rule: 0, line: 0 }
}

// ---- all models

// The first line of a model or of one of its steps that breaks a rule. The list breaks none, and `listed` says which models
// it names.
pub fn model_finding(
    text: &[u8],
    table: &[u64],
    view: View,
    steps: &[u64],
    listed: [bool; cross_names::list::FLAGS],
) -> Finding
    requires { HoldsText text.now table.now × (Some view ≡ view_of table.now) × StepsStaged text.now steps.now × Listed (document_of text.now) listed }
    ensures { result ≡ first_in (model_findings (document_of text.now) (document_of text.now).models) }
{
    let count = view.counts[table_layout::MODELS];
    let mut marks = [UNMARKED; table_name::MARKS];
    for i in 0..count {
        let rule = model_rule(text, table, view, listed, i);
        if rule != 0 {
            return Finding {
                rule,
                line: cross_rules::nth_line(text, table_layout::MODELS, i),
            };
        }
        let found = steps_finding(text, table, view, steps, &mut marks, i);
        if found.rule != 0 {
            return found;
        }
    }
    Finding { rule: 0, line: 0 }
}

// ---- the SGR lines of models

// Whether a model has SGR and is not SLM_general.
fn is_wrong_sgr(staged: StagedModel) -> bool
    ensures { result ≡ is_wrong_sgr staged }
{
    if staged.sgr == 0 {
        return false;
    }
    let model = staged.model;
    model.kind != table_layout::code::SLM_GENERAL
}

// The first SGR line that a model has and should not have. The lines are staged with the models.
pub fn sgr_finding(models: &[u64], count: u64) -> Finding
    requires { staged_model_width * count ≤ length models.now }
    ensures { result ≡ first_sgr (staged_from (staged_model_at models.now) staged_model_width 0 count) }
{
    for i in 0..count {
        let from = table_record::stage::MODEL_WIDTH * (i as usize);
        let staged = StagedModel::at(models, from);
        if is_wrong_sgr(staged) {
            return Finding {
                rule: base::refusal::SGR,
                line: staged.sgr,
            };
        }
    }
    Finding { rule: 0, line: 0 }
}
