// Rules 19 to 27 and 29 over a whole text: the earliest finding among the lines of all kinds.
ghost use Rattle.std.specs.Prelude.{◌≡◌};
ghost use Rattle.doc.specs.Document.{document_of};
ghost use Rattle.doc.specs.Way.Staged.{ListsFrom, ModelsStaged, StepsStaged};
ghost use Rattle.cross_rules.specs.Rules.{earlier, cross_rule};
ghost use Rattle.cross_rules.specs.Way.HoldsText.{HoldsText};

use cross_rules::Finding;
use doc::Cursor;

// The earlier of two findings. One that breaks no rule never counts as the earlier.
fn earlier_of(a: Finding, b: Finding) -> Finding
    ensures { result ≡ earlier a b }
{
    if a.rule == 0 {
        return b;
    }
    if b.rule == 0 {
        return a;
    }
    if b.line < a.line {
        return b;
    }
    a
}

// The earliest finding in a text that the table holds. The model list is above all models and
// sections: if one of its lines breaks a rule, only a map above it can come earlier. The rules of
// models need the flags of a list that breaks no rule, and what is staged of models and steps. `start` is the place of the
// list.
pub fn cross_finding(
    text: &[u8],
    table: &[u64],
    models: &[u64],
    steps: &[u64],
    start: Cursor,
) -> Finding
    requires { HoldsText text.now table.now × ModelsStaged text.now models.now × StepsStaged text.now steps.now × ListsFrom text.now start }
    ensures { result ≡ cross_rule (document_of text.now) }
{
    let view = table_layout::view_of(table).unwrap();
    let counts = view.counts;
    let list = cross_names::list::list_finding(text, table, view, start);
    let maps = cross_names::maps::map_finding(text, table, view);
    if list.rule != 0 {
        let first = Finding {
            rule: list.rule,
            line: list.line,
        };
        return earlier_of(first, maps);
    }
    let listed = list.listed;
    let paths = cross_models::model_finding(text, table, view, steps, listed);
    let sgr = cross_models::sgr_finding(models, counts[table_layout::MODELS]);
    let sections = cross_names::sections::section_finding(text, table, view);
    earlier_of(paths, earlier_of(sgr, earlier_of(maps, sections)))
}
