// Rules 19 and 20 of the model list.
ghost use Rattle.std.specs.Prelude.{◌≡◌, eqb};
ghost use Rattle.base.specs.If.{both};
ghost use Rattle.lex_keyword.specs.Names.{begin_icm_model};
ghost use Rattle.line_place.specs.Place.{is_in_family, list};
ghost use Rattle.doc.specs.Lines.{plain};
ghost use Rattle.doc.specs.Document.{document_of};
ghost use Rattle.doc.specs.Way.Found.{Located};
ghost use Rattle.doc.specs.Way.Staged.{ListsFrom};
ghost use Rattle.cross_rules.specs.Way.Findings.{list_findings};
ghost use Rattle.cross_rules.specs.Way.First.{first_in};
ghost use Rattle.cross_rules.specs.Way.HoldsText.{HoldsText};
ghost use Rattle.table_layout.specs.View.{view_of};
ghost use Rattle.table_record.specs.Way.Standing.{Rooms};
ghost use Rattle.cross_names.specs.Way.Listed.{Listed};
ghost use Rattle.cross_names.specs.Way.Judged.{model_found, name_judged, line_judged};

use doc::{Cursor, Found};
use table_layout::View;

// The flag after those of all models: a line that names no model sets it.
const NO_MODEL: usize = table_layout::bound::MODELS as usize;

pub const FLAGS: usize = NO_MODEL + 1;

// The first list line that breaks a rule; rule 0 if none does. Then `listed` says which models the list names: a flag
// for each model, and NO_MODEL.
#[derive(Clone, Copy)]
pub struct ListFinding {
    pub rule: u64,
    pub line: u64,
    pub listed: [bool; FLAGS],
}

// The rule that a line breaks, 0 for none, and the flag that it sets.
#[derive(Clone, Copy)]
pub struct Judged {
    pub rule: u64,
    pub slot: usize,
}

// Whether a line belongs to the model list.
fn is_list_line(place: u64, key: u64) -> bool
    ensures { result ≡ both (eqb place list) (eqb key plain) }
{
    if place != line_place::LIST {
        return false;
    }
    key == doc::PLAIN
}

// Whether a line opens a model. The list is above all models, so the search for list lines ends there.
fn opens_model(place: u64, key: u64) -> bool
    ensures { result ≡ both (is_in_family place) (eqb key begin_icm_model) }
{
    if !line_place::is_in_family(place) {
        return false;
    }
    key == lex_keyword::BEGIN_ICM_MODEL
}

// The index of the first model whose name is the first word of the line; the number of models if there is none.
fn model_found(text: &[u8], table: &[u64], view: View, line: Found) -> u64
    requires { Rooms table.now view × Located text.now line }
    ensures { result ≡ model_found text.now table.now view line }
{
    let bases = view.bases;
    let counts = view.counts;
    let at = line.at;
    let end = line.end;
    let mark = doc::first_extent(&text[at..end], at);
    let name = table_name::name_at(text, mark.start as u64, mark.size as u64);
    table_name::find_name(
        text,
        table,
        bases[table_layout::MODELS],
        table_layout::MODEL_WIDTH,
        counts[table_layout::MODELS],
        name,
        0,
    )
}

// Judges a name of the list by the model that it finds. If no list line above breaks a rule, a repeated name
// finds the flag of its model set.
fn judge_name(text: &[u8], table: &[u64], view: View, line: Found, listed: [bool; FLAGS]) -> Judged
    requires { Rooms table.now view × Located text.now line }
    ensures { result ≡ name_judged text.now table.now view line listed }
{
    let counts = view.counts;
    let index = model_found(text, table, view, line);
    if counts[table_layout::MODELS] <= index {
        return Judged {
            rule: base::refusal::LIST,
            slot: NO_MODEL,
        };
    }
    let slot = index as usize;
    if listed[slot] {
        return Judged {
            rule: base::refusal::TWICE,
            slot,
        };
    }
    Judged { rule: 0, slot }
}

fn judge_line(
    text: &[u8],
    table: &[u64],
    view: View,
    place: u64,
    line: Found,
    listed: [bool; FLAGS],
) -> Judged
    requires { Rooms table.now view × Located text.now line }
    ensures { result ≡ line_judged text.now table.now view place line listed }
{
    if !is_list_line(place, line.key) {
        return Judged {
            rule: 0,
            slot: NO_MODEL,
        };
    }
    judge_name(text, table, view, line, listed)
}

// Goes through the list lines from `start` on, up to the first that breaks a rule. Each line before it sets the flag of
// another model, so no more than FLAGS lines are judged.
pub fn list_finding(text: &[u8], table: &[u64], view: View, start: Cursor) -> ListFinding
    requires { HoldsText text.now table.now × (Some view ≡ view_of table.now) × ListsFrom text.now start }
    ensures { (record { rule = result.rule; line = result.line } ≡ first_in (list_findings (document_of text.now))) × (result.rule ≡ 0 → Listed (document_of text.now) result.listed) }
{
    let mut listed = [false; FLAGS];
    let mut cursor = start;
    loop {
        let line = doc::next_line(text, cursor.at, cursor.line);
        if !line.there {
            return ListFinding {
                rule: 0,
                line: 0,
                listed,
            };
        }
        if opens_model(cursor.place, line.key) {
            return ListFinding {
                rule: 0,
                line: 0,
                listed,
            };
        }
        let judged = judge_line(text, table, view, cursor.place, line, listed);
        if judged.rule != 0 {
            return ListFinding {
                rule: judged.rule,
                line: line.line,
                listed,
            };
        }
        let slot = judged.slot;
        listed[slot] = true;
        cursor = doc::past(text, cursor, line);
    }
}
