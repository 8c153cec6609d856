// Rules 19 and 27 of sections.
ghost use Rattle.std.specs.Prelude.{◌≡◌, ◌<◌, false, get_or};
ghost use Rattle.cross_rules.specs.Way.Findings.{section_findings};
ghost use Rattle.table_layout.specs.Layout.{sections, section_width};
ghost use Rattle.table_layout.specs.View.{view_of};
ghost use Rattle.table_record.specs.Records.{records_of};
ghost use Rattle.table_record.specs.Way.Standing.{base_of, count_of, Rooms};
ghost use Rattle.doc.specs.Document.{document_of};
ghost use Rattle.cross_rules.specs.Way.First.{first_in};
ghost use Rattle.cross_rules.specs.Way.HoldsText.{HoldsText};
ghost use Rattle.cross_rules.specs.Way.Repeated.{is_repeated};
ghost use Rattle.cross_names.specs.Way.Used.{Flags, slot_of, rule_of};

use cross_rules::Finding;
use table_layout::View;
use table_record::StepRecord;

// The flag after those of all sections: a step that is over no section sets it.
const NO_SECTION: usize = table_layout::bound::SECTIONS as usize;

const FLAGS: usize = NO_SECTION + 1;

// The flag that a step sets: that of its section, or NO_SECTION.
fn slot_of(step: StepRecord) -> usize
    ensures { result ≡ slot_of step }
{
    if step.kind != table_layout::code::SECTION {
        return NO_SECTION;
    }
    let target = step.target;
    if table_layout::bound::SECTIONS <= target {
        return NO_SECTION;
    }
    target as usize
}

// Which sections are the target of a step: a flag for each, and NO_SECTION.
fn used_sections(table: &[u64], view: View) -> [bool; FLAGS]
    requires { Rooms table.now view }
    ensures { Flags result (records_of table.now).steps }
{
    let count = view.counts[table_layout::STEPS];
    let mut used = [false; FLAGS];
    for i in 0..count {
        let slot = slot_of(table_record::nth::<StepRecord>(table, view, i));
        used[slot] = true;
    }
    used
}

// The rule that section `index` breaks, 0 for none.
fn section_rule(text: &[u8], table: &[u64], view: View, index: u64, used: [bool; FLAGS]) -> u64
    requires { Rooms table.now view × (index < count_of view sections) }
    ensures { result ≡ rule_of (is_repeated text.now table.now (base_of view sections) section_width index) (get_or used index false) }
{
    let bases = view.bases;
    if cross_rules::is_repeated_name(
        text,
        table,
        bases[table_layout::SECTIONS],
        table_layout::SECTION_WIDTH,
        index,
    ) {
        return base::refusal::TWICE;
    }
    let at = index as usize;
    if !used[at] {
        return base::refusal::UNUSED;
    }
    0
}

// The first section that breaks a rule.
pub fn section_finding(text: &[u8], table: &[u64], view: View) -> Finding
    requires { HoldsText text.now table.now × (Some view ≡ view_of table.now) }
    ensures { result ≡ first_in (section_findings (document_of text.now) 0 (document_of text.now).sections) }
{
    let used = used_sections(table, view);
    let count = view.counts[table_layout::SECTIONS];
    for i in 0..count {
        let rule = section_rule(text, table, view, i, used);
        if rule != 0 {
            return Finding {
                rule,
                line: cross_rules::nth_line(text, table_layout::SECTIONS, i),
            };
        }
    }
    Finding { rule: 0, line: 0 }
}
