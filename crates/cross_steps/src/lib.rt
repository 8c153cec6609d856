// Rules 21 to 26 of one step, judged by the records of the table.
#![tactic(auto)]

ghost use Rattle.std.specs.Prelude.{◌≡◌, ◌+◌, ◌≤◌, ◌<◌};
ghost use Rattle.table_layout.specs.Layout.{steps, sections, matrices};
ghost use Rattle.table_record.specs.Records.{records_of, range};
ghost use Rattle.table_record.specs.Way.Standing.{count_of, Rooms};
ghost use Rattle.cross_steps.specs.Way.StepWords.{StepRooms, clashing, meeting, meets_above, first_target, differs_from, lesser_given, least_of, first_matrix, other_in, other_form, kind_broken, wrong_method, end_rule_at, section_rule_at, step_rule_at};
ghost use Rattle.cross_steps.specs.Way.Marks.{mark_of, is_marked, MarkedEnds, Below, Judged};

use table_layout::View;
use table_record::{MapRecord, MatrixRecord, SectionRecord, StepRecord};

// What the rules of a step need to know of its model: the model's type, the index of its first step, how many steps it has,
// the map of its first end (the number of maps if there is none), and the stamp in the marks of its ends.
#[derive(Clone, Copy)]
pub struct Owner {
    pub kind: u64,
    pub from: u64,
    pub many: u64,
    pub first: u64,
    pub stamp: u8,
}

// ---- 22: two ends on one map

// "Side lacking at either or the same".
fn clash(text: &[u8], other: StepRecord, own: StepRecord) -> bool
    ensures { result ≡ clashing text.now other own }
{
    if other.side_size == 0 {
        return true;
    }
    if own.side_size == 0 {
        return true;
    }
    let other_side = table_name::name_at(text, other.side, other.side_size);
    let own_side = table_name::name_at(text, own.side, own.side_size);
    lex_line::same_bytes(other_side, own_side)
}

// Whether the other step is an end on the same map, and the Sides clash.
fn meets(text: &[u8], other: StepRecord, own: StepRecord) -> bool
    ensures { result ≡ meeting text.now other own }
{
    if other.kind != table_layout::code::END {
        return false;
    }
    if other.target != own.target {
        return false;
    }
    clash(text, other, own)
}

// Whether one of `above` steps from step `from` on clashes with an end.
fn is_clashing(
    text: &[u8],
    table: &[u64],
    view: View,
    own: StepRecord,
    from: u64,
    above: u64,
) -> bool
    requires { Rooms table.now view × (from + above ≤ count_of view steps) }
    ensures { result ≡ meets_above text.now own (range from above (records_of table.now).steps) }
{
    for i in 0..above {
        let other = table_record::nth::<StepRecord>(table, view, from + i);
        if meets(text, other, own) {
            return true;
        }
    }
    false
}

// The mark of an end, made of its map and its Side.
fn mark_of(text: &[u8], own: StepRecord) -> usize
    ensures { result ≡ mark_of text.now own }
{
    let side = table_name::name_at(text, own.side, own.side_size);
    table_name::hash_of(own.target, side)
}

// Whether an end may clash with one that is marked. If not, it need not be compared with any.
fn is_marked(
    text: &[u8],
    marks: &[u8; table_name::MARKS],
    stamp: u8,
    own: StepRecord,
    mark: usize,
) -> bool
    requires { mark ≡ mark_of text.now own }
    ensures { result ≡ is_marked text.now marks.now stamp own }
{
    if own.side_size == 0 {
        return true;
    }
    let bare = table_name::hash_of(own.target, b"");
    if marks[bare] == stamp {
        return true;
    }
    marks[mark] == stamp
}

// The same as `is_clashing`, but compares ends only if the marks do not rule a clash out. Marks the end for the ends after it.
fn is_met(
    text: &[u8],
    table: &[u64],
    view: View,
    marks: &mut [u8; table_name::MARKS],
    owner: Owner,
    own: StepRecord,
    above: u64,
) -> bool
    requires { Rooms table.now view × Below text.now table.now view marks.old owner own above }
    ensures { (result ≡ meets_above text.now own (range owner.from above (records_of table.now).steps)) × MarkedEnds text.now marks.new owner.stamp (range owner.from (above + 1) (records_of table.now).steps) }
{
    let stamp = owner.stamp;
    let mark = mark_of(text, own);
    let marked = is_marked(text, marks, stamp, own, mark);
    marks[mark] = stamp;
    if !marked {
        return false;
    }
    is_clashing(text, table, view, own, owner.from, above)
}

// ---- 26: the pins of the path's first map

// The target of the first end among `count` steps from step `from` on; `none` if there is no end.
pub fn first_target(table: &[u64], view: View, none: u64, from: u64, count: u64) -> u64
    requires { Rooms table.now view × (from + count ≤ count_of view steps) }
    ensures { result ≡ first_target none (range from count (records_of table.now).steps) }
{
    for i in 0..count {
        let step = table_record::nth::<StepRecord>(table, view, from + i);
        if step.kind == table_layout::code::END {
            return step.target;
        }
    }
    none
}

// Whether a number of pins or conductors differs from the pins of the first map. If there is no such map, nothing differs.
fn differs(table: &[u64], view: View, first: u64, many: u64) -> bool
    requires { Rooms table.now view }
    ensures { result ≡ differs_from (records_of table.now) first many }
{
    let counts = view.counts;
    if counts[table_layout::MAPS] <= first {
        return false;
    }
    let map = table_record::nth::<MapRecord>(table, view, first);
    many != map.pins
}

// ---- 25: the forms of a section's matrices

// The lesser of two numbers, where 0 says that none is given.
fn lesser_given(a: u64, b: u64) -> u64
    ensures { result ≡ lesser_given a b }
{
    if a == 0 {
        return b;
    }
    if b == 0 {
        return a;
    }
    if b < a {
        return b;
    }
    a
}

// The least of "R L G C each matrix index plus 1 or 0".
fn least(section: SectionRecord) -> u64
    ensures { result ≡ least_of section }
{
    lesser_given(
        lesser_given(section.resistance, section.inductance),
        lesser_given(section.conductance, section.capacitance),
    )
}

// The index of the first matrix of a section. The matrices of a section follow each other, and those of the next
// section come after them. After the last section: the number of matrices.
fn first_matrix(table: &[u64], view: View, index: u64) -> u64
    requires { Rooms table.now view }
    ensures { result ≡ first_matrix (records_of table.now) index }
{
    let counts = view.counts;
    if counts[table_layout::SECTIONS] <= index {
        return counts[table_layout::MATRICES];
    }
    base::minus(
        least(table_record::nth::<SectionRecord>(table, view, index)),
        1,
    )
}

// Whether one of `count` matrices from matrix `from` on is not a Diagonal_matrix.
fn is_other_in(table: &[u64], view: View, from: u64, count: u64) -> bool
    requires { Rooms table.now view × (from + count ≤ count_of view matrices) }
    ensures { result ≡ other_in (range from count (records_of table.now).matrices) }
{
    for i in 0..count {
        let matrix = table_record::nth::<MatrixRecord>(table, view, from + i);
        if matrix.form != table_layout::code::DIAGONAL {
            return true;
        }
    }
    false
}

fn has_other_form(table: &[u64], view: View, index: u64) -> bool
    requires { StepRooms table.now view × (index < count_of view sections) }
    ensures { result ≡ other_form (records_of table.now) index }
{
    let first = first_matrix(table, view, index);
    let next = first_matrix(table, view, index + 1);
    is_other_in(table, view, first, next - first)
}

// Rule 25 looks only at SLM models.
fn is_kind_broken(table: &[u64], view: View, kind: u64, index: u64) -> bool
    requires { StepRooms table.now view × (index < count_of view sections) }
    ensures { result ≡ kind_broken (records_of table.now) kind index }
{
    if table_layout::code::MLM <= kind {
        return false;
    }
    has_other_form(table, view, index)
}

// ---- the rules

// "Mult with Distributed, Len with Lumped".
fn is_wrong_method(mult: bool, method: u64) -> bool
    ensures { result ≡ wrong_method mult method }
{
    if mult {
        return method == table_layout::code::DISTRIBUTED;
    }
    method == table_layout::code::LUMPED
}

// The rule that an end breaks, 0 for none. `above` is the number of steps before it in its model.
fn end_rule(
    text: &[u8],
    table: &[u64],
    view: View,
    marks: &mut [u8; table_name::MARKS],
    owner: Owner,
    own: StepRecord,
    above: u64,
) -> u64
    requires { Rooms table.now view × Below text.now table.now view marks.old owner own above }
    ensures { Judged text.now table.now marks.new owner above (end_rule_at text.now (records_of table.now) owner own above) result }
{
    let counts = view.counts;
    if counts[table_layout::MAPS] <= own.target {
        return base::refusal::NOMAP;
    }
    if is_met(text, table, view, marks, owner, own, above) {
        return base::refusal::SIDE;
    }
    let map = table_record::nth::<MapRecord>(table, view, own.target);
    if differs(table, view, owner.first, map.pins) {
        return base::refusal::COUNT;
    }
    0
}

fn section_rule(table: &[u64], view: View, owner: Owner, own: StepRecord, mult: bool) -> u64
    requires { StepRooms table.now view }
    ensures { result ≡ section_rule_at (records_of table.now) owner own mult }
{
    let counts = view.counts;
    if counts[table_layout::SECTIONS] <= own.target {
        return base::refusal::NOSECTION;
    }
    let section = table_record::nth::<SectionRecord>(table, view, own.target);
    if is_wrong_method(mult, section.method) {
        return base::refusal::METHOD;
    }
    if is_kind_broken(table, view, owner.kind, own.target) {
        return base::refusal::KIND;
    }
    if differs(table, view, owner.first, section.conductors) {
        return base::refusal::COUNT;
    }
    0
}

// The rule that a step breaks, 0 for none. Forks and endforks break none.
pub fn step_rule(
    text: &[u8],
    table: &[u64],
    view: View,
    marks: &mut [u8; table_name::MARKS],
    owner: Owner,
    own: StepRecord,
    above: u64,
    mult: bool,
) -> u64
    requires { StepRooms table.now view × Below text.now table.now view marks.old owner own above }
    ensures { Judged text.now table.now marks.new owner above (step_rule_at text.now (records_of table.now) owner own above mult) result }
{
    if own.kind == table_layout::code::END {
        return end_rule(text, table, view, marks, owner, own, above);
    }
    if own.kind == table_layout::code::SECTION {
        return section_rule(table, view, owner, own, mult);
    }
    0
}
