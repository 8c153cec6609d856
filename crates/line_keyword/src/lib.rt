// Keyword lines: what each keyword closes and opens, the rules it may break, and what is remembered after it.
#![tactic(auto)]

ghost use Rattle.std.specs.Prelude.{◌≡◌, true, false, ◌^◌, ◌<◌};
ghost use Rattle.line_keyword.specs.Keywords.{is_once, is_seen, has_no_kind, kinds_lack, header_lacks, family_lacks, is_lacking, is_too_late, is_unclosed, is_repeated, is_misplaced, is_fork_open, is_wrong_in_matrix, is_matrix_broken, is_shape_broken, closes_too_wide, is_full, is_past_bound, seen_after, head_after, path_after, map_after, conductors_after, section_after, matrix_after, one_more_if, counts_after, keyword_next};
ghost use Rattle.line_keyword.specs.Way.Row.{matrix_keyword_rule, matrix_keyword_next};
ghost use Rattle.lex_number.specs.Integer.{whole_of};
ghost use Rattle.line_place.specs.Place.{is_row_or_bandwidth};
ghost use Rattle.line_argument.specs.Argument.{is_out_of_bounds};
ghost use Rattle.line_keyword.specs.Way.Bounded.{Countable};
ghost use Rattle.line_map.specs.Way.Bounded.{BoundedMap};
ghost use Rattle.line_keyword.specs.State.{start_state};
ghost use Rattle.line_keyword.specs.Way.Rule.{keyword_rule};

use line_head::Head;
use line_map::Map;
use line_matrix::Matrix;
use line_path::Path;

// How many records of each part have been read.
#[derive(Clone, Copy)]
pub struct Counts {
    pub models: u64,
    pub steps: u64,
    pub maps: u64,
    pub pins: u64,
    pub sections: u64,
    pub matrices: u64,
    pub values: u64,
}

// The open section: its method, and its conductors, 0 until its first matrix is closed.
#[derive(Clone, Copy)]
pub struct Section {
    pub method: u64,
    pub conductors: u64,
}

// What the forward reading remembers between lines. It contains no line number and no offset.
#[derive(Clone, Copy)]
pub struct State {
    pub place: u64,
    pub seen: [bool; 40],
    pub head: Head,
    pub path: Path,
    pub map: Map,
    pub section: Section,
    pub matrix: Matrix,
    pub counts: Counts,
}

// Whether a keyword has been read already, in the open model or section if it belongs to one.
fn is_seen(key: u64, s: State) -> bool
    ensures { result ≡ is_seen key s }
{
    if 40 <= key {
        return false;
    }
    let at = key as usize;
    let seen = s.seen;
    seen[at]
}

// The keywords that may appear once in the file, in a model or in a section.
fn is_once(key: u64) -> bool
    ensures { result ≡ is_once key }
{
    if line_place::stands_in_header(key) {
        return true;
    }
    if line_place::opens_header_text(key) {
        return true;
    }
    if line_place::opens_matrix(key) {
        return true;
    }
    if key == lex_keyword::MANUFACTURER {
        return true;
    }
    if key == lex_keyword::ICM_MODEL_LIST {
        return true;
    }
    if key == lex_keyword::ICM_FAMILY_DESCRIPTION {
        return true;
    }
    if key == lex_keyword::TREE_PATH_DESCRIPTION {
        return true;
    }
    key == lex_keyword::ICM_MODEL_DESCRIPTION
}

// No matrix of any kind has been read in the section.
fn has_no_kind(s: State) -> bool
    ensures { result ≡ has_no_kind s }
{
    if is_seen(lex_keyword::RESISTANCE_MATRIX, s) {
        return false;
    }
    if is_seen(lex_keyword::INDUCTANCE_MATRIX, s) {
        return false;
    }
    if is_seen(lex_keyword::CONDUCTANCE_MATRIX, s) {
        return false;
    }
    !is_seen(lex_keyword::CAPACITANCE_MATRIX, s)
}

// Whether a section that closes has no matrix, or is Distributed and has no L or no C.
fn kinds_lack(s: State) -> bool
    ensures { result ≡ kinds_lack s }
{
    if has_no_kind(s) {
        return true;
    }
    let section = s.section;
    if section.method != table_layout::code::DISTRIBUTED {
        return false;
    }
    if !is_seen(lex_keyword::INDUCTANCE_MATRIX, s) {
        return true;
    }
    !is_seen(lex_keyword::CAPACITANCE_MATRIX, s)
}

fn header_lacks(s: State) -> bool
    ensures { result ≡ header_lacks s }
{
    if !is_seen(lex_keyword::FILE_NAME, s) {
        return true;
    }
    !is_seen(lex_keyword::FILE_REV, s)
}

fn family_lacks(s: State) -> bool
    ensures { result ≡ family_lacks s }
{
    if !is_seen(lex_keyword::MANUFACTURER, s) {
        return true;
    }
    let counts = s.counts;
    counts.models == 0
}

// Whether something is missing that must come before this keyword.
fn is_lacking(key: u64, s: State) -> bool
    ensures { result ≡ is_lacking key s }
{
    if key == lex_keyword::END_HEADER {
        return header_lacks(s);
    }
    if key == lex_keyword::BEGIN_ICM_MODEL {
        return !is_seen(lex_keyword::ICM_MODEL_LIST, s);
    }
    if key == lex_keyword::END_ICM_FAMILY {
        return family_lacks(s);
    }
    if key == lex_keyword::END_ICM_MODEL {
        return !is_seen(lex_keyword::TREE_PATH_DESCRIPTION, s);
    }
    if key == lex_keyword::END_ICM_SECTION {
        return kinds_lack(s);
    }
    if key == lex_keyword::THE_END {
        let counts = s.counts;
        return counts.sections == 0;
    }
    false
}

// Whether the model list has been read, which must come after this keyword.
fn is_too_late(key: u64, s: State) -> bool
    ensures { result ≡ is_too_late key s }
{
    if key == lex_keyword::MANUFACTURER {
        return is_seen(lex_keyword::ICM_MODEL_LIST, s);
    }
    if key == lex_keyword::ICM_FAMILY_DESCRIPTION {
        return is_seen(lex_keyword::ICM_MODEL_LIST, s);
    }
    false
}

// Whether what the keyword closes is incomplete: the head of a model, a path or a pin map.
fn is_unclosed(s: State) -> bool
    ensures { result ≡ is_unclosed s }
{
    if s.place == line_place::HEAD {
        let head = s.head;
        return line_head::head_lacks(head);
    }
    if s.place == line_place::PATH {
        let path = s.path;
        return line_path::path_lacks(path);
    }
    if s.place == line_place::MAP_HEAD {
        return true;
    }
    if s.place == line_place::PIN_LIST {
        let map = s.map;
        return line_map::pins_lack(map);
    }
    false
}

// Whether a keyword that may appear once has been read already.
fn is_repeated(key: u64, s: State) -> bool
    ensures { result ≡ is_repeated key s }
{
    if !is_once(key) {
        return false;
    }
    is_seen(key, s)
}

// Rule 9: misplaced, repeated, or a required part missing when its block closes.
fn is_misplaced(key: u64, s: State) -> bool
    ensures { result ≡ is_misplaced key s }
{
    if line_place::moved(s.place, key) == line_place::DEAD {
        return true;
    }
    if is_unclosed(s) {
        return true;
    }
    if is_repeated(key, s) {
        return true;
    }
    if is_lacking(key, s) {
        return true;
    }
    is_too_late(key, s)
}

// Rule 15: a path that closes while a fork is open.
fn is_fork_open(s: State) -> bool
    ensures { result ≡ is_fork_open s }
{
    if s.place != line_place::PATH {
        return false;
    }
    let path = s.path;
    line_path::path_open(path)
}

// Whether a [Row] of this value, or a [Bandwidth], is out of order in a matrix.
fn is_wrong_in_matrix(key: u64, given: Option<u64>, m: Matrix) -> bool
    ensures { result ≡ is_wrong_in_matrix key given m }
{
    if key == lex_keyword::ROW {
        given.is_some_and(|row| line_matrix::is_wrong_row(row, m))
    } else {
        line_matrix::is_wrong_bandwidth(m)
    }
}

// The same, with the value read from the argument.
fn is_wrong_by(key: u64, argument: &[u8], m: Matrix) -> bool
    ensures { result ≡ is_wrong_in_matrix key (whole_of argument.now) m }
{
    let given = lex_number::read_integer(argument);
    is_wrong_in_matrix(key, given, m)
}

// Rule 16 for a keyword in a matrix: [Row] and [Bandwidth] are judged by their order, any other keyword by the shape of
// the matrix that it closes.
fn is_matrix_broken(key: u64, argument: &[u8], s: State) -> bool
    ensures { result ≡ is_matrix_broken key argument.now s }
{
    let m = s.matrix;
    if line_place::is_row_or_bandwidth(key) {
        return is_wrong_by(key, argument, m);
    }
    let section = s.section;
    let counts = s.counts;
    line_matrix::is_wrong_shape(m, section.conductors, counts.values)
}

// Rule 16: a matrix or a pin grid of the wrong shape.
fn is_shape_broken(key: u64, argument: &[u8], s: State) -> bool
    requires { BoundedMap s.map }
    ensures { result ≡ is_shape_broken key argument.now s }
{
    if s.place == line_place::MATRIX {
        return is_matrix_broken(key, argument, s);
    }
    if s.place != line_place::PIN_LIST {
        return false;
    }
    let map = s.map;
    line_map::is_wrong_grid(map)
}

// Whether a keyword closes a Diagonal_matrix with too many numbers.
fn closes_too_wide(key: u64, s: State) -> bool
    ensures { result ≡ closes_too_wide key s }
{
    if s.place != line_place::MATRIX {
        return false;
    }
    if line_place::is_row_or_bandwidth(key) {
        return false;
    }
    let m = s.matrix;
    let counts = s.counts;
    line_matrix::is_too_wide(m, counts.values)
}

// Whether a keyword opens a model, map or section when there are already as many as there may be.
fn is_full(key: u64, c: Counts) -> bool
    ensures { result ≡ is_full key c }
{
    if key == lex_keyword::BEGIN_ICM_MODEL {
        return table_layout::bound::MODELS <= c.models;
    }
    if key == lex_keyword::ICM_PIN_MAP {
        return table_layout::bound::MAPS <= c.maps;
    }
    if key == lex_keyword::BEGIN_ICM_SECTION {
        return table_layout::bound::SECTIONS <= c.sections;
    }
    false
}

// Rule 17: a count above its bound.
fn is_past_bound(key: u64, s: State) -> bool
    ensures { result ≡ is_past_bound key s }
{
    if closes_too_wide(key, s) {
        return true;
    }
    let counts = s.counts;
    is_full(key, counts)
}

// The first rule that a keyword line breaks, 0 for none.
pub fn keyword_rule(key: u64, argument: &[u8], s: State) -> u64
    requires { BoundedMap s.map }
    ensures { result ≡ keyword_rule key argument.now s }
{
    if is_fork_open(s) {
        return base::refusal::FORK;
    }
    if is_misplaced(key, s) {
        return base::refusal::PLACE;
    }
    if line_argument::is_bad_argument(key, argument) {
        return base::refusal::ARGUMENT;
    }
    if line_argument::is_bad_integer(key, argument) {
        return base::refusal::NUMBER;
    }
    if line_argument::is_out_of_bounds(key, argument) {
        return base::refusal::RANGE;
    }
    if is_shape_broken(key, argument, s) {
        return base::refusal::SHAPE;
    }
    if is_past_bound(key, s) {
        return base::refusal::LIMIT;
    }
    0
}

// ---- what is remembered after a keyword that breaks no rule

// The keywords read, after this one. Each model has its own path and description, and each section its own matrices, so
// opening one forgets the earlier ones. [Row] and [Bandwidth] may appear any number of times and are not remembered.
fn seen_after(key: u64, seen: [bool; 40]) -> [bool; 40]
    ensures { result ≡ seen_after key seen }
{
    if line_place::is_row_or_bandwidth(key) {
        return seen;
    }
    let mut next = seen;
    if key == lex_keyword::BEGIN_ICM_MODEL {
        next[35] = false;
        next[36] = false;
        return next;
    }
    if key == lex_keyword::BEGIN_ICM_SECTION {
        next[28] = false;
        next[29] = false;
        next[31] = false;
        next[32] = false;
        return next;
    }
    if 40 <= key {
        return next;
    }
    let at = key as usize;
    next[at] = true;
    next
}

fn head_after(key: u64, h: Head) -> Head
    ensures { result ≡ head_after key h }
{
    if key == lex_keyword::BEGIN_ICM_MODEL {
        return line_head::new_head();
    }
    h
}

fn path_after(key: u64, p: Path) -> Path
    ensures { result ≡ path_after key p }
{
    if key == lex_keyword::TREE_PATH_DESCRIPTION {
        return line_path::new_path();
    }
    p
}

fn map_after(key: u64, m: Map) -> Map
    ensures { result ≡ map_after key m }
{
    if key == lex_keyword::ICM_PIN_MAP {
        return line_map::new_map();
    }
    m
}

// The conductors of a section are those of the first matrix that is closed; a later one has as many, else it is 16.
fn conductors_after(key: u64, s: State) -> u64
    ensures { result ≡ conductors_after key s }
{
    let section = s.section;
    if s.place != line_place::MATRIX {
        return section.conductors;
    }
    if line_place::is_row_or_bandwidth(key) {
        return section.conductors;
    }
    let m = s.matrix;
    let counts = s.counts;
    line_matrix::conductors_of(m, counts.values)
}

fn section_after(key: u64, argument: &[u8], s: State) -> Section
    ensures { result ≡ section_after key argument.now s }
{
    if key == lex_keyword::BEGIN_ICM_SECTION {
        return Section {
            method: 0,
            conductors: 0,
        };
    }
    if key == lex_keyword::DERIVATION_METHOD {
        return Section {
            method: line_argument::method_of(argument),
            conductors: 0,
        };
    }
    let section = s.section;
    Section {
        method: section.method,
        conductors: conductors_after(key, s),
    }
}

fn matrix_after(key: u64, argument: &[u8], s: State) -> Matrix
    requires { is_out_of_bounds key argument.now ≡ false }
    ensures { result ≡ matrix_after key argument.now s }
{
    let m = s.matrix;
    let counts = s.counts;
    if line_place::opens_matrix(key) {
        return line_matrix::new_matrix(line_argument::form_of(argument), counts.values);
    }
    if key == lex_keyword::ROW {
        let row = lex_number::read_integer(argument);
        return line_matrix::with_row(row.unwrap_or(0), m, counts.values);
    }
    if key == lex_keyword::BANDWIDTH {
        let bandwidth = lex_number::read_integer(argument);
        return line_matrix::with_bandwidth(bandwidth.unwrap_or(0), m);
    }
    m
}

pub fn one_more_if(b: bool, n: u64) -> u64
    requires { n < 2 ^ 63 }
    ensures { result ≡ one_more_if b n }
{
    if b {
        return n + 1;
    }
    n
}

fn counts_after(key: u64, c: Counts) -> Counts
    requires { Countable c }
    ensures { result ≡ counts_after key c }
{
    Counts {
        models: one_more_if(key == lex_keyword::BEGIN_ICM_MODEL, c.models),
        steps: c.steps,
        maps: one_more_if(key == lex_keyword::ICM_PIN_MAP, c.maps),
        pins: c.pins,
        sections: one_more_if(key == lex_keyword::BEGIN_ICM_SECTION, c.sections),
        matrices: one_more_if(line_place::opens_matrix(key), c.matrices),
        values: c.values,
    }
}

// What is remembered after a keyword that breaks no rule.
pub fn keyword_next(key: u64, argument: &[u8], s: State) -> State
    requires { (is_out_of_bounds key argument.now ≡ false) × Countable s.counts }
    ensures { result ≡ keyword_next key argument.now s }
{
    let seen = s.seen;
    let head = s.head;
    let path = s.path;
    let map = s.map;
    let counts = s.counts;
    State {
        place: line_place::moved(s.place, key),
        seen: seen_after(key, seen),
        head: head_after(key, head),
        path: path_after(key, path),
        map: map_after(key, map),
        section: section_after(key, argument, s),
        matrix: matrix_after(key, argument, s),
        counts: counts_after(key, counts),
    }
}

// ---- [Row] and [Bandwidth] in a matrix, judged by the matrix alone

// The first rule that a [Row] or [Bandwidth] in a matrix breaks, 0 for none.
pub fn matrix_keyword_rule(key: u64, argument: &[u8], m: Matrix) -> u64
    ensures { result ≡ matrix_keyword_rule key argument.now m }
{
    if line_argument::is_bad_argument(key, argument) {
        return base::refusal::ARGUMENT;
    }
    if line_argument::is_bad_integer(key, argument) {
        return base::refusal::NUMBER;
    }
    if line_argument::is_out_of_bounds(key, argument) {
        return base::refusal::RANGE;
    }
    if is_wrong_by(key, argument, m) {
        return base::refusal::SHAPE;
    }
    0
}

// The matrix after a [Row] or a [Bandwidth] that breaks no rule.
pub fn matrix_keyword_next(key: u64, argument: &[u8], m: Matrix, values: u64) -> Matrix
    requires { (is_row_or_bandwidth key ≡ true) × (matrix_keyword_rule key argument.now m ≡ 0) }
    ensures { result ≡ matrix_keyword_next key argument.now m values }
{
    let value = lex_number::read_integer(argument).unwrap_or(0);
    if key == lex_keyword::ROW {
        line_matrix::with_row(value, m, values)
    } else {
        line_matrix::with_bandwidth(value, m)
    }
}

// What is remembered before the first line: nothing.
pub fn start_state() -> State
    ensures { result ≡ start_state }
{
    State {
        place: line_place::BEFORE,
        seen: [false; 40],
        head: line_head::new_head(),
        path: line_path::new_path(),
        map: line_map::new_map(),
        section: Section {
            method: 0,
            conductors: 0,
        },
        matrix: line_matrix::new_matrix(0, 0),
        counts: Counts {
            models: 0,
            steps: 0,
            maps: 0,
            pins: 0,
            sections: 0,
            matrices: 0,
            values: 0,
        },
    }
}
