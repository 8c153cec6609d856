// One record of each part by value: read from a table, and stored in it. No other crate knows which word of a record is
// which.
#![tactic(auto)]

ghost use Rattle.std.specs.Prelude.{◌≡◌, ℕ, ◌+◌, ◌≤◌, ◌<◌, List, [], map, length, get_or, refl};
ghost use Rattle.std.proofs.Common.{lit<};
ghost use Rattle.std.proofs.lemmas.List.Edits.{sets};
ghost use Rattle.table_layout.specs.declared.View.{View};
ghost use Rattle.table_layout.specs.Layout.{models, steps, maps, pins, sections, matrices, values, part_count, widths, model_width, step_width, map_width, pin_width, section_width, matrix_width, value_width};
ghost use Rattle.table_record.specs.Records.{Records, no_records, model_words, step_words, map_words, pin_words, section_words, matrix_words, value_words, to_pin, records_of, no_model, no_step, no_map, no_section, no_matrix, no_value};
ghost use Rattle.table_record.specs.Way.Standing.{name_record_at, model_at, step_at, map_at, pin_at, section_at, matrix_at, value_at, count_of, places_of, records_at, Rooms, name_width};

use table_layout::View;

pub mod stage;

// "models (name start, length, type, first step, steps)". The type is its `kind`.
#[derive(Clone, Copy, Default)]
pub struct ModelRecord {
    pub start: u64,
    pub size: u64,
    pub kind: u64,
    pub first: u64,
    pub steps: u64,
}

// "steps (kind 0 end 1 section 2 fork 3 endfork; target or 0; amount: Mult, the Len value word, or 0; side start and length or
// 0 0; line)".
#[derive(Clone, Copy, Default)]
pub struct StepRecord {
    pub kind: u64,
    pub target: u64,
    pub amount: u64,
    pub side: u64,
    pub side_size: u64,
    pub line: u64,
}

// "maps (start, length, order, rows, columns, first pin, pins; Un_ordered has 0 0 for rows, columns)".
#[derive(Clone, Copy, Default)]
pub struct MapRecord {
    pub start: u64,
    pub size: u64,
    pub order: u64,
    pub rows: u64,
    pub columns: u64,
    pub first: u64,
    pub pins: u64,
}

// "pins (start, length)".
#[derive(Clone, Copy, Default)]
pub struct PinRecord {
    pub start: u64,
    pub size: u64,
}

// "sections (start, length, method, N, R L G C each matrix index plus 1 or 0)".
#[derive(Clone, Copy, Default)]
pub struct SectionRecord {
    pub start: u64,
    pub size: u64,
    pub method: u64,
    pub conductors: u64,
    pub resistance: u64,
    pub inductance: u64,
    pub conductance: u64,
    pub capacitance: u64,
}

// "matrices (form 0 diagonal 1 banded 2 sparse 3 full, bandwidth or 0, first value, values, line)".
#[derive(Clone, Copy, Default)]
pub struct MatrixRecord {
    pub form: u64,
    pub bandwidth: u64,
    pub first: u64,
    pub values: u64,
    pub line: u64,
}

// "values (row, column, value word), one per number written".
#[derive(Clone, Copy, Default)]
pub struct Value {
    pub row: u64,
    pub column: u64,
    pub word: u64,
}

// The name of a model, a map, a pin or a section: the first words of its record.
#[derive(Clone, Copy)]
pub struct NameRecord {
    pub start: u64,
    pub size: u64,
}

// ---- the record that begins at word `at`

pub fn name_at(table: &[u64], at: usize) -> NameRecord
    requires { at + name_width ≤ length table.now }
    ensures { result ≡ name_record_at table.now at }
{
    NameRecord {
        start: table[at],
        size: table[at + 1],
    }
}

// ---- values as rows of words

// A value that is stored as a row of words, one word after another.
pub trait Words: Copy {
    ghost WIDTH: { ℕ };

    const WIDTH: usize;

    // Its words, and the value whose words begin at a word of a table.
    ghost words: { Self → List ℕ };

    ghost stands: { List ℕ → ℕ → Self };

    // The value whose words begin at word `at`.
    fn at(table: &[u64], at: usize) -> Self
        requires { at + WIDTH ≤ length table.now }
        ensures { result ≡ stands table.now at };

    // Stores its words, the first at word `at`.
    fn put_at(self, table: &mut [u64], at: usize)
        requires { at + WIDTH ≤ length table.old }
        ensures { table.new ≡ sets table.old at (words self) };

    ghost some_words: { 0 < WIDTH };

    ghost all_words: { (x : Self) → length (words x) ≡ WIDTH };
}

// A record of a part of a table.
pub trait Record: Words + Default {
    ghost PART: { ℕ };

    const PART: usize;

    // The list of such records among those of a table, and the record of no index: all its words are 0, as the default's are.
    ghost kind: { Records → List Self };

    ghost none: { Self };

    ghost is_none: { (x : Self) → Self.is_default x → x ≡ none };

    ghost has_none: { kind no_records ≡ [] };

    ghost has_part: { PART < part_count };

    ghost has_width: { get_or widths PART 0 ≡ Self.WIDTH };

    ghost is_kind: { (table : List ℕ) (v : View) → kind (records_at table v) ≡ map (Self.stands table) (places_of v PART) };
}

impl Words for ModelRecord {
    ghost WIDTH = { model_width };

    const WIDTH: usize = table_layout::MODEL_WIDTH;

    ghost words = { model_words };

    ghost stands = { model_at };

    fn at(table: &[u64], at: usize) -> Self {
        Self {
            start: table[at],
            size: table[at + 1],
            kind: table[at + 2],
            first: table[at + 3],
            steps: table[at + 4],
        }
    }

    fn put_at(self, table: &mut [u64], at: usize) {
        let words = [self.start, self.size, self.kind, self.first, self.steps];
        base::put_words(table, at, &words);
    }

    ghost some_words = { lit< tt };

    ghost all_words = { λ x. refl };
}

impl Record for ModelRecord {
    ghost PART = { models };

    const PART: usize = table_layout::MODELS;

    ghost kind = { λ r. r.models };

    ghost none = { no_model };

    ghost is_none = { λ x h i. record { start = h.0 i; size = h.1.0 i; kind = h.1.1.0 i; first = h.1.1.1.0 i; steps = h.1.1.1.1 i } };

    ghost has_none = { refl };

    ghost has_part = { lit< tt };

    ghost has_width = { refl };

    ghost is_kind = { λ table v. unfold records_at in unfold places_of in refl };
}

impl Words for StepRecord {
    ghost WIDTH = { step_width };

    const WIDTH: usize = table_layout::STEP_WIDTH;

    ghost words = { step_words };

    ghost stands = { step_at };

    fn at(table: &[u64], at: usize) -> Self {
        Self {
            kind: table[at],
            target: table[at + 1],
            amount: table[at + 2],
            side: table[at + 3],
            side_size: table[at + 4],
            line: table[at + 5],
        }
    }

    fn put_at(self, table: &mut [u64], at: usize) {
        let words = [
            self.kind,
            self.target,
            self.amount,
            self.side,
            self.side_size,
            self.line,
        ];
        base::put_words(table, at, &words);
    }

    ghost some_words = { lit< tt };

    ghost all_words = { λ x. refl };
}

impl Record for StepRecord {
    ghost PART = { steps };

    const PART: usize = table_layout::STEPS;

    ghost kind = { λ r. r.steps };

    ghost none = { no_step };

    ghost is_none = { λ x h i. record { kind = h.0 i; target = h.1.0 i; amount = h.1.1.0 i; side = h.1.1.1.0 i; side_size = h.1.1.1.1.0 i; line = h.1.1.1.1.1 i } };

    ghost has_none = { refl };

    ghost has_part = { lit< tt };

    ghost has_width = { refl };

    ghost is_kind = { λ table v. unfold records_at in unfold places_of in refl };
}

impl Words for MapRecord {
    ghost WIDTH = { map_width };

    const WIDTH: usize = table_layout::MAP_WIDTH;

    ghost words = { map_words };

    ghost stands = { map_at };

    fn at(table: &[u64], at: usize) -> Self {
        Self {
            start: table[at],
            size: table[at + 1],
            order: table[at + 2],
            rows: table[at + 3],
            columns: table[at + 4],
            first: table[at + 5],
            pins: table[at + 6],
        }
    }

    fn put_at(self, table: &mut [u64], at: usize) {
        let words = [
            self.start,
            self.size,
            self.order,
            self.rows,
            self.columns,
            self.first,
            self.pins,
        ];
        base::put_words(table, at, &words);
    }

    ghost some_words = { lit< tt };

    ghost all_words = { λ x. refl };
}

impl Record for MapRecord {
    ghost PART = { maps };

    const PART: usize = table_layout::MAPS;

    ghost kind = { λ r. r.maps };

    ghost none = { no_map };

    ghost is_none = { λ x h i. record { start = h.0 i; size = h.1.0 i; order = h.1.1.0 i; rows = h.1.1.1.0 i; columns = h.1.1.1.1.0 i; first = h.1.1.1.1.1.0 i; pins = h.1.1.1.1.1.1 i } };

    ghost has_none = { refl };

    ghost has_part = { lit< tt };

    ghost has_width = { refl };

    ghost is_kind = { λ table v. unfold records_at in unfold places_of in refl };
}

impl Words for PinRecord {
    ghost WIDTH = { pin_width };

    const WIDTH: usize = table_layout::PIN_WIDTH;

    ghost words = { pin_words };

    ghost stands = { pin_at };

    fn at(table: &[u64], at: usize) -> Self {
        Self {
            start: table[at],
            size: table[at + 1],
        }
    }

    fn put_at(self, table: &mut [u64], at: usize) {
        let words = [self.start, self.size];
        base::put_words(table, at, &words);
    }

    ghost some_words = { lit< tt };

    ghost all_words = { λ x. refl };
}

impl Record for PinRecord {
    ghost PART = { pins };

    const PART: usize = table_layout::PINS;

    ghost kind = { λ r. r.pins };

    ghost none = { to_pin [] };

    ghost is_none = { λ x h i. record { start = h.0 i; size = h.1 i } };

    ghost has_none = { refl };

    ghost has_part = { lit< tt };

    ghost has_width = { refl };

    ghost is_kind = { λ table v. unfold records_at in unfold places_of in refl };
}

impl Words for SectionRecord {
    ghost WIDTH = { section_width };

    const WIDTH: usize = table_layout::SECTION_WIDTH;

    ghost words = { section_words };

    ghost stands = { section_at };

    fn at(table: &[u64], at: usize) -> Self {
        Self {
            start: table[at],
            size: table[at + 1],
            method: table[at + 2],
            conductors: table[at + 3],
            resistance: table[at + 4],
            inductance: table[at + 5],
            conductance: table[at + 6],
            capacitance: table[at + 7],
        }
    }

    fn put_at(self, table: &mut [u64], at: usize) {
        let words = [
            self.start,
            self.size,
            self.method,
            self.conductors,
            self.resistance,
            self.inductance,
            self.conductance,
            self.capacitance,
        ];
        base::put_words(table, at, &words);
    }

    ghost some_words = { lit< tt };

    ghost all_words = { λ x. refl };
}

impl Record for SectionRecord {
    ghost PART = { sections };

    const PART: usize = table_layout::SECTIONS;

    ghost kind = { λ r. r.sections };

    ghost none = { no_section };

    ghost is_none = { λ x h i. record { start = h.0 i; size = h.1.0 i; method = h.1.1.0 i; conductors = h.1.1.1.0 i; resistance = h.1.1.1.1.0 i; inductance = h.1.1.1.1.1.0 i; conductance = h.1.1.1.1.1.1.0 i; capacitance = h.1.1.1.1.1.1.1 i } };

    ghost has_none = { refl };

    ghost has_part = { lit< tt };

    ghost has_width = { refl };

    ghost is_kind = { λ table v. unfold records_at in unfold places_of in refl };
}

impl Words for MatrixRecord {
    ghost WIDTH = { matrix_width };

    const WIDTH: usize = table_layout::MATRIX_WIDTH;

    ghost words = { matrix_words };

    ghost stands = { matrix_at };

    fn at(table: &[u64], at: usize) -> Self {
        Self {
            form: table[at],
            bandwidth: table[at + 1],
            first: table[at + 2],
            values: table[at + 3],
            line: table[at + 4],
        }
    }

    fn put_at(self, table: &mut [u64], at: usize) {
        let words = [
            self.form,
            self.bandwidth,
            self.first,
            self.values,
            self.line,
        ];
        base::put_words(table, at, &words);
    }

    ghost some_words = { lit< tt };

    ghost all_words = { λ x. refl };
}

impl Record for MatrixRecord {
    ghost PART = { matrices };

    const PART: usize = table_layout::MATRICES;

    ghost kind = { λ r. r.matrices };

    ghost none = { no_matrix };

    ghost is_none = { λ x h i. record { form = h.0 i; bandwidth = h.1.0 i; first = h.1.1.0 i; values = h.1.1.1.0 i; line = h.1.1.1.1 i } };

    ghost has_none = { refl };

    ghost has_part = { lit< tt };

    ghost has_width = { refl };

    ghost is_kind = { λ table v. unfold records_at in unfold places_of in refl };
}

impl Words for Value {
    ghost WIDTH = { value_width };

    const WIDTH: usize = table_layout::VALUE_WIDTH;

    ghost words = { value_words };

    ghost stands = { value_at };

    fn at(table: &[u64], at: usize) -> Self {
        Self {
            row: table[at],
            column: table[at + 1],
            word: table[at + 2],
        }
    }

    // Three writes, with no row made first: this one is in the loop that reads numbers.
    fn put_at(self, table: &mut [u64], at: usize) {
        table[at] = self.row;
        table[at + 1] = self.column;
        table[at + 2] = self.word;
    }

    ghost some_words = { lit< tt };

    ghost all_words = { λ x. refl };
}

impl Record for Value {
    ghost PART = { values };

    const PART: usize = table_layout::VALUES;

    ghost kind = { λ r. r.values };

    ghost none = { no_value };

    ghost is_none = { λ x h i. record { row = h.0 i; column = h.1.0 i; word = h.1.1 i } };

    ghost has_none = { refl };

    ghost has_part = { lit< tt };

    ghost has_width = { refl };

    ghost is_kind = { λ table v. unfold records_at in unfold places_of in refl };
}

// ---- the record of an index, by the view of the table

pub fn nth<R: Record>(table: &[u64], view: View, index: u64) -> R
    requires { Rooms table.now view × (index < count_of view R.PART) }
    ensures { result ≡ get_or (R.kind (records_of table.now)) index R.none }
{
    let at = view.bases[R::PART] + R::WIDTH * (index as usize);
    R::at(table, at)
}
