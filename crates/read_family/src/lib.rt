// The walk over the header and the family of a text, rules 5 to 17: it reads the lines up to [End ICM Family] and
// stages the records of models, steps, maps and pins on the way.
#![tactic(auto)]

ghost use Rattle.std.specs.Prelude.{◌≡◌, List, ℕ, ◌+◌, ◌≤◌, ◌<◌, length};
ghost use Rattle.lex_keyword.specs.Bracket.{bracket_of};
ghost use Rattle.line_place.specs.Place as place;
ghost use Rattle.line_keyword.specs.Way.Bounded.{most_lines};
ghost use Rattle.read_line.specs.Way.Walk.{Onward};
ghost use Rattle.read_family.specs.Way.Blocks.{maps_after, models_after, opening, enters, open_after, sgr_after};
ghost use Rattle.read_family.specs.Way.Family.{Alone, Continues, after_steps, after_pins, followed, FamilyRead};

use doc::Cursor;
use lex_keyword::Bracket;
use line_head::Head;
use line_keyword::State;
use pins::PinWalk;
use read_line::Walk;
use read_path::PathWalk;
use table_record::stage::StagedModel;
use table_record::{MapRecord, ModelRecord};

pub mod pins;

// The model or map that is open: where its name stands, the index of its first step or pin, and the line of the model's
// SGR, 0 for none.
#[derive(Clone, Copy)]
pub struct Open {
    pub start: u64,
    pub size: u64,
    pub first: u64,
    pub sgr: u64,
}

// Where the walk over the family ended, and where the model list starts.
#[derive(Clone, Copy)]
pub struct Family {
    pub walk: Walk,
    pub list: Cursor,
}

// How far the family has been read: as in a walk, with the block that is open.
#[derive(Clone, Copy)]
pub struct FamilyWalk {
    pub rule: u64,
    pub at: usize,
    pub line: u64,
    pub state: State,
    pub block: Open,
}

// ---- a line that is read alone

// Stages the open map. Below its Pin_list the lines are read together, so a line that is read alone has a keyword, and
// "a path, map or list closes at the next keyword".
fn close_map(s: State, block: Open, maps: &mut [u64])
    ensures { maps.new ≡ maps_after block s maps.old }
{
    if s.place != line_place::PIN_LIST {
        return;
    }
    let map = s.map;
    let counts = s.counts;
    let own = MapRecord {
        start: block.start,
        size: block.size,
        order: base::minus(map.order, 1),
        rows: map.rows,
        columns: map.columns,
        first: block.first,
        pins: base::minus(counts.pins, block.first),
    };
    table_record::stage::put(maps, base::minus(counts.maps, 1), own);
}

// Stages the open model, if the line leads out of it.
fn close_model(s: State, place: u64, block: Open, models: &mut [u64])
    ensures { models.new ≡ models_after block s place models.old }
{
    if !line_place::is_in_model(s.place) {
        return;
    }
    if line_place::is_in_model(place) {
        return;
    }
    let head = s.head;
    let counts = s.counts;
    let own = ModelRecord {
        start: block.start,
        size: block.size,
        kind: base::minus(head.kind, 1),
        first: block.first,
        steps: base::minus(counts.steps, block.first),
    };
    let staged = StagedModel {
        model: own,
        sgr: block.sgr,
    };
    table_record::stage::put(models, base::minus(counts.models, 1), staged);
}

// The block that a line opens: its name is the argument of the keyword.
fn open_block(content: &[u8], at: usize, bracket: Bracket, first: u64) -> Open
    requires { (at + length content.now ≤ most_lines) × (bracket ≡ bracket_of content.now) }
    ensures { result ≡ opening at content.now first }
{
    let start = doc::argument_in(bracket);
    let name = read_line::argument_of(content, start);
    Open {
        start: (at + start) as u64,
        size: name.len() as u64,
        first,
        sgr: 0,
    }
}

// Whether a line leads into the place `head` from elsewhere.
fn is_entered(head: u64, before: u64, after: u64) -> bool
    ensures { result ≡ enters head before after }
{
    if after != head {
        return false;
    }
    before != head
}

// The open block, with its line if it says SGR: the head has one after the line, and had none before it. Rule 29 is judged
// when the model's type is known, which may stand below.
fn keep_sgr(block: Open, line: u64, before: Head, after: Head) -> Open
    ensures { result ≡ sgr_after line before after block }
{
    if !after.sgr {
        return block;
    }
    if before.sgr {
        return block;
    }
    Open {
        start: block.start,
        size: block.size,
        first: block.first,
        sgr: line,
    }
}

// The block that is open after a line.
fn open_after(
    content: &[u8],
    at: usize,
    line: u64,
    bracket: Bracket,
    s: State,
    place: u64,
    head: Head,
    block: Open,
) -> Open
    requires { (at + length content.now ≤ most_lines) × (bracket ≡ bracket_of content.now) }
    ensures { result ≡ open_after line at content.now s place head block }
{
    let counts = s.counts;
    if is_entered(line_place::HEAD, s.place, place) {
        return open_block(content, at, bracket, counts.steps);
    }
    if is_entered(line_place::MAP_HEAD, s.place, place) {
        return open_block(content, at, bracket, counts.pins);
    }
    let before = s.head;
    keep_sgr(block, line, before, head)
}

// Reads the line at offset `at`: it may close the open block, and open another.
fn read_alone(
    text: &[u8],
    at: usize,
    line: u64,
    s: State,
    block: Open,
    models: &mut [u64],
    maps: &mut [u64],
) -> FamilyWalk
    requires { (at < length text.now) × Onward text.now at line s × (s.place < place.after) × Alone text.now at s.place }
    ensures { (steps pins : List ℕ) → Continues text.now at line s block models.old steps maps.old pins
        result models.new steps maps.new pins }
{
    let read = read_line::read_single(text, at, line, s);
    let state = read.state;
    if read.rule != 0 {
        return FamilyWalk {
            rule: read.rule,
            at: read.at,
            line: read.line,
            state,
            block,
        };
    }
    close_map(s, block, maps);
    close_model(s, state.place, block, models);
    let end = read.end;
    let bracket = read.bracket;
    let head = state.head;
    let next = open_after(
        &text[at..end],
        at,
        line,
        bracket,
        s,
        state.place,
        head,
        block,
    );
    FamilyWalk {
        rule: 0,
        at: read.at,
        line: read.line,
        state,
        block: next,
    }
}

// ---- lines one after another

// The walk after lines of a path.
fn after_steps(s: State, block: Open, walk: PathWalk) -> FamilyWalk
    ensures { result ≡ after_steps s block walk }
{
    let part = walk.part;
    let reached = part.path;
    let mut counts = s.counts;
    counts.steps = part.steps;
    let mut state = s;
    state.path = reached;
    state.counts = counts;
    FamilyWalk {
        rule: part.rule,
        at: walk.at,
        line: walk.line,
        state,
        block,
    }
}

// Reads the lines of a path, fork blocks included, up to the next line with a bracket. If that line comes first, it is
// read instead.
fn read_steps(
    text: &[u8],
    at: usize,
    line: u64,
    s: State,
    block: Open,
    models: &mut [u64],
    steps: &mut [u64],
    maps: &mut [u64],
) -> FamilyWalk
    requires { (at < length text.now) × Onward text.now at line s × (s.place ≡ place.path) }
    ensures { (pins : List ℕ) → Continues text.now at line s block models.old steps.old maps.old pins
        result models.new steps.new maps.new pins }
{
    let path = s.path;
    let counts = s.counts;
    let walk = read_path::pass_block(text, at, line, path, counts.steps, steps);
    let part = walk.part;
    if part.rule != 0 {
        return after_steps(s, block, walk);
    }
    if at < walk.at {
        return after_steps(s, block, walk);
    }
    read_alone(text, at, line, s, block, models, maps)
}

// The walk after lines of a pin list.
fn after_pins(s: State, block: Open, walk: PinWalk) -> FamilyWalk
    ensures { result ≡ after_pins s block walk }
{
    let part = walk.part;
    let reached = part.map;
    let mut counts = s.counts;
    counts.pins = part.pins;
    let mut state = s;
    state.map = reached;
    state.counts = counts;
    FamilyWalk {
        rule: part.rule,
        at: walk.at,
        line: walk.line,
        state,
        block,
    }
}

// Reads the lines of a pin list up to the next line with a bracket. If that line comes first, it is read instead.
fn read_pins(
    text: &[u8],
    at: usize,
    line: u64,
    s: State,
    block: Open,
    models: &mut [u64],
    maps: &mut [u64],
    pins: &mut [u64],
) -> FamilyWalk
    requires { (at < length text.now) × Onward text.now at line s × (s.place ≡ place.pin_list) }
    ensures { (steps : List ℕ) → Continues text.now at line s block models.old steps maps.old pins.old
        result models.new steps maps.new pins.new }
{
    let map = s.map;
    let counts = s.counts;
    let walk = pins::pass_pins(text, at, line, map, counts.pins, pins);
    let part = walk.part;
    if part.rule != 0 {
        return after_pins(s, block, walk);
    }
    if at < walk.at {
        return after_pins(s, block, walk);
    }
    read_alone(text, at, line, s, block, models, maps)
}

// Reads the line at offset `at`, or several lines that change nothing or only one part of the state.
fn read_on(
    text: &[u8],
    at: usize,
    line: u64,
    s: State,
    block: Open,
    models: &mut [u64],
    steps: &mut [u64],
    maps: &mut [u64],
    pins: &mut [u64],
) -> FamilyWalk
    requires { (at < length text.now) × Onward text.now at line s × (s.place < place.after) }
    ensures { Continues text.now at line s block models.old steps.old maps.old pins.old
        result models.new steps.new maps.new pins.new }
{
    if s.place == line_place::PATH {
        return read_steps(text, at, line, s, block, models, steps, maps);
    }
    if s.place == line_place::PIN_LIST {
        return read_pins(text, at, line, s, block, models, maps, pins);
    }
    let passing = doc::idle::skip_idle(text, at, line, s.place);
    if at < passing.at {
        return FamilyWalk {
            rule: 0,
            at: passing.at,
            line: passing.line,
            state: s,
            block,
        };
    }
    read_alone(text, at, line, s, block, models, maps)
}

// The place of the model list: the place that is reached, up to the list.
fn follow(list: Cursor, at: usize, line: u64, place: u64) -> Cursor
    ensures { result ≡ followed list (record { at = at; line = line; place = place }) }
{
    if list.place == line_place::LIST {
        return list;
    }
    Cursor { at, line, place }
}

// Rules 5 to 17 up to [End ICM Family]. If none is broken there, the records of the family are staged, as far as the
// slices have room for them.
pub fn read_family(
    text: &[u8],
    models: &mut [u64],
    steps: &mut [u64],
    maps: &mut [u64],
    pins: &mut [u64],
) -> Family
    ensures { FamilyRead text.now result.walk result.list models.new steps.new maps.new pins.new }
{
    let mut at = 0;
    let mut line = 1;
    let mut s = line_keyword::start_state();
    let mut block = Open {
        start: 0,
        size: 0,
        first: 0,
        sgr: 0,
    };
    let mut list = doc::start();
    // No for: each turn finds where the next lines start.
    while at < text.len() {
        if s.place == line_place::AFTER {
            let walk = Walk {
                rule: 0,
                at,
                line,
                state: s,
            };
            return Family { walk, list };
        }
        let next = read_on(text, at, line, s, block, models, steps, maps, pins);
        let state = next.state;
        if next.rule != 0 {
            let walk = Walk {
                rule: next.rule,
                at: next.at,
                line: next.line,
                state,
            };
            return Family { walk, list };
        }
        at = next.at;
        line = next.line;
        s = state;
        let reached = next.block;
        block = reached;
        list = follow(list, at, line, s.place);
    }
    let walk = Walk {
        rule: 0,
        at,
        line,
        state: s,
    };
    Family { walk, list }
}
