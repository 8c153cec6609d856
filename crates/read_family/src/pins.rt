// The lines of a pin list, judged and staged at once: the record of each pin is stored behind those of the pins before
// it.
ghost use Rattle.std.specs.Prelude.{◌+◌, ◌≤◌, length};
ghost use Rattle.line_keyword.specs.Way.Bounded.{most_lines};
ghost use Rattle.read_family.specs.Way.Pins.{StagesPin, TakesPin, GoesPins};

use line_map::Map;
use read_line::Front;
use table_record::PinRecord;

// The result of a line of a pin list, with only the part of the state that such a line changes. A line with a bracket
// is not taken here. For a line that is taken: the rule that it breaks, and the map and the count of pins after it.
#[derive(Clone, Copy)]
pub struct Pinned {
    pub taken: bool,
    pub rule: u64,
    pub map: Map,
    pub pins: u64,
}

// A line of a pin list that has words at its front: the name of the pin is its first word.
fn pin_line(content: &[u8], at: usize, map: Map, pins: u64, stage: &mut [u64]) -> Pinned
    requires { at + length content.now ≤ most_lines }
    ensures { StagesPin content.now at map pins stage.old result stage.new }
{
    let rule = line_map::pin_rule(content, map, pins);
    if rule != 0 {
        return Pinned {
            taken: true,
            rule,
            map,
            pins,
        };
    }
    let name = doc::first_extent(content, at);
    let pin = PinRecord {
        start: name.start as u64,
        size: name.size as u64,
    };
    table_record::stage::put(stage, pins, pin);
    Pinned {
        taken: true,
        rule: 0,
        map: line_map::with_pin(map),
        pins: pins + 1,
    }
}

// A line of a pin list; one with a bracket is not taken.
fn take_pin(content: &[u8], at: usize, map: Map, pins: u64, stage: &mut [u64]) -> Pinned
    requires { at + length content.now ≤ most_lines }
    ensures { TakesPin content.now at map pins stage.old result stage.new }
{
    match read_line::front_of(content) {
        Front::Blanks => Pinned {
            taken: true,
            rule: 0,
            map,
            pins,
        },
        Front::Words => pin_line(content, at, map, pins, stage),
        Front::Opening => Pinned {
            taken: false,
            rule: 0,
            map,
            pins,
        },
    }
}

// Where the lines of a pin list end, or the line that breaks a rule, and the result up to there.
#[derive(Clone, Copy)]
pub struct PinWalk {
    pub at: usize,
    pub line: u64,
    pub part: Pinned,
}

// Reads the lines of a pin list and stages their pins, up to a line with a bracket or one that breaks a rule.
pub fn pass_pins(
    text: &[u8],
    at: usize,
    line: u64,
    map: Map,
    pins: u64,
    stage: &mut [u64],
) -> PinWalk
    requires { (at ≤ length text.now) × (line ≤ at + 1) }
    ensures { GoesPins text.now at line map pins stage.old result stage.new }
{
    let mut here = at;
    let mut line_here = line;
    let mut part = Pinned {
        taken: true,
        rule: 0,
        map,
        pins,
    };
    // No for: each turn finds where the next line starts.
    while here < text.len() {
        let found = lex_line::line_at(text, here, lex_line::COMMENT);
        let content = found.content;
        let next = take_pin(&text[here..content], here, part.map, part.pins, stage);
        if !next.taken {
            return PinWalk {
                at: here,
                line: line_here,
                part,
            };
        }
        here = found.next;
        part = next;
        if part.rule != 0 {
            return PinWalk {
                at: here,
                line: line_here,
                part,
            };
        }
        line_here += 1;
    }
    PinWalk {
        at: here,
        line: line_here,
        part,
    }
}
