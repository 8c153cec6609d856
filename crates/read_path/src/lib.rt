// Lines of a path, judged and staged in one go: the step of each line is stored behind those of the lines before it.
// `read_family` builds the reading of a family from `pass_block`.
#![tactic(auto)]

ghost use Rattle.std.specs.Prelude.{◌≡◌, [], ◌∷◌, ◌+◌, ◌^◌, ◌≤◌, ◌<◌, length};
ghost use Rattle.line_place.specs.Place as place;
ghost use Rattle.read_line.specs.Way.Walk.{Stepping};
ghost use Rattle.doc.specs.Lines.{lines_at};
ghost use Rattle.doc.specs.Document.{side_in};
ghost use Rattle.doc.specs.Way.Found.{Located, extent_of, line_in};
ghost use Rattle.doc.specs.Way.Staged.{staged_step};
ghost use Rattle.read_path.specs.Way.Path.{fork_step, step_said, named_step, Starts, Parsed, Worded, TakesStep, GoesPath};
ghost use Rattle.read_path.specs.Way.Block.{EndsLevel, EndsBlock};

use doc::{Extent, Found};
use lex_line::Line;
use line_path::{Path, PathParts};
use read_line::Front;
use table_record::stage::StagedStep;

// The result of a line of a path, with only the part of the state that such a line changes. A line with a bracket is
// not taken here. For a line that is taken: the rule that it breaks, and the path and the count of steps after it.
#[derive(Clone, Copy)]
pub struct Stepped {
    pub taken: bool,
    pub rule: u64,
    pub path: Path,
    pub steps: u64,
}

// Where the lines of a path end, or the line that breaks a rule, and the result up to there.
#[derive(Clone, Copy)]
pub struct PathWalk {
    pub at: usize,
    pub line: u64,
    pub part: Stepped,
}

// ---- the Side of an end

// The name of a Side; 0 0 where the line is none.
fn side_in(text: &[u8], line: Found) -> Extent
    requires { Located text.now line }
    ensures { result ≡ extent_of (side_in (line_in text.now line place.path ∷ [])) }
{
    if line.key != doc::PLAIN {
        return Extent { start: 0, size: 0 };
    }
    let at = line.at;
    let end = line.end;
    let content = &text[at..end];
    if line_path::saying_of(lex_line::first_word(content)) != line_path::SIDE {
        return Extent { start: 0, size: 0 };
    }
    doc::second_extent(content, at)
}

// "perhaps with `Side name` as the next line read".
fn side_after(text: &[u8], at: usize, first_line: u64) -> Extent
    requires { (at ≤ length text.now) × (first_line ≤ at + 1) }
    ensures { result ≡ extent_of (side_in (lines_at text.now first_line at place.path)) }
{
    let line = doc::next_line(text, at, first_line);
    if !line.there {
        return Extent { start: 0, size: 0 };
    }
    side_in(text, line)
}

// ---- the step of a line

// An end or a section: its name stands in the line that starts at `at`.
fn named_step(kind: u64, at: usize, line: u64, parts: PathParts, side: Extent) -> StagedStep
    requires { (parts.name.start ≤ parts.name.end) × (at + parts.name.end < 2 ^ 63) }
    ensures { result ≡ named_step kind at line parts side }
{
    let name = parts.name;
    StagedStep {
        kind,
        name: (at + name.start) as u64,
        name_size: (name.end - name.start) as u64,
        amount: parts.amount,
        mult: parts.mult as u64,
        side: side.start as u64,
        side_size: side.size as u64,
        line,
    }
}

// A fork or an endfork.
fn fork_step(kind: u64, line: u64) -> StagedStep
    ensures { result ≡ staged_step (fork_step kind line) }
{
    StagedStep {
        kind,
        name: 0,
        name_size: 0,
        amount: 0,
        mult: 0,
        side: 0,
        side_size: 0,
        line,
    }
}

// The step of a line that is not a Side.
fn step_of(text: &[u8], at: usize, line: u64, ends: Line, parts: PathParts) -> StagedStep
    requires { Parsed text.now line at ends parts }
    ensures { result ≡ staged_step (step_said text.now line at parts.line.says) }
{
    let said = parts.line;
    if said.says == line_path::END {
        let side = side_after(text, ends.next, line + 1);
        return named_step(table_layout::code::END, at, line, parts, side);
    }
    if said.says == line_path::SECTION {
        let side = Extent { start: 0, size: 0 };
        return named_step(table_layout::code::SECTION, at, line, parts, side);
    }
    if said.says == line_path::FORK {
        return fork_step(table_layout::code::FORK, line);
    }
    fork_step(table_layout::code::ENDFORK, line)
}

// ---- a line of a path

// A line with words and no bracket at its front. A Side is part of the step above it.
fn path_line(
    text: &[u8],
    at: usize,
    line: u64,
    ends: Line,
    path: Path,
    steps: u64,
    stage: &mut [u64],
) -> Stepped
    requires { Worded text.now line at ends × Stepping path steps }
    ensures { TakesStep text.now at line path steps stage.old result stage.new }
{
    let end = ends.content;
    let parts = line_path::path_line(&text[at..end]);
    let said = parts.line;
    let rule = line_path::path_rule(said, path, steps);
    if rule != 0 {
        return Stepped {
            taken: true,
            rule,
            path,
            steps,
        };
    }
    let next = line_path::path_next(said, path);
    if said.says == line_path::SIDE {
        return Stepped {
            taken: true,
            rule: 0,
            path: next,
            steps,
        };
    }
    let step = step_of(text, at, line, ends, parts);
    table_record::stage::put(stage, steps, step);
    Stepped {
        taken: true,
        rule: 0,
        path: next,
        steps: steps + 1,
    }
}

// A line of a path; one with a bracket is not taken.
fn take_step(
    text: &[u8],
    at: usize,
    line: u64,
    ends: Line,
    path: Path,
    steps: u64,
    stage: &mut [u64],
) -> Stepped
    requires { Starts text.now line at ends × Stepping path steps }
    ensures { TakesStep text.now at line path steps stage.old result stage.new }
{
    let end = ends.content;
    match read_line::front_of(&text[at..end]) {
        Front::Blanks => Stepped {
            taken: true,
            rule: 0,
            path,
            steps,
        },
        Front::Words => path_line(text, at, line, ends, path, steps, stage),
        Front::Opening => Stepped {
            taken: false,
            rule: 0,
            path,
            steps,
        },
    }
}

// ---- lines of a path

// Reads lines of a path. It stops after a line that opens or closes a fork block or breaks a rule, or before a bracket.
fn pass_path(
    text: &[u8],
    at: usize,
    line: u64,
    path: Path,
    steps: u64,
    stage: &mut [u64],
) -> PathWalk
    requires { (at ≤ length text.now) × (line ≤ at + 1) × Stepping path steps }
    ensures { GoesPath text.now at line path steps stage.old result stage.new
        × EndsLevel text.now (record { at = at; line = line; path = path; steps = steps }) result }
{
    let depth = path.depth;
    let mut here = at;
    let mut line_here = line;
    let mut part = Stepped {
        taken: true,
        rule: 0,
        path,
        steps,
    };
    // No for: each turn finds where the next line starts.
    while here < text.len() {
        let ends = lex_line::line_at(text, here, lex_line::COMMENT);
        let next = take_step(text, here, line_here, ends, part.path, part.steps, stage);
        if !next.taken {
            return PathWalk {
                at: here,
                line: line_here,
                part,
            };
        }
        here = ends.next;
        part = next;
        if part.rule != 0 {
            return PathWalk {
                at: here,
                line: line_here,
                part,
            };
        }
        line_here += 1;
        let reached = part.path;
        if reached.depth != depth {
            return PathWalk {
                at: here,
                line: line_here,
                part,
            };
        }
    }
    PathWalk {
        at: here,
        line: line_here,
        part,
    }
}

// Reads the lines of a fork block, up to and including the Endfork that closes it, or up to a line that breaks a rule, or
// before a bracket. The function calls itself for an inner block. With each call the depth rises, and it is at most 8, so
// the calls come to an end. The path itself is the outermost block.
pub fn pass_block(
    text: &[u8],
    at: usize,
    line: u64,
    path: Path,
    steps: u64,
    stage: &mut [u64],
) -> PathWalk
    requires { (at ≤ length text.now) × (line ≤ at + 1) × Stepping path steps }
    ensures { GoesPath text.now at line path steps stage.old result stage.new
        × EndsBlock text.now (record { at = at; line = line; path = path; steps = steps }) result }
{
    let mut here = at;
    let mut line_here = line;
    let mut part = Stepped {
        taken: true,
        rule: 0,
        path,
        steps,
    };
    loop {
        let walk = pass_path(text, here, line_here, part.path, part.steps, stage);
        let come = walk.part;
        let reached = come.path;
        if come.rule != 0 {
            return walk;
        }
        if reached.depth <= path.depth {
            return walk;
        }
        let inner = pass_block(text, walk.at, walk.line, reached, come.steps, stage);
        let inside = inner.part;
        let after = inside.path;
        if inside.rule != 0 {
            return inner;
        }
        if path.depth < after.depth {
            return inner;
        }
        here = inner.at;
        line_here = inner.line;
        part = inside;
    }
}
