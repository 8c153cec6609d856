// Lines of a path in their usual form, known at once: `Section Mult=n name` with single blanks, `Fork`, `Endfork`.
// Each function says nothing of any other form; the general reading of lib.rt takes those.
ghost use Rattle.std.specs.Prelude.{◌≡◌, true, ◌-◌};
ghost use Rattle.line_path.specs.Way.Parts.{parts_of};
ghost use Rattle.line_path.specs.Way.Usual.{OpensMult, Paired, UsualSection, UsualFork};

use crate::PathParts;
use lex_line::Span;

// The bytes of `Section `, `on Mult=`, `Fork`, `Endf` and `fork`, each as one number.
const SECTION_BYTES: u64 = 2_336_927_755_366_786_387;

const MULT_BYTES: u64 = 4_428_283_584_672_984_687;

const FORK_BYTES: u64 = 1_802_661_702;

const ENDF_BYTES: u64 = 1_717_857_861;

const SMALL_FORK_BYTES: u64 = 1_802_661_734;

// Where the amount starts in a Section line of the usual form, `Section Mult=n name`.
pub const AMOUNT_AT: usize = 13;

// Whether a line starts with `Section Mult=`, written with one space.
pub fn opens_mult(content: &[u8]) -> bool
    ensures { result ≡ true → OpensMult content.now }
{
    if content.len() < AMOUNT_AT {
        return false;
    }
    if base::fast::eight_at(content, 0) != SECTION_BYTES {
        return false;
    }
    base::fast::eight_at(content, 5) == MULT_BYTES
}

// If s is two words with one blank between them and no other blank, where the first word ends; else 0.
fn pair_end(s: &[u8]) -> usize
    ensures { (result ≡ 0 → ⊥) → Paired s.now result }
{
    let end = base::past_word(s, 0);
    if s.len() <= end {
        return 0;
    }
    let name = end + 1;
    let stop = base::past_word(s, name);
    if stop == name {
        return 0;
    }
    if stop != s.len() {
        return 0;
    }
    end
}

// Where the amount ends in a Section line of the usual form, `Section Mult=n name`; 0 for any other form.
pub fn usual_amount(content: &[u8]) -> usize
    ensures { (result ≡ 0 → ⊥) → UsualSection content.now result }
{
    if !opens_mult(content) {
        return 0;
    }
    let end = pair_end(&content[AMOUNT_AT..]);
    if end == 0 {
        return 0;
    }
    AMOUNT_AT + end
}

// `Fork` or `Endfork` alone; NOTHING for any other form.
pub fn usual_fork(content: &[u8]) -> u64
    ensures { (result ≡ 0 → ⊥) → UsualFork content.now result }
{
    if content.len() == 4 {
        if base::fast::four_at(content, 0) == FORK_BYTES {
            return crate::FORK;
        }
        return crate::NOTHING;
    }
    if content.len() != 7 {
        return crate::NOTHING;
    }
    if base::fast::four_at(content, 0) != ENDF_BYTES {
        return crate::NOTHING;
    }
    if base::fast::four_at(content, 3) != SMALL_FORK_BYTES {
        return crate::NOTHING;
    }
    crate::ENDFORK
}

// Reads a Section line of the usual form, whose amount ends at `end`. The name goes to the end of the line.
pub fn usual_line(content: &[u8], end: usize) -> PathParts
    requires { UsualSection content.now end }
    ensures { result ≡ parts_of content.now }
{
    let name = end + 1;
    if line_argument::is_reserved(&content[name..]) {
        return crate::plain_line(crate::SECTION, false);
    }
    let span = Span {
        start: name,
        end: content.len(),
    };
    crate::amount_line(true, &content[AMOUNT_AT..end], span)
}
