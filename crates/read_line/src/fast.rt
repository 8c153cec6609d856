// Lines that change nothing, skipped without the state: blank lines, comments, and the good lines of a model list.
// Any other line is left to `read_single`.
ghost use Rattle.std.specs.Prelude.{◌≡◌, true, false, ◌<◌};
ghost use Rattle.read_line.specs.Way.Listed.{is_free};
ghost use Rattle.lex_line.specs.Words.{words, first_of};
ghost use Rattle.line_argument.specs.Argument.{is_reserved};
ghost use Rattle.lex_keyword.specs.Bracket.{bracket_of};
ghost use Rattle.lex_keyword.specs.declared.Bracket.TheVariants.{Plain, Indented, Keyword};

use lex_keyword::Bracket;

// If a line starts with such a byte, it has no bracket at its front and its first word is not reserved.
fn is_free(b: u8) -> bool
    ensures { result ≡ is_free b }
{
    if b <= b' ' {
        return false;
    }
    if b == crate::OPENING {
        return false;
    }
    !line_argument::starts_reserved(b)
}

// A line of the model list that breaks no rule.
fn reads_listed(content: &[u8]) -> bool
    ensures { result ≡ true → (bracket_of content.now ≡ Plain) × (is_reserved (first_of (words content.now)) ≡ false) }
{
    match lex_keyword::read_bracket(content) {
        Bracket::Plain => !line_argument::is_reserved(lex_line::first_word(content)),
        Bracket::Indented => false,
        Bracket::Bad => false,
        Bracket::Unknown => false,
        Bracket::Later => false,
        Bracket::Keyword(_, _) => false,
    }
}

// The same test. For most lines the first byte decides it.
pub fn is_listed(content: &[u8]) -> bool
    ensures { result ≡ true → (bracket_of content.now ≡ Plain) × (is_reserved (first_of (words content.now)) ≡ false) }
{
    if is_free(base::byte_at(content, 0)) {
        return true;
    }
    reads_listed(content)
}

// A cheap test, by the first byte, whether a line may change nothing: the lines of the model list mostly do; elsewhere
// the byte must show an empty line or a comment.
pub fn may_be_idle(text: &[u8], at: usize, place: u64) -> bool {
    if place == line_place::LIST {
        return true;
    }
    let first = base::byte_at(text, at);
    if first == lex_line::LINE_FEED {
        return true;
    }
    if first == crate::CARRIAGE_RETURN {
        return true;
    }
    first == lex_line::COMMENT
}
