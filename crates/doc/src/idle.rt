// Lines that change nothing: blank lines, comments, and the good lines of the model list. Beside the reading this tells
// which lines of the document they are.
ghost use Rattle.std.specs.Prelude.{◌≡◌, true, false, ◌+◌, ◌≤◌, length};
ghost use Rattle.doc.specs.Way.Idle.{IsIdle, SkipsIdle};

use lex_line::fast::Past;

fn is_idle(content: &[u8], place: u64) -> bool
    ensures { result ≡ true → IsIdle content.now place }
{
    if read_line::is_blank_line(content) {
        return true;
    }
    if place == line_place::LIST {
        return read_line::fast::is_listed(content);
    }
    false
}

// Skips lines that change nothing. Of the state only the place is needed.
pub fn skip_idle(text: &[u8], at: usize, line: u64, place: u64) -> Past
    requires { (at ≤ length text.now) × (line ≤ at + 1) }
    ensures { SkipsIdle text.now at line place result }
{
    let mut here = at;
    let mut line_here = line;
    // No for: each turn finds where the next line starts.
    while here < text.len() {
        if !read_line::fast::may_be_idle(text, here, place) {
            return Past {
                at: here,
                line: line_here,
            };
        }
        let found = lex_line::line_at(text, here, lex_line::COMMENT);
        let content = found.content;
        if !is_idle(&text[here..content], place) {
            return Past {
                at: here,
                line: line_here,
            };
        }
        here = found.next;
        line_here += 1;
    }
    Past {
        at: here,
        line: line_here,
    }
}
