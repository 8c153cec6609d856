// The short way to the most frequent keyword.
ghost use Rattle.std.specs.Prelude.{◌≡◌, ◌<◌};
ghost use Rattle.lex_keyword.specs.Way.Reading.{is_row};

// Whether a bracket in column 1 is `[Row]`, the most frequent keyword in its usual spelling: `Row]` after the first
// byte, and then a blank or the end of the line.
pub fn is_row(content: &[u8]) -> bool
    ensures { result ≡ is_row content.now }
{
    if content.len() <= 4 {
        return false;
    }
    if content[1] != b'R' {
        return false;
    }
    if content[2] != b'o' {
        return false;
    }
    if content[3] != b'w' {
        return false;
    }
    if content[4] != b']' {
        return false;
    }
    crate::closes_at(content, 4)
}
