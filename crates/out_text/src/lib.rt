// Document 01, "Listing": fields, numbers and values, printed into lent room. Each function writes from offset `at` on
// and returns the next offset. What does not fit is left out. No offset passes the end, so no sum of offsets wraps.
#![tactic(auto)]

ghost use Rattle.std.specs.Prelude.{◌≡◌, ◌∷◌, [], ◌++◌, min};
ghost use Rattle.out_text.specs.Printing.{last_digit, decimal, sign_text, exponent_text, value_text};
ghost use Rattle.out_text.specs.Written.{Written};

pub fn put_byte(out: &mut [u8], at: usize, byte: u8) -> usize
    ensures { Written out.old out.new at result (byte ∷ []) }
{
    if at < out.len() {
        out[at] = byte;
        at + 1
    } else {
        out.len()
    }
}

// What fits of the bytes.
fn put_bytes(out: &mut [u8], at: usize, bytes: &[u8]) -> usize
    ensures { Written out.old out.new at result bytes.now }
{
    let start = at.min(out.len());
    let size = bytes.len().min(out.len() - start);
    // Byte by byte: `copy_from_slice` would have the archive for C ask its host for `memmove`.
    for i in 0..size {
        out[start + i] = bytes[i];
    }
    start + size
}

// A field and the byte after it: the space before the next one, or the end of the line.
pub fn put_field(out: &mut [u8], at: usize, bytes: &[u8], after: u8) -> usize
    ensures { Written out.old out.new at result (bytes.now ++ (after ∷ [])) }
{
    let next = put_bytes(out, at, bytes);
    put_byte(out, next, after)
}

fn last_digit(n: u64) -> u8
    ensures { result ≡ last_digit n }
{
    b'0' + (n % 10) as u8
}

// The last digit is found first, so the digits stand at the end of the buffer.
pub fn put_decimal(out: &mut [u8], at: usize, n: u64, after: u8) -> usize
    ensures { Written out.old out.new at result (decimal n ++ (after ∷ [])) }
{
    let mut digits = [0u8; 20];
    let mut left = n;
    // By index: of a slice behind `iter_mut().rev()` no proof knows what it holds.
    for from in (0..digits.len()).rev() {
        digits[from] = last_digit(left);
        if left < 10 {
            return put_field(out, at, &digits[from..], after);
        }
        left /= 10;
    }
    put_field(out, at, &digits, after)
}

fn put_sign(out: &mut [u8], at: usize, negative: bool) -> usize
    ensures { Written out.old out.new at result (sign_text negative) }
{
    if negative {
        put_byte(out, at, b'-')
    } else {
        at.min(out.len())
    }
}

fn put_exponent(out: &mut [u8], at: usize, shifted: u64, after: u8) -> usize
    ensures { Written out.old out.new at result (exponent_text shifted ++ (after ∷ [])) }
{
    if shifted < 64 {
        let size = put_byte(out, at, b'-');
        put_decimal(out, size, 64 - shifted, after)
    } else {
        put_decimal(out, at, shifted - 64, after)
    }
}

// A value word as m, `e` and k.
pub fn put_value(out: &mut [u8], at: usize, word: u64, after: u8) -> usize
    ensures { Written out.old out.new at result (value_text word ++ (after ∷ [])) }
{
    let parts = lex_number::decimal_of(word);
    let size = put_sign(out, at, parts.negative);
    let exponent = put_decimal(out, size, parts.size, b'e');
    put_exponent(out, exponent, parts.shifted, after)
}
