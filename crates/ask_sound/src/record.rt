// What the words of one record must be in a sound table.
ghost use Rattle.std.specs.Prelude.{◌≡◌};
ghost use Rattle.ask_sound.specs.Tests.{is_range, is_name_in, has_no_side, is_side, is_length_word, amount_fits, is_grid, is_bandwidth};

// The value word of zero.
const ZERO: u64 = 128;

// Whether the range of `many` elements from `first` on lies inside `all` elements. It takes no sum, which might wrap.
pub fn is_range(first: u64, many: u64, all: u64) -> bool
    ensures { result ≡ is_range first many all }
{
    if all < many {
        return false;
    }
    first <= all - many
}

// Whether a name of 1 to 120 bytes lies inside a text of `bytes` bytes.
pub fn is_name_in(bytes: u64, start: u64, size: u64) -> bool
    ensures { result ≡ is_name_in bytes start size }
{
    if !lex_number::is_within(1, table_layout::bound::NAME, size) {
        return false;
    }
    is_range(start, size, bytes)
}

pub fn has_no_side(start: u64, size: u64) -> bool
    ensures { result ≡ has_no_side start size }
{
    if start != 0 {
        return false;
    }
    size == 0
}

// The side of an end: none, or a name.
pub fn is_side(bytes: u64, start: u64, size: u64) -> bool
    ensures { result ≡ is_side bytes start size }
{
    if has_no_side(start, size) {
        return true;
    }
    is_name_in(bytes, start, size)
}

// A value word above zero.
fn is_length(word: u64) -> bool
    ensures { result ≡ is_length_word word }
{
    if !lex_number::is_value_word(word) {
        return false;
    }
    if word == ZERO {
        return false;
    }
    word % 2 == 0
}

// Whether the amount of a step fits the section's method: a Mult if it is Lumped, a length if it is Distributed.
pub fn amount_fits(method: u64, amount: u64) -> bool
    ensures { result ≡ amount_fits method amount }
{
    if method == table_layout::code::LUMPED {
        return lex_number::is_within(1, table_layout::bound::MULT, amount);
    }
    is_length(amount)
}

// Whether rows and columns fit the order of a map.
pub fn is_grid(order: u64, rows: u64, columns: u64) -> bool
    ensures { result ≡ is_grid order rows columns }
{
    if order == table_layout::code::UN_ORDERED {
        if rows != 0 {
            return false;
        }
        return columns == 0;
    }
    if !lex_number::is_within(1, table_layout::bound::MAP_PINS, rows) {
        return false;
    }
    lex_number::is_within(1, table_layout::bound::MAP_PINS, columns)
}

pub fn is_bandwidth(form: u64, bandwidth: u64) -> bool
    ensures { result ≡ is_bandwidth form bandwidth }
{
    if form == table_layout::code::BANDED {
        return bandwidth <= table_layout::bound::BANDWIDTH;
    }
    bandwidth == 0
}
