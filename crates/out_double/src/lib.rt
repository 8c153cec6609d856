// Request 11, "Curves in the browser": the double of a value word, and the doubles of a frequency and a value, for a
// plotting panel. A double comes from one rounded operation on exact numbers; a word that does not allow that is outside.
#![tactic(auto)]

ghost use Rattle.std.specs.Prelude.{◌≡◌, true, ◌+◌, ◌-◌, ◌≤◌, ◌^◌};
ghost use Rattle.lex_number.specs.ValueWord.{decimal_of};
ghost use Rattle.out_double.specs.Double.{span, as_double, scaled, double, is_drawn, drawn_of, paired};

// The least and the greatest k that are drawn, as k + 64.
const LEAST: u64 = 64 - 22;

const MOST: u64 = 64 + 22;

// The powers of ten that a double holds exactly; it does not hold ten to the 23.
const TENS: [f64; 23] = [
    1e0, 1e1, 1e2, 1e3, 1e4, 1e5, 1e6, 1e7, 1e8, 1e9, 1e10, 1e11, 1e12, 1e13, 1e14, 1e15, 1e16,
    1e17, 1e18, 1e19, 1e20, 1e21, 1e22,
];

fn power(k: u64) -> f64
    requires { k ≤ span }
    ensures { result ≡ as_double (10 ^ k) }
{
    TENS[k as usize]
}

// m times ten to the k, where `shifted` is k + 64. Both numbers are exact, so that only the operation rounds.
fn scaled(size: u64, shifted: u64) -> f64
    requires exact_size { size ≤ 2 ^ 53 }
    requires not_too_low { 64 - span ≤ shifted }
    requires not_too_high { shifted ≤ 64 + span }
    ensures { result ≡ scaled size shifted }
{
    let exact = size as f64;
    if shifted < 64 {
        exact / power(64 - shifted)
    } else {
        exact * power(shifted - 64)
    }
}

// Whether a word is a value word with k from -22 to 22.
#[tactic(auto, using(crate::proofs::DrawLaws::in_span, crate::proofs::DrawLaws::too_low, crate::proofs::DrawLaws::too_high, crate::proofs::DrawLaws::no_word))]
fn is_drawn(word: u64) -> bool
    ensures { result ≡ is_drawn word }
{
    lex_number::is_value_word(word) && matches!(lex_number::decimal_of(word).shifted, LEAST..=MOST)
}

// The operation on m and k, and then the sign.
fn double(word: u64) -> f64
    requires { is_drawn word ≡ true }
    ensures { result ≡ double (decimal_of word) }
{
    let parts = lex_number::decimal_of(word);
    let size = scaled(parts.size, parts.shifted);
    if parts.negative { -size } else { size }
}

// The double of a word; None if it is outside.
pub fn double_of(word: u64) -> Option<f64>
    ensures { result ≡ drawn_of word }
{
    if is_drawn(word) {
        Some(double(word))
    } else {
        None
    }
}

// The doubles of a frequency and a value; None if either is outside.
pub fn pair_of(frequency: u64, value: u64) -> Option<(f64, f64)>
    ensures { result ≡ paired (drawn_of frequency) (drawn_of value) }
{
    double_of(frequency).zip(double_of(value))
}
