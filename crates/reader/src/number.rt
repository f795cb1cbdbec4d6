// Words as numbers.
ghost use Rattle.std.specs.Prelude.{◌≡◌, ℕ, ◌^◌, ◌<◌, Some, decimal, ◌∷◌, []};
ghost use Rattle.reader.specs.Numbers.{number_of, number_from, plain};

// The number `n` with one more digit; none where the byte is no digit, or the number too large.
fn with_digit(n: u32, byte: u8) -> Option<u32>
    ensures { result ≡ number_from n (byte ∷ []) }
{
    let digit = char::from(byte).to_digit(10)?;
    n.checked_mul(10)?.checked_add(digit)
}

// Whether a word has bytes, and no 0 in front of others.
fn well_led(word: &[u8]) -> bool
    ensures { result ≡ plain word.now }
{
    !matches!(word, [] | [b'0', _, ..])
}

// The number that a word writes, or none.
pub(crate) fn number(word: &[u8]) -> Option<u32>
    ensures value { result ≡ number_of word.now }
    ensures written { (n : ℕ) → (result ≡ Some n → (word.now ≡ decimal n) × (n < 2 ^ 32)) × (word.now ≡ decimal n → n < 2 ^ 32 → result ≡ Some n) }
{
    if !well_led(word) {
        return None;
    }
    word.iter().try_fold(0, |n, byte| with_digit(n, *byte))
}
