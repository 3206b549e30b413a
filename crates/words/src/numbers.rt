// Decimal numbers.
ghost use Rattle.std.specs.Prelude.{◌≡◌, ◌-◌, ◌^◌, min, if◌then◌else◌, Some, None};
ghost use Rattle.words.specs.Numbers.{is_number, value};

// The number that a word of digits writes, or the largest `u64` for one that is larger still.
pub fn number(word: &[u8]) -> Option<u64>
    ensures { result ≡ (if is_number word.now then Some (min (value word.now) (2 ^ 64 - 1)) else None) }
{
    let mut sum: u64 = 0;
    for byte in word {
        if !byte.is_ascii_digit() {
            return None;
        }
        sum = sum
            .saturating_mul(10)
            .saturating_add(u64::from(*byte - b'0'));
    }
    // A word with no byte passes the loop, and is no number.
    if word.is_empty() { None } else { Some(sum) }
}
