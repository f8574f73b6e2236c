// Numerals in base ten, of any length.
ghost use Rattle.std.specs.Prelude.{◌≡◌, min, if◌then◌else◌, Some, None};
ghost use Rattle.format.specs.Numbers.{read_on, plain, numeral as numeral_of};
ghost use Rattle.bracket.specs.Capped.{capped};

// The number that digits write with no needless zero, at most 1000.
fn magnitude(digits: &[u8]) -> Option<u16>
    ensures { result ≡ (if plain digits.now then Some (min 1000 (read_on 0 digits.now)) else None) }
{
    if let [] | [b'0', _, ..] = digits {
        return None;
    }
    let mut n = 0;
    for d in digits {
        if !d.is_ascii_digit() {
            return None;
        }
        n = (10 * n + u16::from(*d - b'0')).min(1000);
    }
    Some(n)
}

// The number that a word writes with no needless zero or sign, brought between -1000 and 1000.
pub(crate) fn numeral(word: &[u8]) -> Option<i32>
    ensures { result ≡ capped (numeral_of word.now) }
{
    match word {
        [b'-', digits @ ..] => {
            let n = magnitude(digits)?;
            if n == 0 { None } else { Some(-i32::from(n)) }
        }
        _ => magnitude(word).map(i32::from),
    }
}
