//! The words of a line.
ghost use Rattle.std.specs.Prelude.{◌≡◌, ◌∷◌, [], ◌<◌, length, MatchOption, IfSome, IfNone};
ghost use Rattle.std.specs.Option.{option_copied};
ghost use Rattle.line_words.specs.Words.{spelled_number, parts};
ghost use Rattle.line_words.specs.Rests.{digits_from, parts_left};

/// What stands before the first such byte, and what stands after it, where there is one.
pub fn split_first(bytes: &[u8], byte: u8) -> (&[u8], Option<&[u8]>)
    ensures parts { parts byte bytes.now ≡ result.0.now ∷ parts_left byte (option_copied result.1) }
    ensures whole { IfNone result.1 (result.0.now ≡ bytes.now) }
    ensures shorter { IfSome result.1 (λ rest. length rest.now < length bytes.now) }
{
    for (place, found) in bytes.iter().enumerate() {
        if *found == byte {
            return (&bytes[..place], Some(&bytes[place + 1..]));
        }
    }
    (bytes, None)
}

/// The number that a word spells: decimal digits below 2 to the 64, with no leading zero.
pub fn number(word: &[u8]) -> Option<u64>
    ensures { result ≡ spelled_number word.now }
{
    if word.is_empty() {
        return None;
    }
    if word[0] == b'0' && word.len() > 1 {
        return None;
    }
    digits(word)
}

/// The number that digits write, below 2 to the 64.
fn digits(word: &[u8]) -> Option<u64>
    ensures { result ≡ digits_from 0 word.now }
{
    let mut value = 0u64;
    for digit in word {
        if !digit.is_ascii_digit() {
            return None;
        }
        value = value
            .checked_mul(10)?
            .checked_add(u64::from(*digit - b'0'))?;
    }
    Some(value)
}
