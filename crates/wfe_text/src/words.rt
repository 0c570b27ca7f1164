// The words of a line, and the numbers among them.
ghost use Rattle.std.specs.Prelude.{◌≡◌, ◌≢◌, ◌<◌, ◌≤◌, ◌∷◌, ℕ, option_map, None, Some, length, slice_index, ◌+◌, ◌-◌, ◌*◌, ◌&&◌, if◌then◌else◌, nat_lt};
ghost use Rattle.std.specs.Str.{bytes_eq};
ghost use Rattle.wfe_text.specs.Words.{words, words_after, Shows, is_digit, digits_in, number_in};

/// The words between the single spaces of a line, where there are at most five.
#[derive(Clone, Copy)]
pub enum Words<'a> {
    One(&'a [u8]),
    Two(&'a [u8], &'a [u8]),
    Three(&'a [u8], &'a [u8], &'a [u8]),
    Four(&'a [u8], &'a [u8], &'a [u8], &'a [u8]),
    Five(&'a [u8], &'a [u8], &'a [u8], &'a [u8], &'a [u8]),
    More,
}

// The index of the first space, or the length where there is none.
fn space_at(bytes: &[u8]) -> usize
    ensures within { result ≤ length bytes.now }
    ensures before { (k : ℕ) → k < result → slice_index bytes.now k ≢ 32 }
    ensures found { result < length bytes.now → slice_index bytes.now result ≡ 32 }
{
    for (i, byte) in bytes.iter().enumerate() {
        if *byte == b' ' {
            return i;
        }
    }
    bytes.len()
}

// The first word, and what stands after its space.
fn split(bytes: &[u8]) -> (&[u8], Option<&[u8]>)
    ensures { words bytes.now ≡ result.0.now ∷ words_after (option_map (λ rest. rest.now) result.1) }
{
    let at = space_at(bytes);
    if at < bytes.len() {
        (&bytes[..at], Some(&bytes[at + 1..]))
    } else {
        (bytes, None)
    }
}

/// The words of a line.
pub fn words_of(bytes: &[u8]) -> Words<'_>
    ensures { Shows result (words bytes.now) }
{
    let (first, rest) = split(bytes);
    let Some(rest) = rest else {
        return Words::One(first);
    };
    let (second, rest) = split(rest);
    let Some(rest) = rest else {
        return Words::Two(first, second);
    };
    let (third, rest) = split(rest);
    let Some(rest) = rest else {
        return Words::Three(first, second, third);
    };
    let (fourth, rest) = split(rest);
    let Some(rest) = rest else {
        return Words::Four(first, second, third, fourth);
    };
    match split(rest) {
        (fifth, None) => Words::Five(first, second, third, fourth, fifth),
        (_, Some(_)) => Words::More,
    }
}

// The number with one more digit, where the byte is one and the number has 64 bits.
fn with_digit(number: u64, byte: u8) -> Option<u64>
    ensures { result ≡ (if is_digit byte && nat_lt (10 * number + (byte - 48)) 18446744073709551616
        then Some (10 * number + (byte - 48)) else None) }
{
    if byte.is_ascii_digit() {
        number.checked_mul(10)?.checked_add((byte - b'0') as u64)
    } else {
        None
    }
}

// The number of a word of any length.
fn long_digits(word: &[u8]) -> Option<u64>
    ensures { result ≡ digits_in word.now }
{
    let mut number: u64 = 0;
    for byte in word {
        match with_digit(number, *byte) {
            Some(more) => number = more,
            None => return None,
        }
    }
    Some(number)
}

// The number of a word of so few digits that it has 64 bits whatever they are.
fn few_digits(word: &[u8]) -> Option<u64>
    requires { length word.now ≤ 19 }
    ensures { result ≡ digits_in word.now }
{
    let mut number: u64 = 0;
    for byte in word {
        if !byte.is_ascii_digit() {
            return None;
        }
        number = 10 * number + (*byte - b'0') as u64;
    }
    Some(number)
}

// The number of a word of digits.
fn digits_of(word: &[u8]) -> Option<u64>
    ensures { result ≡ digits_in word.now }
{
    if word.len() <= 19 {
        few_digits(word)
    } else {
        long_digits(word)
    }
}

/// The number that a word writes: decimal digits without a leading zero, below 2^64.
#[inline(always)]
pub fn number_of(word: &[u8]) -> Option<u64>
    ensures { result ≡ number_in word.now }
{
    match word {
        [] | [b'0', _, ..] => None,
        [digit] => with_digit(0, *digit),
        _ => digits_of(word),
    }
}

/// Whether a word is the one that is named.
pub fn is(word: &[u8], name: &[u8]) -> bool
    ensures { result ≡ bytes_eq word.now name.now }
{
    word == name
}
