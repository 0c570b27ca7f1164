// A line of text in the making, in an array of its own.
ghost use Rattle.std.specs.Prelude.{◌≡◌, ◌<◌, ◌≤◌, ◌+◌, [], ◌∷◌, ◌++◌, List, length, take, drop};
ghost use Rattle.std.specs.Fmt.{decimal};

use std::marker::Model;

/// A line of at most 1,024 bytes.
#[derive(Drop)]
pub struct Line {
    bytes: [u8; 1024],
    len: usize,
}

impl Model for Line {
    ghost use Rattle.std.specs.Prelude.{◌≤◌, ℕ, List, take};

    ghost Value = { List ℕ };

    ghost view = { λ l. take l.len l.bytes };

    ghost invariant = { λ l. l.len ≤ 1024 };
}

impl Line {
    /// An empty line.
    pub fn new() -> Line
        ensures { result ≡ [] }
    {
        Line {
            bytes: [0; 1024],
            len: 0,
        }
    }

    pub fn bytes(&self) -> &[u8]
        ensures { result.now ≡ self.now }
    {
        &self.bytes[..self.len]
    }

    /// Empties the line.
    pub fn clear(&mut self)
        ensures { self.new ≡ [] }
    {
        self.len = 0;
    }

    /// Appends one byte.
    pub(crate) fn push(&mut self, byte: u8)
        requires { length self.old < 1024 }
        ensures { self.new ≡ self.old ++ byte ∷ [] }
    {
        self.bytes[self.len] = byte;
        self.len += 1;
    }

    /// Appends the bytes.
    pub fn text(&mut self, bytes: &[u8])
        requires { length self.old + length bytes.now ≤ 1024 }
        ensures { self.new ≡ self.old ++ bytes.now }
    {
        let end = self.len + bytes.len();
        self.bytes[self.len..end].copy_from_slice(bytes);
        self.len = end;
    }

    // Appends a number of one digit or two.
    #[inline(always)]
    #[tactic(auto, using(crate::proofs::Digits::digit_steps))]
    fn two_digits(&mut self, number: u64)
        requires few { number < 100 }
        requires room { length self.old + length (decimal number) ≤ 1024 }
        ensures { self.new ≡ self.old ++ decimal number }
    {
        if number < 10 {
            self.push(b'0' + number as u8);
        } else {
            self.push(b'0' + (number / 10) as u8);
            self.push(b'0' + (number % 10) as u8);
        }
    }

    // Appends a number of three digits.
    #[inline(always)]
    #[tactic(auto, using(crate::proofs::Digits::tenth_steps))]
    fn three_digits(&mut self, number: u64)
        requires more { 100 ≤ number }
        requires few { number < 1000 }
        requires room { length self.old + length (decimal number) ≤ 1024 }
        ensures { self.new ≡ self.old ++ decimal number }
    {
        self.two_digits(number / 10);
        self.push(b'0' + (number % 10) as u8);
    }

    // Appends a number of four digits.
    #[inline(always)]
    #[tactic(auto, using(crate::proofs::Digits::tenth_steps))]
    fn four_digits(&mut self, number: u64)
        requires more { 1000 ≤ number }
        requires few { number < 10000 }
        requires room { length self.old + length (decimal number) ≤ 1024 }
        ensures { self.new ≡ self.old ++ decimal number }
    {
        self.three_digits(number / 10);
        self.push(b'0' + (number % 10) as u8);
    }

    /// Appends the number in decimal, without leading zeros.
    #[tactic(auto, using(crate::proofs::Digits::digit_steps))]
    pub fn number(&mut self, number: u64)
        requires { length self.old + length (decimal number) ≤ 1024 }
        ensures { self.new ≡ self.old ++ decimal number }
    {
        if number < 100 {
            self.two_digits(number);
        } else if number < 1000 {
            self.three_digits(number);
        } else if number < 10_000 {
            self.four_digits(number);
        } else {
            let mut digits = [0; 20];
            let start = write_digits(number, &mut digits);
            self.text(&digits[start..]);
        }
    }
}

// Writes the digits from the last to the first so that they end where the array does, and answers
// where they start.
fn write_digits(number: u64, digits: &mut [u8; 20]) -> usize
    ensures within { result ≤ 20 }
    ensures written { drop result digits.new ≡ decimal number }
{
    let mut left = number;
    let mut at = digits.len();
    while left >= 10 {
        at -= 1;
        digits[at] = b'0' + (left % 10) as u8;
        left /= 10;
    }
    at -= 1;
    digits[at] = b'0' + left as u8;
    at
}
