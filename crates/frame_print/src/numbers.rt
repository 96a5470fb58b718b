// Numbers in decimal, written where they wait.
ghost use Rattle.std.specs.Prelude.{◌≡◌, ◌<◌, ◌≤◌, ◌+◌, ◌/◌, ◌%◌, ◌∷◌, ◌++◌, [], length};
ghost use Rattle.std.specs.Fmt.{decimal, signed_decimal};
ghost use Rattle.frame_print.specs.declared.waiting.TheConstants.{ROOM};
ghost use Rattle.frame_print.specs.declared.numbers.TheConstants.{LONGEST_NUMBER};

use crate::waiting::Waiting;
use itoa::Buffer;

/// The bytes of the longest number, which is the least one.
pub const LONGEST_NUMBER: usize = 20;

impl Waiting {
    // Lets two digits wait.
    #[inline(always)]
    fn keep_two_digits(&mut self, n: u64)
        requires number { n < 100 }
        requires room { length self.old + 2 ≤ ROOM }
        ensures { self.new ≡ self.old ++ (48 + n / 10) ∷ (48 + n % 10) ∷ [] }
    {
        self.keep_byte(b'0' + n as u8 / 10);
        self.keep_byte(b'0' + n as u8 % 10);
    }

    // Lets a number of one to four digits wait.
    #[inline(always)]
    fn keep_short_number(&mut self, n: u64)
        requires number { n < 10000 }
        requires room { length self.old + 4 ≤ ROOM }
        ensures text { self.new ≡ self.old ++ decimal n }
        ensures most { length self.new ≤ length self.old + 4 }
    {
        if n < 10 {
            self.keep_byte(b'0' + n as u8);
        } else if n < 100 {
            self.keep_two_digits(n);
        } else if n < 1_000 {
            self.keep_byte(b'0' + (n / 100) as u8);
            self.keep_two_digits(n % 100);
        } else {
            self.keep_two_digits(n / 100);
            self.keep_two_digits(n % 100);
        }
    }

    // Lets a number wait that `itoa` writes, as a copy.
    fn keep_long_number(&mut self, n: i64)
        requires { length self.old + LONGEST_NUMBER ≤ ROOM }
        ensures text { self.new ≡ self.old ++ signed_decimal n }
        ensures most { length self.new ≤ length self.old + LONGEST_NUMBER }
    {
        let mut digits = Buffer::new();
        self.keep(digits.format(n).as_bytes());
    }

    // Lets a line or a job wait that `itoa` writes, as a copy.
    fn keep_long_count(&mut self, n: u32)
        requires { length self.old + LONGEST_NUMBER ≤ ROOM }
        ensures text { self.new ≡ self.old ++ decimal n }
        ensures most { length self.new ≤ length self.old + LONGEST_NUMBER }
    {
        let mut digits = Buffer::new();
        self.keep(digits.format(n).as_bytes());
    }

    /// Lets the number of a line or of a job wait, one of up to four digits in place.
    #[inline(always)]
    pub fn keep_count(&mut self, n: u32)
        requires { length self.old + LONGEST_NUMBER ≤ ROOM }
        ensures text { self.new ≡ self.old ++ decimal n }
        ensures most { length self.new ≤ length self.old + LONGEST_NUMBER }
    {
        if n >= 10_000 {
            return self.keep_long_count(n);
        }
        self.keep_short_number(u64::from(n));
    }

    /// Lets a number wait. One of up to four digits that isn't negative is written in place, which costs less than a
    /// copy, and without a call, which is a fifth of what a number costs.
    #[inline(always)]
    pub fn keep_number(&mut self, n: i64)
        requires { length self.old + LONGEST_NUMBER ≤ ROOM }
        ensures text { self.new ≡ self.old ++ signed_decimal n }
        ensures most { length self.new ≤ length self.old + LONGEST_NUMBER }
    {
        if n < 0 || n >= 10_000 {
            return self.keep_long_number(n);
        }
        self.keep_short_number(n as u64);
    }
}
