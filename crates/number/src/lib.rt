// The numbers of a book: decimal below 2^64 without leading zeros, and 16 lowercase hexadecimal digits.
#![tactic(auto)]

ghost use Rattle.std.specs.Prelude.{◌≡◌, ◌≤◌, ◌<◌};
ghost use Rattle.number.specs.Number.{Digit, plain, value_in, decimal_of, hex_of};

// What a byte is worth as a digit: 0 to 15, or 16 where it is none, which no base has: one comparison tests both.
pub fn digit(b: u8) -> u64
    ensures { Digit b result }
{
    if b < 48 {
        return 16;
    }
    if b < 58 {
        return u64::from(b) - 48;
    }
    if b < 97 {
        return 16;
    }
    if b < 103 {
        return u64::from(b) - 87;
    }
    16
}

// The value of digits in a base, if they are digits of it and it fits.
fn value(s: &[u8], base: u64) -> Option<u64>
    requires { (1 ≤ base) × (base ≤ 16) }
    ensures { result ≡ value_in base s.now }
{
    let mut acc: u64 = 0;
    let mut i: usize = 0;
    // no `for`: what shows that a loop which stands still is refused (number/never_ends) is a loop with a step of its own
    while i < s.len() {
        let d = digit(s[i]);
        if base <= d {
            return None;
        }
        if (18446744073709551615 - d) / base < acc {
            return None;
        }
        acc = acc * base + d;
        i += 1;
    }
    Some(acc)
}

// Whether the bytes are not empty and have no leading zero.
fn is_plain(s: &[u8]) -> bool
    ensures { result ≡ plain s.now }
{
    if s.len() == 0 {
        return false;
    }
    if s.len() == 1 {
        return true;
    }
    if s[0] == 48 {
        return false;
    }
    true
}

// A decimal number.
pub fn decimal(s: &[u8]) -> Option<u64>
    ensures { result ≡ decimal_of s.now }
{
    if is_plain(s) {
        return value(s, 10);
    }
    None
}

// Sixteen hexadecimal digits.
pub fn hex(s: &[u8]) -> Option<u64>
    ensures { result ≡ hex_of s.now }
{
    if s.len() == 16 {
        return value(s, 16);
    }
    None
}
