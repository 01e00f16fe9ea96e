// Bits in bytes: bit k is bit k mod 8, lowest first, of byte k div 8 (document 02, order 3).
#![tactic(auto)]

ghost use Rattle.std.specs.Prelude.{◌≡◌, true, false, ◌+◌, ◌-◌, ◌*◌, ◌/◌, ◌%◌, ◌^◌, ◌≤◌, ◌<◌, length};
ghost use Rattle.bits.specs.Bits.{bit_in, blank, digits, ink_bit, ink_bits, number, spelled, Room};

// The place value of bit k in its byte.
fn power(k: usize) -> u8
    ensures { result ≡ 2 ^ (k % 8) }
{
    1u8 << (k % 8)
}

// Bit k.
pub fn bit_at(bytes: &[u8], k: usize) -> bool
    requires { k < 8 * length bytes.now }
    ensures { result ≡ bit_in bytes.now k }
{
    (bytes[k / 8] / power(k)) % 2 == 1
}

// Writes bit k; the bits above it in its byte are 0 afterwards.
pub fn put_bit(bytes: &mut [u8], k: usize, b: bool)
    requires { k < 8 * length bytes.old }
    ensures { bytes.new ≡ ink_bit bytes.old k b }
{
    let i = k / 8;
    let value = power(k);
    let below = bytes[i] % value;
    bytes[i] = if b { below + value } else { below };
}

// Writes the w lowest bits of n from bit `at` on, lowest first.
pub fn put_number(bytes: &mut [u8], at: usize, w: u64, n: u64)
    requires { (Room bytes.old at w) × (w ≤ 64) }
    ensures { bytes.new ≡ ink_bits bytes.old at (digits w n) }
{
    let mut rest = n;
    // `as`: the number fits, and a `TryFrom` would have an error that cannot be
    for i in 0..w as usize {
        put_bit(bytes, at + i, rest % 2 == 1);
        rest /= 2;
    }
}

// The number that the w bits from bit `at` on spell, lowest first.
pub fn number_at(bytes: &[u8], at: usize, w: u64) -> u64
    requires { (Room bytes.now at w) × (w ≤ 64) }
    ensures { result ≡ number (spelled (bit_in bytes.now) at w) }
{
    let mut n = 0;
    for i in (0..w as usize).rev() {
        n = 2 * n + u64::from(bit_at(bytes, at + i));
    }
    n
}

// Whether the bits from `from` up to `to` are 0.
pub fn is_blank(bytes: &[u8], from: usize, to: usize) -> bool
    requires { (from ≤ to) × (to ≤ 8 * length bytes.now) }
    ensures { result ≡ blank (bit_in bytes.now) from (to - from) }
{
    for k in from..to {
        if bit_at(bytes, k) {
            return false;
        }
    }
    true
}
