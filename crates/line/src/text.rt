// Runs of bytes: the first place of a byte, parts.
ghost use Rattle.std.specs.Prelude.{◌≡◌, ◌≤◌, eqb, length, position, take, drop};
ghost use Rattle.line.specs.Text.{Found};

// The first place of a byte, if it stands anywhere.
fn place(s: &[u8], c: u8) -> Option<usize>
    ensures { result ≡ position (λ b. eqb b c) s.now }
{
    s.iter().position(|b| *b == c)
}

// .. or the length where it does not stand.
pub fn find(s: &[u8], c: u8) -> usize
    ensures { Found c s.now result }
{
    place(s, c).unwrap_or(s.len())
}

// The bytes before a place.
pub fn upto(s: &[u8], e: usize) -> &[u8]
    requires { e ≤ length s.now }
    ensures { result.now ≡ take e s.now }
{
    &s[..e]
}

// The bytes from a place on.
pub fn past(s: &[u8], a: usize) -> &[u8]
    requires { a ≤ length s.now }
    ensures { result.now ≡ drop a s.now }
{
    &s[a..]
}
