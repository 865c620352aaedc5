// Bytes and words read from lent slices: each function answers for any input.
#![tactic(auto)]

ghost use Rattle.std.specs.Prelude.{◌≡◌, ◌≤◌, length, get_or, take, drop};
ghost use Rattle.notation.specs.Words.{word};
ghost use Rattle.slices.specs.Words.{AreWords};

// The byte at an index, 0 past the end. (`get` gives an Option of a reference, which has another layout on RV32: tools/rv32-forms refuses it.)
pub fn byte(s: &[u8], at: usize) -> u8
    ensures { result ≡ get_or s.now at 0 }
{
    if at < s.len() { s[at] } else { 0 }
}

// The bytes from an index on, none past the end.
pub fn tail(s: &[u8], at: usize) -> &[u8]
    ensures { result.now ≡ drop at s.now }
{
    &s[at.min(s.len())..]
}

// n bytes from an index on, or as many as there are.
pub fn part(s: &[u8], from: usize, n: usize) -> &[u8]
    ensures { result.now ≡ take n (drop from s.now) }
{
    let t = tail(s, from);
    &t[..n.min(t.len())]
}

// The first four words of bytes that have as many.
fn first_words(s: &[u8]) -> [u32; 4]
    requires { 16 ≤ length s.now }
    ensures { AreWords s.now 0 result }
{
    [
        u32::from_le_bytes([s[0], s[1], s[2], s[3]]),
        u32::from_le_bytes([s[4], s[5], s[6], s[7]]),
        u32::from_le_bytes([s[8], s[9], s[10], s[11]]),
        u32::from_le_bytes([s[12], s[13], s[14], s[15]]),
    ]
}

// The first four words of any bytes, by way of a copy with zeros after it, which is read without a test for each byte.
fn padded_words(s: &[u8]) -> [u32; 4]
    ensures { AreWords s.now 0 result }
{
    let mut padded = [0u8; 16];
    stores::copy_in(&mut padded, 0, s);
    first_words(&padded)
}

// The little-endian word at an index; bytes past the end count as 0.
pub fn word(s: &[u8], at: usize) -> u32
    ensures { result ≡ word s.now at }
{
    let t = tail(s, at);
    if t.len() < 4 {
        let [first, ..] = padded_words(t);
        return first;
    }
    u32::from_le_bytes([t[0], t[1], t[2], t[3]])
}

// The four little-endian words from an index on; bytes past the end count as 0.
pub fn four_words(s: &[u8], at: usize) -> [u32; 4]
    ensures { AreWords s.now at result }
{
    let t = tail(s, at);
    if t.len() < 16 {
        return padded_words(t);
    }
    first_words(t)
}
