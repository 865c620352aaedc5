// Bytes stored in lent slices: each function answers for any input, and nothing past a slice's end is written.
#![tactic(auto)]

ghost use Rattle.std.specs.Prelude.{◌≡◌, ◌+◌, ◌≤◌, length, take};
ghost use Rattle.notation.specs.Lists.{tab};
ghost use Rattle.stores.specs.Writes.{copied, filled};

// Every byte becomes 0.
pub fn clear(s: &mut [u8])
    ensures { s.new ≡ tab (length s.old) (λ k. 0) }
{
    s.fill(0);
}

// The bytes that are copied at a time.
const CHUNK: usize = 4096;

// Copies the first n bytes of `from` to index `at` of `to`.
fn copy_bytes(to: &mut [u8], at: usize, from: &[u8], n: usize)
    requires { (n ≤ length from.now) × (at + n ≤ length to.old) }
    ensures { to.new ≡ copied to.old at (take n from.now) }
{
    for i in 0..n {
        to[at + i] = from[i];
    }
}

// Copies `from` to index `at` of `to`. The local array shares no byte with either, so that a compiler can make the two loops one
// memmove; it would keep a single loop, since it is not told that `from` and `to` share none. (`copy_from_slice` compares addresses, which
// tools/rv32-forms refuses.)
fn copy_chunk(to: &mut [u8], at: usize, from: &[u8])
    requires { (length from.now ≤ 4096) × (at + length from.now ≤ length to.old) }
    ensures { to.new ≡ copied to.old at from.now }
{
    let mut chunk = [0u8; CHUNK];
    let n = from.len();
    copy_bytes(&mut chunk, 0, from, n);
    copy_bytes(to, at, &chunk, n);
}

// Copies `from` to index `at` of `to`, as many bytes as fit; the others stay.
pub fn copy_in(to: &mut [u8], at: usize, from: &[u8])
    ensures { to.new ≡ copied to.old at from.now }
{
    let n = from.len().min(to.len().saturating_sub(at));
    let mut start = 0;
    // A while: it is small enough to be inlined where records are read. By `from[..n].chunks(CHUNK)` a load for 15 users of one byte takes
    // three quarters more instructions (docs/DESIGN-PASS.md).
    while start < n {
        let end = n.min(start + CHUNK);
        copy_chunk(to, at + start, &from[start..end]);
        start = end;
    }
}

// Every byte at an index from `from` up to and without `to`, as far as there are bytes, becomes value; the others stay.
pub fn fill(bytes: &mut [u8], from: usize, to: usize, value: u8)
    ensures { bytes.new ≡ filled bytes.old from to value }
{
    let end = to.min(bytes.len());
    let start = from.min(end);
    bytes[start..end].fill(value);
}

// Copies `from` to index `at` of `to`, as many bytes as fit; the others become 0.
pub fn copy_and_clear(to: &mut [u8], at: usize, from: &[u8])
    ensures { to.new ≡ copied (tab (length to.old) (λ k. 0)) at from.now }
{
    let size = to.len();
    let end = at.min(size) + from.len().min(size.saturating_sub(at));
    fill(to, 0, at, 0);
    copy_in(to, at, from);
    fill(to, end, size, 0);
}
