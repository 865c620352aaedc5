// Words stored in lent slices, little-endian: each function answers for any input, and nothing past a slice's end is written.
#![tactic(auto)]

ghost use Rattle.std.specs.Prelude.{◌≡◌, ◌+◌, ◌≤◌, length};
ghost use Rattle.word_stores.specs.Words.{with_word, with_words};

// Stores a word, little-endian, where there is room for it.
fn store_word(s: &mut [u8], at: usize, w: u32)
    requires { at + 4 ≤ length s.old }
    ensures { s.new ≡ with_word s.old at w }
{
    [s[at], s[at + 1], s[at + 2], s[at + 3]] = w.to_le_bytes();
}

// Stores a word at an index, little-endian; where its four bytes do not all fit nothing changes.
pub fn put_word(s: &mut [u8], at: usize, w: u32)
    ensures { s.new ≡ with_word s.old at w }
{
    if 4 <= s.len().saturating_sub(at) {
        store_word(s, at, w);
    }
}

// Stores words one after the other from the start of `to` on, little-endian, as many bytes as fit; the others stay. (By an index: RV32's
// library has no method of a slice's iterator, D166.)
pub fn words_in(to: &mut [u8], words: &[u32])
    ensures { to.new ≡ with_words to.old words.now }
{
    let n = words.len().min(to.len() / 4);
    for i in 0..n {
        store_word(to, 4 * i, words[i]);
    }
    if n < words.len() {
        stores::copy_in(to, 4 * n, &words[n].to_le_bytes());
    }
}
