// Words kept in a lent slice.

ghost use Rattle.std.specs.Prelude.{◌≡◌, ◌≤◌, length};

// A lent slice of words, and where those that are kept in it end: what is put begins there. A type beside `text::Out`, which holds
// bytes: the two share `Appended`, which speaks of numbers. One type for elements of any kind could not promise it, and would need
// `copied` and each of its laws a second time.
#[derive(Drop)]
pub(crate) struct Kept<'a> {
    pub(crate) words: &'a mut [u32],
    pub(crate) end: usize,
    ghost in_room: { end ≤ length words.now },
}

impl<'a> Kept<'a> {
    ghost use Rattle.record_texts.specs.Keeps.{Keeps};

    pub(crate) fn new(words: &'a mut [u32]) -> Kept<'a>
        ensures same_slice { result.words.ghost_name ≡ words.entry.ghost_name }
        ensures same_words { result.words.now ≡ words.old }
        ensures none { result.end ≡ 0 }
    {
        Kept { words, end: 0 }
    }

    // As many of the words as there is room for.
    #[tactic(auto, using(crate::proofs::Held::put_is))]
    pub(crate) fn put(&mut self, words: &[u32])
        ensures { Keeps self.old words.now self.new }
    {
        let count = words.len().min(self.words.len() - self.end);
        let end = self.end + count;
        self.words[self.end..end].copy_from_slice(&words[..count]);
        self.end = end;
    }
}
