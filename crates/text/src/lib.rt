// Text put into a lent buffer, as much as there is room for.
#![tactic(auto)]

ghost use Rattle.std.specs.Prelude.{◌≡◌, ◌≤◌, length};
ghost use Rattle.text.specs.Text.{numeral, two_numbers};

// A lent buffer, and where the text in it ends: what is put begins there. (Numbers are put by functions of its own and not by std's `write!`,
// which promises its text only where all of it fits: these promise what a buffer holds that cuts it, `Puts`.)
#[derive(Drop)]
pub struct Out<'a> {
    pub buffer: &'a mut [u8],
    pub end: usize,
    ghost in_buffer: { end ≤ length buffer.now },
}

impl<'a> Out<'a> {
    ghost use Rattle.text.specs.Puts.{Puts};

    // A buffer with no text in it yet.
    pub fn new(buffer: &'a mut [u8]) -> Out<'a>
        ensures same_buffer { result.buffer.ghost_name ≡ buffer.entry.ghost_name }
        ensures same_bytes { result.buffer.now ≡ buffer.old }
        ensures empty { result.end ≡ 0 }
    {
        Out { buffer, end: 0 }
    }

    // Bytes as they are.
    pub fn put(&mut self, text: &[u8])
        ensures { Puts self.old text.now self.new }
    {
        let room = self.buffer.len() - self.end;
        stores::copy_in(self.buffer, self.end, text);
        self.end += text.len().min(room);
    }

    // A number in decimal.
    #[tactic(auto, using(crate::proofs::Appended::numeral_is))]
    pub fn put_decimal(&mut self, n: u64)
        ensures { Puts self.old (numeral 10 n) self.new }
    {
        let mut digits = [0u8; 20];
        let count = io::decimal(n, &mut digits);
        self.put(&digits[..count]);
    }

    // A number in hexadecimal, small letters, no leading zeros.
    #[tactic(auto, using(crate::proofs::Appended::numeral_is))]
    pub fn put_hex(&mut self, n: u64)
        ensures { Puts self.old (numeral 16 n) self.new }
    {
        let mut digits = [0u8; 16];
        let count = io::hex(n, 1, &mut digits);
        self.put(&digits[..count]);
    }

    // A text with two numbers in it.
    pub fn put_two_numbers(&mut self, before: &[u8], n: u64, between: &[u8], m: u64, after: &[u8])
        ensures { Puts self.old (two_numbers before.now n between.now m after.now) self.new }
    {
        self.put(before);
        self.put_decimal(n);
        self.put(between);
        self.put_decimal(m);
        self.put(after);
    }
}
