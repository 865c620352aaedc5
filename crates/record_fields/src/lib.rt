// The fields of a line of records: each public function answers for any input.
#![tactic(auto)]

ghost use Rattle.std.specs.Prelude.{not, ◌≡◌, [], eqb, length, get_or, drop};
ghost use Rattle.notation.specs.Lists.{count_before};
ghost use Rattle.record_fields.specs.Fields.{before, separator, fields};

const HASH: u8 = b'#';

// The bytes before the first that is `stop`; all where none is.
pub fn before(s: &[u8], stop: u8) -> &[u8]
    ensures { result.now ≡ before (λ c. eqb c stop) s.now }
{
    match s.iter().position(|c| *c == stop) {
        Some(end) => &s[..end],
        None => s,
    }
}

#[tactic(auto, unfolding(crate::specs::Fields::separator, notation::specs::Choice::choices))]
fn is_separator(c: u8) -> bool
    ensures { result ≡ separator c }
{
    matches!(c, b',' | b';' | b' ' | b'\t' | b'\r')
}

// The text from the first byte that is no separator; no bytes where all are.
fn past_gap(text: &[u8]) -> &[u8]
    ensures { result.now ≡ drop (count_before (λ c. not (separator c)) text.now) text.now }
{
    match text.iter().position(|c| !is_separator(*c)) {
        Some(start) => &text[start..],
        None => &[],
    }
}

// The bytes before the first separator; all where none is.
fn word(text: &[u8]) -> &[u8]
    ensures { result.now ≡ before separator text.now }
{
    match text.iter().position(|c| is_separator(*c)) {
        Some(end) => &text[..end],
        None => text,
    }
}

// How many fields a line has: how many of its bytes start one. (By `split`, which makes a part of each separator, a line of blanks
// takes twice the instructions, here and in `field`.)
pub fn field_count(line: &[u8]) -> usize
    ensures { result ≡ length (fields line.now) }
{
    let text = before(line, HASH);
    let mut count = 0;
    let mut inside = false;
    for c in text {
        if is_separator(*c) {
            inside = false;
        } else if !inside {
            inside = true;
            count += 1;
        }
    }
    count
}

// Field n of a line, counted from 0; no bytes where there is none.
pub fn field(line: &[u8], n: usize) -> &[u8]
    ensures { result.now ≡ get_or (fields line.now) n [] }
{
    let mut rest = past_gap(before(line, HASH));
    for _ in 0..n {
        rest = match rest.iter().position(|c| is_separator(*c)) {
            Some(end) => past_gap(&rest[end..]),
            None => return &[],
        };
    }
    word(rest)
}
