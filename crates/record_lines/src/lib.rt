// What a line of records says.
#![tactic(auto)]

ghost use Rattle.std.specs.Prelude.{◌≡◌, true, [], ◌≤◌, length, get_or, Ok, Err, MatchResult};
ghost use Rattle.numerals.specs.Numerals.{number_of};
ghost use Rattle.record_fields.specs.Fields.{fields};
ghost use Rattle.record_lines.specs.Lines.{word_of, unread, fault_at, numbers_of, line_of};

use numerals::NumberError;

// The kind of a record, which is the first field of its line.
#[derive(Clone, Copy, PartialEq, Eq, Debug)]
pub enum Kind {
    Process,
    Section,
    Region,
}

// A record, by its words.
#[derive(Clone, Copy, PartialEq, Eq, Debug)]
pub enum Record {
    // Entry point, first section, section count, kind word.
    Process([u32; 4]),
    // Virtual address, size, flash offset, flags.
    Section([u32; 4]),
    // Start, pages.
    Region([u32; 2]),
}

// What is wrong with a line.
#[derive(Clone, Copy, PartialEq, Eq, Debug)]
pub enum Fault {
    // The first field names no kind.
    UnknownWord,
    // So many numbers belong after the word, and so many fields stand there.
    WrongCount(usize, usize),
    // This field, counted from 0 at the word, is not a number.
    NotNumber(usize),
    // This field is a number of 2^32 or more.
    TooLarge(usize),
}

#[tactic(auto, using(crate::proofs::Lines::word_process, crate::proofs::Lines::word_section, crate::proofs::Lines::word_region, crate::proofs::Lines::word_unknown))]
fn kind_of(word: &[u8]) -> Option<Kind>
    ensures { result ≡ word_of word.now }
{
    match word {
        b"process" => Some(Kind::Process),
        b"section" => Some(Kind::Section),
        b"region" => Some(Kind::Region),
        _ => None,
    }
}

// The number that field k spells.
fn number_at(line: &[u8], k: usize) -> Result<u32, Fault>
    ensures { MatchResult result
        (λ v. number_of (get_or (fields line.now) k []) ≡ Ok v)
        (λ fault. (unread (number_of (get_or (fields line.now) k [])) ≡ true) × (fault ≡ fault_at k (number_of (get_or (fields line.now) k [])))) }
{
    numerals::read_number(record_fields::field(line, k)).map_err(|error| match error {
        NumberError::TooLarge => Fault::TooLarge(k),
        NumberError::NotNumber => Fault::NotNumber(k),
    })
}

// The numbers after the word of a line of `count` fields, where N belong there.
fn read_numbers<const N: usize>(line: &[u8], count: usize) -> Result<[u32; N], Fault>
    requires { (N ≤ 4) × (1 ≤ count) × (count ≡ length (fields line.now)) }
    ensures { result ≡ numbers_of N (fields line.now) }
{
    if count != 1 + N {
        return Err(Fault::WrongCount(N, count - 1));
    }
    let mut numbers = [0; N];
    for (k, number) in numbers.iter_mut().enumerate() {
        *number = number_at(line, k + 1)?;
    }
    Ok(numbers)
}

// What a line says; `None` where it has no field. The word is looked at first, then how many numbers there are, then each number.
#[tactic(auto, using(crate::proofs::Lines::said_empty, crate::proofs::Lines::said_unknown), unfolding(crate::specs::Lines::line_of))]
pub fn read_line(line: &[u8]) -> Result<Option<Record>, Fault>
    ensures { result ≡ line_of line.now }
{
    let count = record_fields::field_count(line);
    if count == 0 {
        return Ok(None);
    }
    let record = match kind_of(record_fields::field(line, 0)) {
        Some(Kind::Process) => Record::Process(read_numbers(line, count)?),
        Some(Kind::Section) => Record::Section(read_numbers(line, count)?),
        Some(Kind::Region) => Record::Region(read_numbers(line, count)?),
        None => return Err(Fault::UnknownWord),
    };
    Ok(Some(record))
}
