// The records of a text, a line for each.
#![tactic(auto)]

ghost use Rattle.std.specs.Prelude.{◌≡◌, [], length, get_or, drop, Ok};
ghost use Rattle.text.specs.Text.{Appended};
ghost use Rattle.record_texts.specs.Keeps.{Keeps};
ghost use Rattle.record_texts.specs.Texts.{mark_length, lines, sound_lines, fault_in, process_words, section_words, region_words, words_of};

mod kept;

use kept::Kept;
use record_lines::{Fault, Record};

const LINE_FEED: u8 = b'\n';

// What is read of a text: how many lines up to the first that is at fault, what is wrong with that one, and how many words of each
// kind of record are held.
#[derive(Clone, Copy, PartialEq, Eq, Debug)]
pub struct Read {
    pub lines: usize,
    pub fault: Option<Fault>,
    pub processes: usize,
    pub sections: usize,
    pub regions: usize,
}

// The text after a byte order mark at its very start.
#[tactic(auto, using(std::proofs::lemmas::List::take_all), unfolding(crate::specs::Texts::mark_length, notation::specs::Choice::choices))]
fn without_mark(text: &[u8]) -> &[u8]
    ensures { result.now ≡ drop (mark_length text.now) text.now }
{
    match text {
        [0xEF, 0xBB, 0xBF, rest @ ..] => rest,
        _ => text,
    }
}

// Line n of a text, counted from 0; no bytes where there is none.
pub fn line_at(text: &[u8], n: usize) -> &[u8]
    ensures { result.now ≡ get_or (lines text.now) n [] }
{
    without_mark(text)
        .split(|c| *c == LINE_FEED)
        .nth(n)
        .unwrap_or(&[])
}

// The words of a line's record, put where those of its kind are kept.
#[tactic(auto, using(crate::proofs::Held::keeps_none))]
fn put_record(
    line: Option<Record>,
    processes: &mut Kept<'_>,
    sections: &mut Kept<'_>,
    regions: &mut Kept<'_>,
)
    ensures { Keeps processes.old (process_words (Ok line)) processes.new
        × Keeps sections.old (section_words (Ok line)) sections.new
        × Keeps regions.old (region_words (Ok line)) regions.new }
{
    match line {
        Some(Record::Process(words)) => processes.put(&words),
        Some(Record::Section(words)) => sections.put(&words),
        Some(Record::Region(words)) => regions.put(&words),
        None => {}
    }
}

// Reads the lines of a text up to the first that is at fault, and puts the words of the records of each kind at the start of its
// slice, as many as there is room for.
pub fn read_records(
    text: &[u8],
    processes: &mut [u32],
    sections: &mut [u32],
    regions: &mut [u32],
) -> Read
    ensures { (result.lines ≡ length (sound_lines text.now))
        × (result.fault ≡ fault_in text.now)
        × Appended processes.old 0 (words_of process_words (sound_lines text.now)) processes.new result.processes
        × Appended sections.old 0 (words_of section_words (sound_lines text.now)) sections.new result.sections
        × Appended regions.old 0 (words_of region_words (sound_lines text.now)) regions.new result.regions }
{
    let mut processes = Kept::new(processes);
    let mut sections = Kept::new(sections);
    let mut regions = Kept::new(regions);
    let mut lines = 0;
    let mut fault = None;
    for line in without_mark(text).split_inclusive(|c| *c == LINE_FEED) {
        match record_lines::read_line(record_fields::before(line, LINE_FEED)) {
            Ok(record) => put_record(record, &mut processes, &mut sections, &mut regions),
            Err(found) => {
                fault = Some(found);
                break;
            }
        }
        lines += 1;
    }
    Read {
        lines,
        fault,
        processes: processes.end,
        sections: sections.end,
        regions: regions.end,
    }
}
