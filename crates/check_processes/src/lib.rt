// Refusals 6 and 10: process records and entry points. Each function answers for any block and any number.
#![tactic(auto, unfolding(rules::specs::Refusals::refusal_rules, rules::specs::Block::process_record, rules::specs::Block::section_record, rules::specs::Block::section_end, refusals::specs::Answers::number_or_0, notation::specs::Choice::choices))]

ghost use Rattle.std.specs.Prelude.{not, ◌&&◌, ◌||◌, ◌≡◌, ◌+◌, ◌*◌, ◌≤◌, eqb, leb, ltb};
ghost use Rattle.rules.specs.Block.{process_at, address, executable, section_end};
ghost use Rattle.rules.specs.Refusals.{sections_before, kind_unfit, record_unfit, entry_point_outside, record_check, process_record_check, process_check, entry_point_check};
ghost use Rattle.refusals.specs.Answers.{number_or_0, check_of};

use refusals::{RecordRefusal, Refusal};
use types::Process;

// Where a process record stands: its index, counted from 0, how many process records there are, and how many section records.
#[derive(Clone, Copy, PartialEq, Eq, Debug)]
pub struct Position {
    pub index: u32,
    pub processes: u32,
    pub sections: u32,
}

// The sections of the first n process records.
fn sections_before(block: &[u8], n: u32) -> u64
    ensures { (result ≡ sections_before block.now n) × (result ≤ 4294967295 * n) }
{
    (0..n)
        .map(|i| u64::from(block_records::read_process_record(block, i).sections))
        .sum()
}

// Refusal 6, for the kind word of process record i. Record 0 is the kernel's.
fn kind_unfit(kind_word: u32, i: u32) -> bool
    ensures { result ≡ kind_unfit kind_word i }
{
    // A kind is a number: so 02 has it, and `kind_of` of the rules.
    let kind = block_records::kind_of(kind_word);
    1 < kind
        || (i == 0 && kind == 1)
        || 0xFFFF < kind_word
        || (i == 0 && block_records::stack_bits(kind_word) != 0)
}

// With the sections of the process record at this position the sum is this: it passes the section count, or the record is the last and it
// is not the section count.
fn sum_unfit(sum: u64, at: Position) -> bool
    ensures { result ≡ (ltb at.sections sum || (eqb (at.index + 1) at.processes && not (eqb sum at.sections))) }
{
    let sections = u64::from(at.sections);
    sections < sum || (u64::from(at.index) + 1 == u64::from(at.processes) && sum != sections)
}

// Refusal 6, for a process record at this position: `before` is the sum of the section counts before it. Where the sum is made, it is a
// number of 32 bits.
fn record_unfit(process: Process, at: Position, before: u64) -> bool
    ensures { result ≡ record_unfit process at.index at.processes before at.sections }
{
    kind_unfit(process.kind_word, at.index)
        || process.sections == 0
        || u64::from(process.first_section) != before
        || sum_unfit(before + u64::from(process.sections), at)
}

// What is drawn at process record i, with where that record is.
fn at_process(refusal: Option<Refusal>, i: u32) -> RecordRefusal
    ensures { check_of result ≡ record_check (number_or_0 refusal) (process_at (i + 1)) }
{
    RecordRefusal {
        refusal,
        offset: block_header::process_at(i),
    }
}

// The check for 6 of a process record at this position, where `before` is the sum of the section counts before it.
pub fn check_record(process: Process, at: Position, before: u64) -> RecordRefusal
    ensures { check_of result ≡ process_record_check process at.index at.processes before at.sections }
{
    let unfit = record_unfit(process, at, before);
    at_process(unfit.then_some(Refusal::ProcessUnfit), at.index)
}

// The check for 6 of process record i of a block.
pub fn check_process(block: &[u8], i: u32) -> RecordRefusal
    ensures { check_of result ≡ process_check block.now i }
{
    let position = Position {
        index: i,
        processes: block_header::process_count(block),
        sections: block_header::section_count(block),
    };
    let process = block_records::read_process_record(block, i);
    check_record(process, position, sections_before(block, i))
}

// Section record n is executable and has this address.
fn can_enter(block: &[u8], n: usize, at: u32) -> bool
    ensures { result ≡ (executable block.now n && (leb (address block.now n) at && ltb at (section_end block.now n))) }
{
    let section = block_records::read_section(block, n);
    section.executable && section.address <= at && u64::from(at) < section.end
}

// Refusal 10, for process record i.
fn entry_point_outside(block: &[u8], i: u32) -> bool
    ensures { result ≡ entry_point_outside block.now i }
{
    let process = block_records::read_process_record(block, i);
    !(0..process.sections).any(|j| can_enter(block, process.section(j), process.entry_point))
}

// The check for 10 of process record i.
pub fn check_entry_point(block: &[u8], i: u32) -> RecordRefusal
    ensures { check_of result ≡ entry_point_check block.now i }
{
    let outside = entry_point_outside(block, i);
    at_process(outside.then_some(Refusal::EntryPointOutside), i)
}
