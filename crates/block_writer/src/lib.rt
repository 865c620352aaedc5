// The block writer: from lists of records to a boot block in a lent buffer. A refusal leaves the buffer as it came.
#![tactic(auto)]

ghost use Rattle.std.specs.Prelude.{[], ◌∷◌, ◌++◌, ◌≡◌, ◌+◌, ◌*◌, ◌≤◌, length, take, drop};
ghost use Rattle.notation.specs.Words.{bytes_of};
ghost use Rattle.rules.specs.Writer.{records_in, processes_in, sections_in, regions_in, header_words, lists_unfit, writer_verdict, written, buffer_after};
ghost use Rattle.round_trips.specs.WrittenBlock.{WordLists};
ghost use Rattle.refusals.specs.Answers.{verdict_of, written_of};
ghost use Rattle.block_writer.specs.Lists.{records_lent, block_length, Few, process_in, process_refusal, block_at_start};

use check_processes::Position;
use refusals::{Refusal, Refused};
use types::Process;

// Lists of records, as their words.
#[derive(Clone, Copy)]
struct Lists<'a> {
    processes: &'a [u32],
    sections: &'a [u32],
    regions: &'a [u32],
}

impl Lists<'_> {
    // How many records they are: of processes, of sections and of regions.
    fn counts(self) -> [usize; 3]
        ensures { result ≡ processes_in (records_lent self.entry) ∷ sections_in (records_lent self.entry) ∷ regions_in (records_lent self.entry) ∷ [] }
    {
        [
            self.processes.len() / 4,
            self.sections.len() / 4,
            self.regions.len() / 2,
        ]
    }

    // Refusal 21.
    #[tactic(auto, unfolding(rules::specs::Writer::lists_unfit, notation::specs::Choice::any))]
    fn unfit(self) -> bool
        ensures { result ≡ lists_unfit (records_lent self.entry) }
    {
        let [p, s, r] = self.counts();
        self.processes.len() % 4 != 0
            || self.sections.len() % 4 != 0
            || self.regions.len() % 2 != 0
            || check_header::counts_outside(p, s, r)
    }

    // The length of their block.
    fn block_length(self) -> usize
        requires { Few (records_lent self) }
        ensures { result ≡ block_length (records_lent self.entry) }
    {
        32 + 4 * (self.processes.len() + self.sections.len() + self.regions.len())
    }
}

// Process record i of a list.
#[tactic(auto, unfolding(crate::specs::Lists::process_in))]
fn process_in(processes: &[u32], i: u32) -> Process
    requires { 4 * i + 4 ≤ length processes.now }
    ensures { result ≡ process_in processes.now i }
{
    let at = 4 * i as usize;
    Process::from([
        processes[at],
        processes[at + 1],
        processes[at + 2],
        processes[at + 3],
    ])
}

// Refusal 6: the first process record that draws it.
fn check_process_records(lists: Lists<'_>) -> Result<(), Refused>
    requires { Few (records_lent lists) }
    ensures { verdict_of result ≡ process_refusal lists.entry.processes.now (sections_in (records_lent lists.entry)) }
{
    let [p, s, _] = lists.counts();
    let p = p as u32;
    let mut before: u64 = 0;
    for i in 0..p {
        let process = process_in(lists.processes, i);
        let position = Position {
            index: i,
            processes: p,
            sections: s as u32,
        };
        if let Some(refused) = check_processes::check_record(process, position, before).at(i) {
            return Err(refused);
        }
        before += u64::from(process.sections);
    }
    Ok(())
}

// 21, 22 and 6, in order, for a buffer of `room` bytes.
fn check(lists: Lists<'_>, room: usize) -> Result<(), Refused>
    requires { WordLists (records_lent lists) }
    ensures { verdict_of result ≡ writer_verdict (records_lent lists.entry) room }
{
    if lists.unfit() {
        return Err(Refused::whole(Refusal::ListsUnfit));
    }
    if room < lists.block_length() {
        return Err(Refused::whole(Refusal::BufferTooShort));
    }
    check_process_records(lists)
}

// The header of a block with p, s and r records.
#[tactic(auto, unfolding(rules::specs::Writer::header_words))]
fn header(p: u32, s: u32, r: u32) -> [u32; 8]
    requires { (p ≤ 16) × (s ≤ 64) × (r ≤ 32) }
    ensures { result ≡ header_words p s r }
{
    let sections_at = 32 + 16 * p;
    let regions_at = sections_at + 16 * s;
    let length = regions_at + 8 * r;
    [1, length, p, 32, s, sections_at, r, regions_at]
}

// Stores words from byte `at` on.
#[tactic(auto, using(crate::proofs::Storing::put_words_is))]
fn put_words(buffer: &mut [u8], at: usize, words: &[u32])
    requires { at + 4 * length words.now ≤ length buffer.old }
    ensures { buffer.new ≡ take at buffer.old ++ (bytes_of words.now ++ drop (at + 4 * length words.now) buffer.old) }
{
    let end = at + 4 * words.len();
    word_stores::words_in(&mut buffer[at..end], words);
}

// Stores the block of lists that draw neither 21 nor 22 at the start of the buffer. Answers its length.
fn store_block(lists: Lists<'_>, buffer: &mut [u8]) -> u32
    requires few { Few (records_lent lists) }
    requires room { block_length (records_lent lists) ≤ length buffer.old }
    ensures length { result ≡ block_length (records_lent lists.entry) }
    ensures stored { buffer.new ≡ block_at_start (records_lent lists.entry) buffer.old }
{
    let sections_at = 32 + 4 * lists.processes.len();
    let regions_at = sections_at + 4 * lists.sections.len();
    let [p, s, r] = lists.counts();
    put_words(buffer, 0, &header(p as u32, s as u32, r as u32));
    put_words(buffer, 32, lists.processes);
    put_words(buffer, sections_at, lists.sections);
    put_words(buffer, regions_at, lists.regions);
    lists.block_length() as u32
}

// Writes the block of these records to the start of the buffer, and answers its length: four words for a process, four for a section, two
// for a region. Bytes of the buffer beyond the block stay, and in a refusal all of them. (Three slices and no struct: of a struct's words
// a proof does not know that they are below 2^32.)
pub fn write_block(
    processes: &[u32],
    sections: &[u32],
    regions: &[u32],
    buffer: &mut [u8],
) -> Result<u32, Refused>
    ensures answer { written_of result ≡ written (records_in processes.now sections.now regions.now) (length buffer.old) }
    ensures buffer { buffer.new ≡ buffer_after (records_in processes.now sections.now regions.now) buffer.old }
{
    let lists = Lists {
        processes,
        sections,
        regions,
    };
    check(lists, buffer.len())?;
    Ok(store_block(lists, buffer))
}
