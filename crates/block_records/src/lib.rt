// The boot block's records, read from any bytes: what lies past their end counts as 0.
#![tactic(auto)]

ghost use Rattle.std.specs.Prelude.{◌≡◌, ℕ, ◌+◌};
ghost use Rattle.notation.specs.Words.{word};
ghost use Rattle.rules.specs.Block.{kind_of, stack_bits, stack_pages, section_at};
ghost use Rattle.rules.specs.Contents.{stack_pointer};
ghost use Rattle.block_records.specs.Read.{IsProcess, IsSection, IsRegion};

use types::{Process, VirtPage};

// A section's flag: only zeros, and no bytes in flash.
const NO_COPY: u32 = 1;

// A section's flag: its pages may be written.
const WRITABLE: u32 = 2;

// A section's flag: its pages may be executed.
const EXECUTABLE: u32 = 4;

// A section record, the address after its last byte, its flags by name, its virtual pages, and how many they are.
#[derive(Clone, Copy)]
pub struct Section {
    pub address: u32,
    pub size: u32,
    pub end: u64,
    pub flash_offset: u32,
    pub flags: u32,
    pub no_copy: bool,
    pub writable: bool,
    pub executable: bool,
    pub first_page: VirtPage,
    pub last_page: VirtPage,
    pub pages: u32,
}

// A region record, and the address after its last byte.
#[derive(Clone, Copy)]
pub struct Region {
    pub start: u32,
    pub pages: u32,
    pub end: u64,
}

// Process record i, which is that of process i + 1.
#[tactic(auto, unfolding(rules::specs::Block::block_rules))]
pub fn read_process_record(block: &[u8], i: u32) -> Process
    ensures { IsProcess block.now (i + 1) result }
{
    Process::from(slices::four_words(block, block_header::process_at(i)))
}

// The record of process q, which is record q - 1. There is no process 0: its record would be that of process 1.
pub fn read_process(block: &[u8], q: u32) -> Process
    ensures { IsProcess block.now q result }
{
    read_process_record(block, q.saturating_sub(1))
}

// The kind: bits 0 to 7 of a kind word. (A number and no enum: so `kind_of` of the rules has it, which this promises.)
#[tactic(auto, unfolding(rules::specs::Block::kind_of))]
pub fn kind_of(kind_word: u32) -> u32
    ensures { result ≡ kind_of kind_word }
{
    kind_word % 256
}

// Its bits 8 to 15, which are for the stack pages.
#[tactic(auto, unfolding(rules::specs::Block::stack_bits))]
pub fn stack_bits(kind_word: u32) -> u32
    ensures { result ≡ stack_bits kind_word }
{
    kind_word / 256 % 256
}

// The pages of process q's stack; the kernel has none.
#[tactic(auto, unfolding(rules::specs::Block::stack_pages, notation::specs::Choice::choose))]
pub fn stack_pages(block: &[u8], q: u32) -> u32
    ensures { result ≡ stack_pages block.now q }
{
    if q == 1 {
        return 0;
    }
    let process = read_process(block, q);
    let pages = stack_bits(process.kind_word);
    if pages == 0 { 16 } else { pages }
}

// The stack pointer that process q starts with; the kernel has 0.
#[tactic(auto, unfolding(rules::specs::Contents::stack_pointer, notation::specs::Choice::choose))]
pub fn stack_pointer(q: u32) -> u32
    ensures { result ≡ stack_pointer q }
{
    if q == 1 { 0 } else { 0x8000_0000 }
}

// Where the words of section record n are read. Past the end all words are 0, and 16 n might wrap.
#[tactic(auto, using(crate::proofs::Sections::section_past), unfolding(rules::specs::Block::section_at))]
fn section_offset(block: &[u8], n: usize) -> usize
    ensures { (k : ℕ) → word block.now (result + k) ≡ word block.now (section_at block.now n + k) }
{
    if block.len() / 16 < n {
        return block.len();
    }
    block_header::sections_at(block) + 16 * n
}

// Section record n. (Its pages are counted from its address: a size / 4,096 rounded up would miss one.)
pub fn read_section(block: &[u8], n: usize) -> Section
    ensures { IsSection block.now n result }
{
    let [address, size, flash_offset, flags] = slices::four_words(block, section_offset(block, n));
    let end = u64::from(address) + u64::from(size);
    let first = address / 4096;
    let last = (end.saturating_sub(1) / 4096) as u32;
    Section {
        address,
        size,
        end,
        flash_offset,
        flags,
        no_copy: numbers::bit(flags, NO_COPY),
        writable: numbers::bit(flags, WRITABLE),
        executable: numbers::bit(flags, EXECUTABLE),
        first_page: VirtPage(first),
        last_page: VirtPage(last),
        pages: last + 1 - first,
    }
}

// Region record i.
#[tactic(auto, unfolding(rules::specs::Block::region_start, rules::specs::Block::region_pages, rules::specs::Block::region_area))]
pub fn read_region(block: &[u8], i: u32) -> Region
    ensures { IsRegion block.now i result }
{
    let at = block_header::region_at(block, i);
    let start = slices::word(block, at);
    let pages = slices::word(block, at + 4);
    Region {
        start,
        pages,
        end: u64::from(start) + 4096 * u64::from(pages),
    }
}
