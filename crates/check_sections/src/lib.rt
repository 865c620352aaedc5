// Refusals 7, 8 and 9: section records. Each function answers for any block and any number.
#![tactic(auto, using(accepted::specs::Stacks::stack_at_most), unfolding(rules::specs::Refusals::refusal_rules, rules::specs::Block::stack_first, rules::specs::Block::section_end, refusals::specs::Answers::number_or_0, notation::specs::Choice::choices))]

ghost use Rattle.std.specs.Prelude.{not, ◌&&◌, ◌≡◌, ◌-◌, eqb, leb};
ghost use Rattle.rules.specs.Block.{first_section_of, first_page_of, last_page_of};
ghost use Rattle.rules.specs.Refusals.{section_unfit, range_first, range_last, section_misplaced, section_past_flash, section_refusal, section_check};
ghost use Rattle.refusals.specs.Answers.{number_or_0, check_of};

use refusals::{RecordRefusal, Refusal};

// Refusal 7, for section record n.
fn section_unfit(block: &[u8], n: u32) -> bool
    ensures { result ≡ section_unfit block.now n }
{
    let section = block_records::read_section(block, n as usize);
    section.size == 0
        || 7 < section.flags
        || (section.writable && section.executable)
        || (section.no_copy && section.flash_offset != 0)
}

// The first address of the range for the sections of process q.
fn range_first(q: u32) -> u32
    ensures { result ≡ range_first q }
{
    if q == 1 { 0xFFC0_0000 } else { 0x0000_1000 }
}

// The last address of that range: for a user process the one before its stack, which ends at 0x80000000.
fn range_last(block: &[u8], q: u32) -> u32
    ensures { result ≡ range_last block.now q }
{
    if q == 1 {
        0xFFEF_FFFF
    } else {
        4096 * (0x80000 - block_records::stack_pages(block, q)) - 1
    }
}

// Section record n is not the first of process q, and its first page is not above the last page of the section before.
fn starts_low(block: &[u8], n: u32, q: u32) -> bool
    ensures { result ≡ (not (eqb n (first_section_of block.now q)) && leb (first_page_of block.now n) (last_page_of block.now (n - 1))) }
{
    let process = block_records::read_process(block, q);
    let section = block_records::read_section(block, n as usize);
    let previous = block_records::read_section(block, n.saturating_sub(1) as usize);
    n != process.first_section && section.first_page.0 <= previous.last_page.0
}

// Refusal 8, for section record n.
fn section_misplaced(block: &[u8], n: u32) -> bool
    ensures { result ≡ section_misplaced block.now n }
{
    let owner = section_owners::owner_of(block, n as usize);
    let section = block_records::read_section(block, n as usize);
    section.address < range_first(owner)
        || u64::from(range_last(block, owner)) + 1 < section.end
        || starts_low(block, n, owner)
}

// Refusal 9, for section record n and an image of `flash` bytes.
fn section_past_flash(block: &[u8], flash: usize, n: u32) -> bool
    ensures { result ≡ section_past_flash block.now flash n }
{
    let section = block_records::read_section(block, n as usize);
    let end = u64::from(section.flash_offset) + u64::from(section.size);
    !section.no_copy && (flash as u64) < end
}

// What is drawn at section record n: 7, 8 and 9 together.
fn section_refusal(block: &[u8], flash: usize, n: u32) -> Option<Refusal>
    ensures { number_or_0 result ≡ section_refusal block.now flash n }
{
    if section_unfit(block, n) {
        Some(Refusal::SectionUnfit)
    } else if section_misplaced(block, n) {
        Some(Refusal::SectionMisplaced)
    } else if section_past_flash(block, flash, n) {
        Some(Refusal::SectionPastFlash)
    } else {
        None
    }
}

// The check for 7, 8 and 9 of section record n.
pub fn check_section(block: &[u8], flash: usize, n: u32) -> RecordRefusal
    ensures { check_of result ≡ section_check block.now flash n }
{
    RecordRefusal {
        refusal: section_refusal(block, flash, n),
        offset: block_header::section_at(block, n),
    }
}
