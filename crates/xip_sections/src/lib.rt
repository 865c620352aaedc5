// Which sections are used in place (02: straight from flash): decided for each section record once, and told by marks. Marks are bytes, and
// may be any: so `marked` has it, which every promise over marks speaks of.
#![tactic(auto)]

ghost use Rattle.std.specs.Prelude.{not, ◌&&◌, ◌≡◌, ◌≤◌, eqb, ltb, length};
ghost use Rattle.notation.specs.Choice.{choose};
ghost use Rattle.rules.specs.Block.{owner_of, kind};
ghost use Rattle.rules.specs.InPlace.{zero_between, in_place};
ghost use Rattle.xip_sections.specs.Marks.{marked, marks_of, lies_in_pages};

use block_records::Section;

// A boot block, and marks for its section records.
#[derive(Clone, Copy)]
pub struct MarkedBlock<'a> {
    pub bytes: &'a [u8],
    pub xip: &'a [u8],
}

// Section record n is marked.
pub fn is_marked(xip: &[u8], n: usize) -> bool
    ensures { result ≡ marked xip.now n }
{
    slices::byte(xip, n) == 1
}

// The pages that section record n takes in RAM, where it has `pages`: none where it is marked.
pub fn pages_taken(xip: &[u8], n: usize, pages: u32) -> u32
    ensures { (result ≡ choose (marked xip.now n) 0 pages) × (result ≤ pages) }
{
    if is_marked(xip, n) { 0 } else { pages }
}

// The bytes from index `from` on, up to index `to`, are all 0. Those past the end count as 0.
fn zero_between(s: &[u8], from: usize, to: usize) -> bool
    ensures { result ≡ zero_between s.now from to }
{
    !(from..to).any(|i| slices::byte(s, i) != 0)
}

// A section's bytes lie in flash as they lie in its pages, on flash pages that are wholly in the image and have no other bytes but zeros.
fn lies_in_pages(section: Section, flash: &[u8]) -> bool
    ensures { result ≡ lies_in_pages section flash.now }
{
    let start = section.flash_offset as usize;
    let end = start + section.size as usize;
    let to = 4096 * (end.saturating_sub(1) / 4096 + 1);
    start % 4096 == section.address as usize % 4096
        && to <= flash.len()
        && zero_between(flash, 4096 * (start / 4096), start)
        && zero_between(flash, end, to)
}

// A section is one that is copied and not written to, and lies in flash as in its pages.
fn can_stay(section: Section, flash: &[u8]) -> bool
    ensures { result ≡ (not section.no_copy && (not section.writable && lies_in_pages section flash.now)) }
{
    !section.no_copy && !section.writable && lies_in_pages(section, flash)
}

// Section record n is of a user process of kind 1. (A kind is a number: 02 has it so, and `kind_of` of the rules.)
#[tactic(auto, unfolding(rules::specs::Block::kind))]
fn is_of_kind_1(block: &[u8], n: usize) -> bool
    ensures { result ≡ (ltb 1 (owner_of block.now n) && eqb (kind block.now (owner_of block.now n)) 1) }
{
    let owner = section_owners::owner_of(block, n);
    let process = block_records::read_process(block, owner);
    1 < owner && block_records::kind_of(process.kind_word) == 1
}

// Section record n is used in place.
pub fn in_place(block: &[u8], flash: &[u8], n: usize) -> bool
    ensures { result ≡ in_place block.now flash.now n }
{
    n < block_header::section_count(block) as usize
        && is_of_kind_1(block, n)
        && can_stay(block_records::read_section(block, n), flash)
}

// Marks for as many section records as there is room for. (By an index: RV32's library has no method of a slice's iterator, D166.)
pub fn mark_sections(block: &[u8], flash: &[u8], xip: &mut [u8])
    ensures { xip.new ≡ marks_of block.now flash.now (length xip.old) }
{
    for n in 0..xip.len() {
        xip[n] = u8::from(in_place(block, flash, n));
    }
}
