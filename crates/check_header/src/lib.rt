// Refusals 1, 13 and 2 to 5: RAM's place and size, flash's place, a short block, the format, the counts, and the layout. Each function
// answers for any input.
#![tactic(auto, unfolding(rules::specs::Refusals::refusal_rules, rules::specs::Block::block_rules, notation::specs::Choice::any))]

ghost use Rattle.std.specs.Prelude.{◌≡◌, ltb};
ghost use Rattle.rules.specs.Lent.{end_of};
ghost use Rattle.rules.specs.Refusals.{ram_unfit, flash_unfit, block_too_short, format_unknown, outside, counts_outside, counts_out_of_bounds, layout_not_tight};

use types::Area;

// The area ends past 2^32. (Its start and its length are not added: the sum might wrap.)
fn ends_high(area: Area) -> bool
    ensures { result ≡ ltb 0x1_0000_0000 (end_of area) }
{
    0x1_0000_0000 - (area.start as usize) < area.length
}

// Refusal 1.
pub fn ram_unfit(ram: Area) -> bool
    ensures { result ≡ ram_unfit ram }
{
    ram.length % 4096 != 0 || 4096 < ram.length / 4096 || ram.start % 4096 != 0 || ends_high(ram)
}

// Refusal 13.
pub fn flash_unfit(flash: Area, ram: Area) -> bool
    ensures { result ≡ flash_unfit flash ram }
{
    flash.start % 4096 != 0 || ends_high(flash) || areas::share_address(flash, ram)
}

// Refusal 2.
pub fn block_too_short(block: &[u8]) -> bool
    ensures { result ≡ block_too_short block.now }
{
    block.len() < 32
}

// Refusal 3.
pub fn format_unknown(block: &[u8]) -> bool
    ensures { result ≡ format_unknown block.now }
{
    slices::word(block, 0) != 1
}

// n is outside the bounds lo to hi.
fn is_outside(lo: usize, hi: usize, n: usize) -> bool
    ensures { result ≡ outside lo hi n }
{
    n < lo || hi < n
}

// p, s or r is outside its bounds.
pub fn counts_outside(p: usize, s: usize, r: usize) -> bool
    ensures { result ≡ counts_outside p s r }
{
    is_outside(1, 16, p) || is_outside(1, 64, s) || is_outside(0, 32, r)
}

// Refusal 4.
pub fn counts_out_of_bounds(block: &[u8]) -> bool
    ensures { result ≡ counts_out_of_bounds block.now }
{
    counts_outside(
        block_header::process_count(block) as usize,
        block_header::section_count(block) as usize,
        block_header::region_count(block) as usize,
    )
}

// Refusal 5.
pub fn layout_not_tight(block: &[u8]) -> bool
    ensures { result ≡ layout_not_tight block.now }
{
    let process_offset = slices::word(block, 12);
    let section_offset = slices::word(block, 20) as usize;
    let region_offset = slices::word(block, 28) as usize;
    let length_field = slices::word(block, 4) as usize;
    let length = block_header::tight_length(block);
    process_offset != 32
        || section_offset != block_header::sections_at(block)
        || region_offset != block_header::regions_at(block)
        || length_field != length
        || block.len() != length
}
