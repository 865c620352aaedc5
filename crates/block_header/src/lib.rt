// The boot block's counts, read from any bytes (what lies past their end counts as 0), and where they put the records.
#![tactic(auto, unfolding(rules::specs::Block::block_rules))]

ghost use Rattle.std.specs.Prelude.{◌≡◌, ◌+◌, ◌≤◌};
ghost use Rattle.rules.specs.Block.{process_count, section_count, region_count, sections_at, regions_at, tight_length, process_at, section_at, region_at};

// The process count, p.
pub fn process_count(block: &[u8]) -> u32
    ensures { result ≡ process_count block.now }
{
    slices::word(block, 8)
}

// The section count, s.
pub fn section_count(block: &[u8]) -> u32
    ensures { result ≡ section_count block.now }
{
    slices::word(block, 16)
}

// The region count, r.
pub fn region_count(block: &[u8]) -> u32
    ensures { result ≡ region_count block.now }
{
    slices::word(block, 24)
}

// Where the section records start, in a block that lies tight.
pub fn sections_at(block: &[u8]) -> usize
    ensures { (result ≡ sections_at block.now) × (result ≤ 0x20_0000_0000) }
{
    32 + 16 * (process_count(block) as usize)
}

// Where the region records start.
pub fn regions_at(block: &[u8]) -> usize
    ensures { (result ≡ regions_at block.now) × (result ≤ 0x40_0000_0000) }
{
    sections_at(block) + 16 * (section_count(block) as usize)
}

// How long the block is.
pub fn tight_length(block: &[u8]) -> usize
    ensures { (result ≡ tight_length block.now) × (result ≤ 0x80_0000_0000) }
{
    regions_at(block) + 8 * (region_count(block) as usize)
}

// Where process record i is, which is that of process i + 1.
pub fn process_at(i: u32) -> usize
    ensures { (result ≡ process_at (i + 1)) × (result ≤ 0x20_0000_0000) }
{
    32 + 16 * (i as usize)
}

// Where section record n is.
pub fn section_at(block: &[u8], n: u32) -> usize
    ensures { (result ≡ section_at block.now n) × (result ≤ 0x40_0000_0000) }
{
    sections_at(block) + 16 * (n as usize)
}

// Where region record i is.
pub fn region_at(block: &[u8], i: u32) -> usize
    ensures { (result ≡ region_at block.now i) × (result ≤ 0x80_0000_0000) }
{
    regions_at(block) + 8 * (i as usize)
}
