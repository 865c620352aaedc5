// How many I/O pages the block's regions have, and how many pages the page tracker has.
#![tactic(auto)]

ghost use Rattle.std.specs.Prelude.{◌≡◌, ◌*◌, ◌≤◌};
ghost use Rattle.rules.specs.Block.{io_pages_of};
ghost use Rattle.rules.specs.Order.{tracker_pages};

// The I/O pages of the first n regions. Each has fewer than 2^32.
pub fn io_pages_of(block: &[u8], n: u32) -> u64
    ensures { (result ≡ io_pages_of block.now n) × (result ≤ 4294967295 * n) }
{
    (0..n)
        .map(|i| u64::from(block_records::read_region(block, i).pages))
        .sum()
}

// The pages of the page tracker, where RAM has `pages` pages: one byte for each RAM and I/O page.
#[tactic(auto, unfolding(rules::specs::Order::tracker_pages, rules::specs::Order::pages_for, rules::specs::Block::io_pages))]
pub fn tracker_pages(block: &[u8], pages: u32) -> u64
    ensures { (result ≡ tracker_pages block.now pages) × (result ≤ 0x10_0000_0000_0000) }
{
    let io_pages = io_pages_of(block, block_header::region_count(block));
    (u64::from(pages) + io_pages).div_ceil(4096)
}
