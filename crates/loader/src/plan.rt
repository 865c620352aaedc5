// What is loaded, and onto which pages.
ghost use Rattle.std.specs.Prelude.{◌≡◌, ◌/◌, ◌≤◌};
ghost use Rattle.rules.specs.Block.{process_count};
ghost use Rattle.rules.specs.Order.{pages_needed};
ghost use Rattle.order_laws.specs.Places.{section_place};
ghost use Rattle.accepted.specs.Fits.{Fits};
ghost use Rattle.xip_sections.specs.Marks.{marked};
ghost use Rattle.loader.specs.LeafEntries.{FlashNumbers};

use types::PageRange;
use xip_sections::MarkedBlock;

// An accepted block and where it is loaded: flash starts at `flash_start`, and of the RAM pages `range` the block needs the top
// `needed`.
#[derive(Clone, Copy)]
pub(crate) struct Plan<'a> {
    pub block: MarkedBlock<'a>,
    pub flash_start: u32,
    pub range: PageRange,
    pub needed: u32,
    ghost fits: { Fits block.bytes.now (marked block.xip.now) range },
    ghost flash_numbers: { FlashNumbers block.bytes.now (marked block.xip.now) (flash_start / 4096) },
    ghost needed_is: { needed ≡ pages_needed block.bytes.now (marked block.xip.now) range.pages },
}

// Process q of a plan, and the place of its first section page in the order of pages.
#[derive(Clone, Copy)]
pub(crate) struct Share<'a> {
    pub plan: &'a Plan<'a>,
    pub q: u32,
    pub place: u32,
    ghost first: { 1 ≤ q },
    ghost last: { q ≤ process_count plan.now.block.bytes.now },
    ghost placed: { place ≡ section_place plan.now.block.bytes.now (marked plan.now.block.xip.now) q },
}
