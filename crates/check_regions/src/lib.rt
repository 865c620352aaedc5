// Refusal 11: region records. Each function answers for any block, any flash, any RAM and any number.
#![tactic(auto, using(laws::specs::Counts::sum_next), unfolding(rules::specs::Refusals::refusal_rules, rules::specs::Block::region_area, rules::specs::Block::io_pages_of, refusals::specs::Answers::number_or_0, notation::specs::Choice::choices))]

ghost use Rattle.std.specs.Prelude.{◌&&◌, ◌≡◌, ◌-◌, ltb};
ghost use Rattle.rules.specs.Lent.{end_of};
ghost use Rattle.rules.specs.Block.{region_area};
ghost use Rattle.rules.specs.Refusals.{region_unfit, region_check};
ghost use Rattle.refusals.specs.Answers.{check_of};

use lent::Placed;
use refusals::{RecordRefusal, Refusal};
use types::Area;

// An address is below the end of the region before region record i.
fn below_previous(block: &[u8], at: u32, i: u32) -> bool
    ensures { result ≡ (ltb 0 i && ltb at (end_of (region_area block.now (i - 1)))) }
{
    i != 0 && u64::from(at) < block_records::read_region(block, i - 1).end
}

// Refusal 11, for region record i.
fn region_unfit(placed: Placed<'_>, i: u32) -> bool
    ensures { result ≡ region_unfit placed.entry.block.now placed.entry.flash placed.entry.ram i }
{
    let region = block_records::read_region(placed.block, i);
    let area = Area {
        start: region.start,
        length: 4096 * (region.pages as usize),
    };
    region.start % 4096 != 0
        || region.pages == 0
        || 0x1_0000_0000 < region.end
        || below_previous(placed.block, region.start, i)
        || areas::share_address(placed.ram, area)
        || areas::share_address(placed.flash, area)
        || 4096 < order_tracker::io_pages_of(placed.block, i) + u64::from(region.pages)
}

// The check for 11 of region record i.
pub fn check_region(placed: Placed<'_>, i: u32) -> RecordRefusal
    ensures { check_of result ≡ region_check placed.entry.block.now placed.entry.flash placed.entry.ram i }
{
    RecordRefusal {
        refusal: region_unfit(placed, i).then_some(Refusal::RegionUnfit),
        offset: block_header::region_at(placed.block, i),
    }
}
