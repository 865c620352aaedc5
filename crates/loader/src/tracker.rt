// The page tracker: a byte for each RAM page, its owner's number, and then one for each I/O page.
ghost use Rattle.std.specs.Prelude.{◌≡◌, length};
ghost use Rattle.notation.specs.Lists.{tab};
ghost use Rattle.rules.specs.Order.{tracker_uses};
ghost use Rattle.writing.specs.Pages.{put};
ghost use Rattle.loader.specs.Planned.{tracker_size, tracker_bytes, Loads};

use crate::plan::Plan;
use page_allocator::PageAllocator;
use types::{RamPage, TOP_PAGES};

// The owners of all RAM pages: the pages taken are the kernel's, but for the section pages of user processes.
fn track_owners(page: &mut [u8], plan: &Plan)
    ensures { page.new ≡ tab (length page.old) (tracker_bytes plan.now 0) }
{
    let pages = plan.range.pages;
    stores::clear(page);
    stores::fill(page, (pages - plan.needed) as usize, pages as usize, 1);
    // Below the four pages at the top: process 2's, then process 3's and so on.
    let mut end = pages - TOP_PAGES;
    for i in 0..block_header::process_count(plan.block.bytes) - 1 {
        let start = end - order_places::process_pages(&plan.block, i + 2) as u32;
        stores::fill(page, start as usize, end as usize, (i + 2) as u8);
        end = start;
    }
}

// Page i of the tracker. All RAM pages are in page 0, since RAM has at most 4,096; after them all bytes are 0.
fn track_page(page: &mut [u8], plan: &Plan, i: u32)
    ensures { page.new ≡ tab (length page.old) (tracker_bytes plan.now i) }
{
    if i == 0 {
        track_owners(page, plan);
    } else {
        stores::clear(page);
    }
}

// Page i of the tracker into RAM page k.
fn load_tracker_page(ram: &mut [u8], k: RamPage, plan: &Plan, i: u32)
    ensures { ram.new ≡ put ram.old k.0 (tracker_bytes plan.now i) }
{
    // Lent here: with a closure for `fill_page` that captures a plan, a proof does not reach what the closure promises.
    let from = (k.0 as usize * 4096).min(ram.len());
    let to = (from + 4096).min(ram.len());
    track_page(&mut ram[from..to], plan, i);
}

// The whole tracker.
pub(crate) fn load_tracker(ram: &mut [u8], plan: &Plan, from: PageAllocator) -> PageAllocator
    ensures { Loads plan.now (tracker_uses (tracker_size plan.now)) ram.old from.left ram.new result.left }
{
    let mut next = from;
    for i in 0..order_tracker::tracker_pages(plan.block.bytes, plan.range.pages) as u32 {
        let got = next.allocate();
        load_tracker_page(ram, got.page, plan, i);
        next = got.rest;
    }
    next
}
