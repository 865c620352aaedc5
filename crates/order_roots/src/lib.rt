// Where a process's root table is, by the order of pages.
#![tactic(auto)]

ghost use Rattle.std.specs.Prelude.{◌≡◌};
ghost use Rattle.lent.specs.Lent.{image as image_of};
ghost use Rattle.order_roots.specs.Roots.{root_found};

use lent::Image;
use types::{Area, PageRange, PhysPage};
use xip_sections::MarkedBlock;

// The root table of process q, by the order of pages, for RAM that lies here: none where the block is refused or has no such process.
pub fn find_root(image: Image<'_>, ram: Area, q: u32) -> Option<PhysPage>
    ensures { result ≡ root_found (image_of image.entry) ram q }
{
    let mut xip = [0u8; 64];
    let Ok(_) = checks::mark_and_answer(image, ram, &mut xip) else {
        return None;
    };
    if q == 0 || block_header::process_count(image.block) < q {
        return None;
    }
    let range = PageRange {
        base: ram.start / 4096,
        pages: (ram.length / 4096) as u32,
    };
    let block = MarkedBlock {
        bytes: image.block,
        xip: &xip,
    };
    let place = order_places::root_place(&block, range.pages, q);
    Some(page_allocator::page_at(range, place))
}
