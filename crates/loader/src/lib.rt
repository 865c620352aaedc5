// The loader: everything is checked before anything is written; then the pages are written in the order of pages.
#![tactic(auto)]

ghost use Rattle.std.specs.Prelude.{◌≡◌, ◌-◌, ◌/◌, length, get_or};
ghost use Rattle.rules.specs.Lent.{memory_of, area_of};
ghost use Rattle.rules.specs.InPlace.{xip_of};
ghost use Rattle.rules.specs.Order.{pages_needed};
ghost use Rattle.rules.specs.Load.{loaded, answer, ram_after};
ghost use Rattle.lent.specs.Lent.{image as lent_image};
ghost use Rattle.refusals.specs.Answers.{answer_of as full_answer_of};
ghost use Rattle.writing.specs.Pages.{put};
ghost use Rattle.accepted.specs.Fits.{Accepted};
ghost use Rattle.xip_sections.specs.Marks.{marked};
ghost use Rattle.loader.specs.LeafEntries.{FlashNumbers};
ghost use Rattle.loader.specs.StartWords.{start_words};

use lent::Image;
use load_sections::Source;
use page_allocator::{PageAllocator, fill_page};
use plan::Plan;
use refusals::{Boot, Refused};
use types::{Area, PageRange, PhysPage, TOP_PAGES};
use xip_sections::MarkedBlock;

mod leaf_cursor;
mod leaf_entries;
mod leaves;
mod plan;
mod process_list;
mod table_pages;
mod tracker;

// What process q starts with, where its root table is the physical page `root`: its satp word, entry point and stack pointer.
#[tactic(auto, unfolding(crate::specs::StartWords::start_words))]
pub fn start_words(block: &[u8], q: u32, root: PhysPage) -> [u32; 3]
    ensures { result ≡ start_words block.now q root.0 }
{
    let process = block_records::read_process(block, q);
    [
        sv32_entries::satp_word(q, root),
        process.entry_point,
        block_records::stack_pointer(q),
    ]
}

// The copy of the block, in the next page.
fn load_block(ram: &mut [u8], block: &[u8], from: PageAllocator) -> PageAllocator
    ensures { (result.left ≡ from.left - 1)
        × (ram.new ≡ put ram.old (from.left - 1) (λ o. get_or block.now o 0)) }
{
    let got = from.allocate();
    fill_page(ram, got.page, |page| load_page::block_page(page, block));
    got.rest
}

// All pages of a block that was accepted on this RAM, of which it needs `needed`. `xip` marks the sections that are used in place.
fn load_pages(image: Image<'_>, xip: &[u8], ram: &mut [u8], start: u32, needed: u32)
    requires { Accepted image.block.now (marked xip.now) (area_of start (length ram.old))
        × FlashNumbers image.block.now (marked xip.now) (image.flash.start / 4096) × (marked xip.now ≡ xip_of (lent_image image))
        × (needed ≡ pages_needed image.block.now (marked xip.now) (length ram.old / 4096)) }
    ensures { ram.new ≡ loaded (lent_image image.entry) (memory_of start ram.old) }
{
    let block = MarkedBlock {
        bytes: image.block,
        xip,
    };
    let range = PageRange {
        base: start / 4096,
        pages: (ram.len() / 4096) as u32,
    };
    let plan = Plan {
        block,
        flash_start: image.flash.start,
        range,
        needed,
    };
    let source = Source {
        block,
        flash: image.flash.bytes,
    };
    let below_top = PageAllocator {
        left: range.pages - TOP_PAGES,
    };
    let after_sections = load_sections::load_sections(ram, &source, below_top);
    let after_tracker = tracker::load_tracker(ram, &plan, after_sections);
    let after_list = process_list::load_process_list(ram, &plan, after_tracker);
    let after_copy = load_block(ram, image.block, after_list);
    table_pages::load_tables(ram, &plan, after_copy);
}

// Loads the block's programs from flash into RAM, which starts at physical address `start`, or refuses and leaves RAM as it came. Sections
// that are used in place stay in flash. (RAM is a slice with its start beside it: a struct that held it `&mut` would be taken apart here, where
// its pages are lent.)
pub fn load(image: Image<'_>, ram: &mut [u8], start: u32) -> Result<Boot, Refused>
    ensures answer { full_answer_of result ≡ answer (lent_image image.entry) (memory_of start ram.old) }
    ensures ram { ram.new ≡ ram_after (lent_image image.entry) (memory_of start ram.old) }
{
    // The sections used in place are decided here, once.
    let mut xip = [0u8; 64];
    let area = Area {
        start,
        length: ram.len(),
    };
    let boot = checks::mark_and_answer(image, area, &mut xip)?;
    load_pages(image, &xip, ram, start, boot.taken);
    Ok(boot)
}
