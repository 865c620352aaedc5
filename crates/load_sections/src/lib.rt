// The pages of all sections, loaded into RAM from the top down. RAM may be any bytes: a page that it has not is left out. Sections that the
// block's marks say are used in place take no page.
#![tactic(auto)]

ghost use Rattle.std.specs.Prelude.{◌≡◌, ◌+◌, ◌*◌, ◌≤◌, length};
ghost use Rattle.rules.specs.Order.{section_pages, section_uses, all_sections};
ghost use Rattle.writing.specs.Pages.{put};
ghost use Rattle.writing.specs.Uses.{Wrote};
ghost use Rattle.writing.specs.Loaded.{section_content};
ghost use Rattle.xip_sections.specs.Marks.{marked};
ghost use Rattle.load_page.specs.Pages.{page_of};
ghost use Rattle.load_sections.specs.Pages.{WrotePages};

use block_records::Section;
use page_allocator::{PageAllocator, fill_page};
use types::RamPage;
use xip_sections::MarkedBlock;

// What sections are loaded from: the block, and flash.
#[derive(Clone, Copy)]
pub struct Source<'a> {
    pub block: MarkedBlock<'a>,
    pub flash: &'a [u8],
}

// Page i of a section into RAM page k.
fn load_page(ram: &mut [u8], k: RamPage, section: Section, flash: &[u8], i: u32)
    ensures { ram.new ≡ put ram.old k.0 (page_of section flash.now i) }
{
    fill_page(
        ram,
        k,
        |page| load_page::section_page(page, section, flash, i),
    );
}

// The first `count` pages of a section. (The allocator goes by value, as 01 names it, so that a loop that takes pages threads it.)
fn load_pages(
    ram: &mut [u8],
    section: Section,
    flash: &[u8],
    count: u32,
    from: PageAllocator,
) -> PageAllocator
    ensures { WrotePages (page_of section flash.now) count ram.old from.left ram.new result.left }
{
    let mut next = from;
    for i in 0..count {
        let got = next.allocate();
        load_page(ram, got.page, section, flash, i);
        next = got.rest;
    }
    next
}

// Clears RAM page k, which is cut here and not by `fill_page`: cut where RAM ends, the pages would not make one memset (`clear_pages`).
fn clear_page(ram: &mut [u8], k: RamPage)
    requires { 4096 * k.0 + 4096 ≤ length ram.old }
    ensures { ram.new ≡ put ram.old k.0 (λ o. 0) }
{
    let start = k.0 as usize * 4096;
    let page = &mut ram[start..start + 4096];
    stores::clear(page);
}

// Clears `count` pages that RAM has. A while on the pages left: nothing but the page's number changes from turn to turn, and none runs out, so
// that a compiler makes all of it one memset. By `for _ in 0..count` a load of the large board takes a tenth more instructions
// (docs/DESIGN-PASS.md).
fn clear_pages(ram: &mut [u8], count: u32, from: PageAllocator) -> PageAllocator
    requires { (count ≤ from.left) × (4096 * from.left ≤ length ram.old) }
    ensures { WrotePages (λ i o. 0) count ram.old from.left ram.new result.left }
{
    let end = from.left - count;
    let mut next = from;
    while end < next.left {
        let got = next.allocate();
        clear_page(ram, got.page);
        next = got.rest;
    }
    next
}

// Section j, counted from 0, of process q: no page of it where it is used in place.
fn load_section(
    ram: &mut [u8],
    source: &Source,
    q: u32,
    j: u32,
    from: PageAllocator,
) -> PageAllocator
    ensures { Wrote (section_content source.now.block.bytes.now source.now.flash.now)
        (section_pages source.now.block.bytes.now (marked source.now.block.xip.now) q j)
        ram.old from.left ram.new result.left }
{
    let block = source.block;
    let n = block_records::read_process(block.bytes, q).section(j);
    let section = block_records::read_section(block.bytes, n);
    let count = xip_sections::pages_taken(block.xip, n, section.pages);
    let has_pages = count <= from.left && 4096 * from.left as usize <= ram.len();
    if section.no_copy && has_pages {
        return clear_pages(ram, count, from);
    }
    load_pages(ram, section, source.flash, count, from)
}

// All sections of process q.
fn load_process(ram: &mut [u8], source: &Source, q: u32, from: PageAllocator) -> PageAllocator
    ensures { Wrote (section_content source.now.block.bytes.now source.now.flash.now)
        (section_uses source.now.block.bytes.now (marked source.now.block.xip.now) q)
        ram.old from.left ram.new result.left }
{
    let mut next = from;
    for j in 0..block_records::read_process(source.block.bytes, q).sections {
        next = load_section(ram, source, q, j, next);
    }
    next
}

// All sections of all processes: of process 2, 3 and so on, then the kernel's.
pub fn load_sections(ram: &mut [u8], source: &Source, from: PageAllocator) -> PageAllocator
    ensures { Wrote (section_content source.now.block.bytes.now source.now.flash.now)
        (all_sections source.now.block.bytes.now (marked source.now.block.xip.now))
        ram.old from.left ram.new result.left }
{
    let users = block_header::process_count(source.block.bytes).saturating_sub(1);
    let mut next = from;
    for i in 0..users {
        next = load_process(ram, source, i + 2, next);
    }
    load_process(ram, source, 1, next)
}
