// RAM's pages from the top down: the page allocator, the page at a place in the order of pages, the physical page of each, and its bytes.
#![tactic(auto)]

ghost use Rattle.std.specs.Prelude.{◌≡◌, ◌+◌, ◌-◌, ◌%◌, List, ℕ};
ghost use Rattle.std.specs.Fn.{FnOnceTakesAtMut, FnOnceReturnsAtMut};
ghost use Rattle.page_allocator.specs.Bytes.{page_bytes, with_page};

use types::{PageRange, PhysPage, RamPage};

// RAM pages 0 to left - 1 have not been handed out.
#[derive(Clone, Copy)]
pub struct PageAllocator {
    pub left: u32,
}

// The page taken, and the allocator after it.
#[derive(Clone, Copy)]
pub struct Allocation {
    pub page: RamPage,
    pub rest: PageAllocator,
}

impl PageAllocator {
    // Hands out the next lower page. Where none is left it answers page 0 and stays empty. By value, as 01 names it: the page taken and the
    // next state.
    pub fn allocate(self) -> Allocation
        ensures { (result.page.0 ≡ self.left - 1) × (result.rest.left ≡ self.left - 1) }
    {
        let left = self.left.saturating_sub(1);
        Allocation {
            page: RamPage(left),
            rest: PageAllocator { left },
        }
    }
}

// Fills the bytes of RAM page k: fewer than 4,096, or none, where RAM ends before.
pub fn fill_page<F: FnOnce(&mut [u8])>(ram: &mut [u8], k: RamPage, fill: F)
    requires { FnOnceTakesAtMut F.FnOnce fill (page_bytes ram.old k.0) }
    ensures { (page : List ℕ) × FnOnceReturnsAtMut F.FnOnce fill (page_bytes ram.old k.0) tt page × (ram.new ≡ with_page ram.old k.0 page) }
{
    let from = (k.0 as usize * 4096).min(ram.len());
    let to = (from + 4096).min(ram.len());
    fill(&mut ram[from..to]);
}

// The physical page that RAM page k is: modulo 2^32.
pub fn physical(range: PageRange, k: RamPage) -> PhysPage
    ensures { result.0 ≡ (range.base + k.0) % 0x1_0000_0000 }
{
    PhysPage(range.base.wrapping_add(k.0))
}

// The RAM page of the use at a place: page 0 for a place past RAM's end.
pub fn ram_page_at(range: PageRange, place: u32) -> RamPage
    ensures { result.0 ≡ range.pages - 1 - place }
{
    RamPage(range.pages.saturating_sub(1).saturating_sub(place))
}

// The physical page of the use at a place: modulo 2^32, and RAM's first page for a place past RAM's end.
pub fn page_at(range: PageRange, place: u32) -> PhysPage
    ensures { result.0 ≡ (range.base + (range.pages - 1 - place)) % 0x1_0000_0000 }
{
    physical(range, ram_page_at(range, place))
}
