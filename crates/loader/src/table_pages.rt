// Root and leaf tables: each is built as 1,024 entries, all absent at first, and stored as one page.
ghost use Rattle.std.specs.Prelude.{◌≡◌, ◌+◌, length, get_or};
ghost use Rattle.notation.specs.Lists.{tab, gather};
ghost use Rattle.rules.specs.Order.{table_uses, all_tables, leaf_table};
ghost use Rattle.rules.specs.Load.{table_byte};
ghost use Rattle.order_laws.specs.Places.{section_place};
ghost use Rattle.writing.specs.Pages.{put};
ghost use Rattle.loader.specs.Planned.{in_flash, page_of_use, left_at_root, root_bytes, leaf_entries_of, Loads};
ghost use Rattle.loader.specs.TablePages.{leaf_uses, leaf_pointer, LeavesAt};

use crate::leaf_cursor::Leaf;
use crate::leaf_entries::leaf_entries;
use crate::plan::{Plan, Share};
use page_allocator::{PageAllocator, fill_page, physical};
use types::{KERNEL_SLOT, PhysPage, RamPage, TOP_PAGES};

// Stores a table as RAM page k.
fn store(ram: &mut [u8], k: RamPage, entries: &[u32])
    requires { length entries.now ≡ 1024 }
    ensures { ram.new ≡ put ram.old k.0 (table_byte (λ i. get_or entries.now i 0)) }
{
    fill_page(ram, k, |page| word_stores::words_in(page, entries));
}

// Points a root table, whose entries are all absent (and lent: see `leaf_entries`), to the leaf tables of a process, which lie from physical page `first` downwards.
fn point_to_leaves(entries: &mut [u32], share: &Share, first: PhysPage)
    requires { entries.old ≡ tab 1024 (λ i. 0) }
    ensures { entries.new ≡ tab 1024 (leaf_pointer share.now.plan.now.block.bytes.now share.now.q first.0) }
{
    let mut page = first.0;
    for leaf in share.leaves() {
        sv32_tables::point_to_leaf(entries, leaf.slot, PhysPage(page));
        page = page.saturating_sub(1);
    }
}

// The root table of a process into RAM page k. Its leaf tables lie from physical page `first` downwards; the last entry points to the
// kernel's leaf table.
fn load_root(ram: &mut [u8], k: RamPage, share: &Share, first: PhysPage, kernel_leaf: PhysPage)
    requires { LeavesAt share.now.plan.now.block.bytes.now (in_flash share.now.plan.now) share.now.plan.now.range share.now.q first.0 kernel_leaf.0 }
    ensures { ram.new ≡ put ram.old k.0 (root_bytes share.now.plan.now share.now.q) }
{
    let mut entries = [0u32; 1024];
    point_to_leaves(&mut entries, share, first);
    sv32_tables::point_to_leaf(&mut entries, KERNEL_SLOT, kernel_leaf);
    store(ram, k, &entries);
}

// A leaf table into RAM page k.
fn load_leaf(ram: &mut [u8], k: RamPage, leaf: &Leaf)
    ensures { ram.new ≡ put ram.old k.0 (table_byte (leaf_entries_of leaf.now.share.plan.now leaf.now.share.q leaf.now.slot)) }
{
    let mut entries = [0u32; 1024];
    leaf_entries(&mut entries, leaf);
    store(ram, k, &entries);
}

// The leaf tables of a process, rising.
fn load_leaves(ram: &mut [u8], share: &Share, from: PageAllocator) -> PageAllocator
    ensures { Loads share.now.plan.now (gather 1024 (leaf_uses share.now.plan.now.block.bytes.now share.now.q)) ram.old from.left ram.new result.left }
{
    let mut next = from;
    for leaf in share.leaves() {
        let got = next.allocate();
        load_leaf(ram, got.page, &leaf);
        next = got.rest;
    }
    next
}

// The tables of a process: its root, then its leaves.
fn load_process_tables(
    ram: &mut [u8],
    share: &Share,
    kernel_leaf: PhysPage,
    from: PageAllocator,
) -> PageAllocator
    requires { (kernel_leaf.0 ≡ page_of_use share.now.plan.now (leaf_table 1 1023)) × (from.left ≡ left_at_root share.now.plan.now share.now.q) }
    ensures { Loads share.now.plan.now (table_uses share.now.plan.now.block.bytes.now share.now.q) ram.old from.left ram.new result.left }
{
    let root = from.allocate();
    // The page that the first leaf table gets.
    let leaf = root.rest.allocate();
    let plan = share.plan;
    let first = physical(plan.range, leaf.page);
    load_root(ram, root.page, share, first, kernel_leaf);
    load_leaves(ram, share, root.rest)
}

// The place of the first section page of the next process. Process 2 comes first in the order of pages, the kernel last.
fn next_section_place(share: &Share) -> u32
    ensures { result ≡ section_place share.now.plan.now.block.bytes.now (in_flash share.now.plan.now) (share.now.q + 1) }
{
    if share.q == 1 {
        return TOP_PAGES;
    }
    let plan = share.plan;
    share.place + order_places::process_pages(&plan.block, share.q) as u32
}

// The tables of all processes, the kernel's first.
pub(crate) fn load_tables(ram: &mut [u8], plan: &Plan, from: PageAllocator) -> PageAllocator
    requires { from.left ≡ left_at_root plan.now 1 }
    ensures { Loads plan.now (all_tables plan.now.block.bytes.now) ram.old from.left ram.new result.left }
{
    // The kernel's root and its one leaf table get the next two pages.
    let root = from.allocate();
    let leaf = root.rest.allocate();
    let kernel_leaf = physical(plan.range, leaf.page);
    let mut next = from;
    let mut place = order_places::section_place(&plan.block, 1);
    for i in 0..block_header::process_count(plan.block.bytes) {
        let share = Share {
            plan: &*plan,
            q: i + 1,
            place,
        };
        next = load_process_tables(ram, &share, kernel_leaf, next);
        place = next_section_place(&share);
    }
    next
}
