// The entries of a leaf table. A place counts the uses before a use in the order of pages.
ghost use Rattle.std.specs.Prelude.{◌≡◌, false, ◌+◌, ◌-◌, ◌/◌, ◌%◌};
ghost use Rattle.notation.specs.Choice.{choose};
ghost use Rattle.notation.specs.Lists.{tab};
ghost use Rattle.rules.specs.Space.{kernel_read, kernel_write, section_at_page, kernel_page, user_page};
ghost use Rattle.sv32_tables.specs.Filled.{pages_mapped};
ghost use Rattle.loader.specs.LeafEntries.{entries_of, rights_of};
ghost use Rattle.loader.specs.Planned.{tracker_size, page_of_data, leaf_entries_of};

use crate::leaf_cursor::Leaf;
use crate::plan::Plan;
use block_records::Section;
use order_places::tracker_place;
use page_allocator::page_at;
use sv32_tables::Run;
use types::{KERNEL_SLOT, PAGE_BYTES, PhysPage, Rights, VirtPage};

// The virtual page of the block copy.
const BLOCK_COPY: u32 = 0xFFF00;

// The virtual page of the tracker's first page.
const TRACKER: u32 = 0xFFF40;

// The virtual page of the process list.
const PROCESS_LIST: u32 = 0xFFF80;

// The rights of a section of process q.
fn section_rights(q: u32, section: Section) -> Rights
    ensures { result ≡ rights_of q section.writable section.executable }
{
    Rights {
        read: true,
        write: section.writable,
        execute: section.executable,
        user: q != 1,
    }
}

// The rights of a page of the kernel's own that is no section's.
fn kernel_rights(write: bool) -> Rights
    ensures { result ≡ choose write kernel_write kernel_read }
{
    Rights {
        read: true,
        write,
        execute: false,
        user: false,
    }
}

// The physical pages of a section: in flash, upwards, where it is used in place, else downwards from the page at `place` in the order of
// pages.
#[tactic(auto, unfolding(notation::specs::Choice::choose))]
fn section_run(plan: &Plan, section: Section, in_place: bool, place: u32) -> Run
    ensures rises { result.rises ≡ in_place }
    ensures first { result.first.0 ≡ choose in_place (plan.now.flash_start / 4096 + section.flash_offset / 4096) ((plan.now.range.base + (plan.now.range.pages - 1 - place)) % 0x1_0000_0000) }
{
    let first = if in_place {
        PhysPage(plan.flash_start / PAGE_BYTES + section.flash_offset / PAGE_BYTES)
    } else {
        page_at(plan.range, place)
    };
    Run {
        first,
        rises: in_place,
    }
}

// Maps the sections of the leaf's process in its table, whose entries are all absent, from the first that has a page in it to the last.
fn map_sections(entries: &mut [u32], leaf: &Leaf)
    requires { entries.old ≡ tab 1024 (λ i. 0) }
    ensures { entries.new ≡ entries_of (page_of_data leaf.now.share.plan.now) (section_at_page leaf.now.share.plan.now.block.bytes.now leaf.now.share.q) leaf.now.slot }
{
    let plan = leaf.share.plan;
    let q = leaf.share.q;
    let process = block_records::read_process(plan.block.bytes, q);
    let mut place = leaf.place;
    for j in leaf.section..process.sections {
        let n = process.section(j);
        let section = block_records::read_section(plan.block.bytes, n);
        if leaf.slot < section.first_page.slot() {
            return;
        }
        let in_place = xip_sections::is_marked(plan.block.xip, n);
        sv32_tables::map_pages(
            entries,
            leaf.slot,
            section.first_page,
            section.last_page,
            section_run(plan, section, in_place, place),
            section_rights(q, section),
        );
        place += xip_sections::pages_taken(plan.block.xip, n, section.pages);
    }
}

// Maps virtual pages `from` to `to`, which are the kernel's own and no section's, in its leaf table. They lie from physical page `first`
// downwards.
fn map_own(entries: &mut [u32], from: VirtPage, to: VirtPage, first: PhysPage, write: bool)
    ensures { entries.new ≡ pages_mapped entries.old 1023 from.0 to.0 first.0 false (choose write kernel_write kernel_read) }
{
    let run = Run {
        first,
        rises: false,
    };
    sv32_tables::map_pages(entries, KERNEL_SLOT, from, to, run, kernel_rights(write));
}

// The kernel's leaf table: its sections, over them the block copy, then the tracker, and last the process list, which a
// tracker of over 64 pages would reach.
fn kernel_entries(entries: &mut [u32], leaf: &Leaf)
    requires { (leaf.now.share.q ≡ 1) × (leaf.now.slot ≡ 1023) × (entries.old ≡ tab 1024 (λ i. 0)) }
    ensures { entries.new ≡ entries_of (page_of_data leaf.now.share.plan.now) (kernel_page leaf.now.share.plan.now.block.bytes.now (tracker_size leaf.now.share.plan.now)) 1023 }
{
    let plan = leaf.share.plan;
    let place = tracker_place(&plan.block);
    let count = order_tracker::tracker_pages(plan.block.bytes, plan.range.pages) as u32;
    let tracker = page_at(plan.range, place);
    let list = page_at(plan.range, place + count);
    let copy = page_at(plan.range, place + count + 1);
    map_sections(entries, leaf);
    let at = VirtPage(BLOCK_COPY);
    map_own(entries, at, at, copy, false);
    let from = VirtPage(TRACKER);
    let to = VirtPage(TRACKER + (count - 1));
    map_own(entries, from, to, tracker, true);
    let at = VirtPage(PROCESS_LIST);
    map_own(entries, at, at, list, false);
}

// A user process's leaf table: its sections, and over them the stack reservation.
fn user_entries(entries: &mut [u32], leaf: &Leaf)
    requires { entries.old ≡ tab 1024 (λ i. 0) }
    ensures { entries.new ≡ entries_of (page_of_data leaf.now.share.plan.now) (user_page leaf.now.share.plan.now.block.bytes.now leaf.now.share.q) leaf.now.slot }
{
    let plan = leaf.share.plan;
    map_sections(entries, leaf);
    let pages = block_records::stack_pages(plan.block.bytes, leaf.share.q);
    sv32_tables::reserve_stack(entries, leaf.slot, pages);
}

// A leaf table, from entries that are all absent. (A function that returned its table would keep a copy of 4 KiB on the stack, which is fixed
// memory: with tables returned `tools/rv32-stack` tells three times as many bytes.)
pub(crate) fn leaf_entries(entries: &mut [u32], leaf: &Leaf)
    requires { entries.old ≡ tab 1024 (λ i. 0) }
    ensures { entries.new ≡ tab 1024 (leaf_entries_of leaf.now.share.plan.now leaf.now.share.q leaf.now.slot) }
{
    if leaf.share.q == 1 {
        kernel_entries(entries, leaf);
    } else {
        user_entries(entries, leaf);
    }
}
