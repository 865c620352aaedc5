// Page table entries written into a lent table. A table may have any length; root slot m's leaf table has the entries of
// virtual pages 1,024 m on.
#![tactic(auto)]

ghost use Rattle.std.specs.Prelude.{◌≡◌, ◌%◌, ◌<◌, set};
ghost use Rattle.rules.specs.Entries.{pointer_entry};
ghost use Rattle.sv32_tables.specs.Filled.{nth_page, pages_mapped, stack_reserved};

use sv32_entries::{RESERVED, page_entry, pointer_entry};
use types::{PhysPage, Rights, TABLE_ENTRIES, VirtPage};

// The virtual page where every stack ends.
const STACK_END: usize = 0x8_0000;

// Physical pages one after the other: `first`, and then each next higher one where they rise, else each next lower.
#[derive(Clone, Copy, PartialEq, Eq, Debug)]
pub struct Run {
    pub first: PhysPage,
    pub rises: bool,
}

impl Run {
    // The page n pages after the first, or page 0 once they run out. A number is taken modulo 0x400000.
    #[tactic(auto, unfolding(crate::specs::Filled::nth_page, notation::specs::Choice::choose))]
    fn nth(self, n: usize) -> PhysPage
        requires { n < 0x1_0000_0000_0000 }
        ensures { result.0 % 0x40_0000 ≡ nth_page self.first.0 self.rises n % 0x40_0000 }
    {
        let start = self.first.0 as usize;
        if self.rises {
            PhysPage(((start + n) % 0x40_0000) as u32)
        } else {
            PhysPage(start.saturating_sub(n) as u32)
        }
    }
}

// Maps the virtual pages `from` to `to` that lie in the leaf table for root slot `slot`, to the pages of a run. (By an index: RV32's library
// has no method of a slice's iterator, D166.)
pub fn map_pages(
    entries: &mut [u32],
    slot: u32,
    from: VirtPage,
    to: VirtPage,
    run: Run,
    rights: Rights,
)
    ensures { entries.new ≡ pages_mapped entries.old slot from.0 to.0 run.first.0 run.rises rights }
{
    let base = (TABLE_ENTRIES as usize) * (slot as usize);
    let start = from.0 as usize;
    let past = (to.0 as usize + 1).saturating_sub(base);
    for i in start.saturating_sub(base)..past.min(entries.len()) {
        entries[i] = page_entry(run.nth(base + i - start), rights);
    }
}

// Reserves a stack's pages that lie in the leaf table for root slot `slot`: the last `pages` virtual pages below 0x80000, all
// of them where `pages` is more.
pub fn reserve_stack(entries: &mut [u32], slot: u32, pages: u32)
    ensures { entries.new ≡ stack_reserved entries.old slot pages }
{
    let base = (TABLE_ENTRIES as usize) * (slot as usize);
    let first = STACK_END.saturating_sub(pages as usize);
    let end = STACK_END.saturating_sub(base).min(entries.len());
    let start = first.saturating_sub(base).min(end);
    entries[start..end].fill(RESERVED);
}

// Points a root table's slot to the leaf table at physical page `leaf`. A slot past the table's end is none.
pub fn point_to_leaf(entries: &mut [u32], slot: u32, leaf: PhysPage)
    ensures { entries.new ≡ set entries.old slot (pointer_entry (leaf.0 % 0x40_0000)) }
{
    let m = slot as usize;
    // By index: after `get_mut` a proof knows no entry of the table.
    if m < entries.len() {
        entries[m] = pointer_entry(leaf);
    }
}
