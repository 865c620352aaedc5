// The leaf tables of a process, by rising root slot. Its sections rise, so each is found from where the one before was. Sections that are
// used in place have leaf tables as the others, and no place in the order of pages.
ghost use Rattle.std.specs.Prelude.{◌≡◌, ◌-◌};
ghost use Rattle.std.specs.Iterator.{at_most};
ghost use Rattle.accepted.specs.Sections.{own_slot};
ghost use Rattle.loader.specs.Leaves.{Found, NextLeaf};

use crate::leaf_cursor::{Leaf, LeafCursor};
use crate::plan::Share;
use types::{KERNEL_SLOT, STACK_SLOT};

// The slot for which process q has a leaf table whatever its sections.
fn own_slot(q: u32) -> u32
    ensures { result ≡ own_slot q }
{
    if q == 1 { KERNEL_SLOT } else { STACK_SLOT }
}

// The first leaf table from the cursor's slot on.
fn leaf_from<'a>(from: &LeafCursor<'a>) -> Option<Leaf<'a>>
    ensures { Found from.now result }
{
    let share = from.share;
    let plan = share.plan;
    let process = block_records::read_process(plan.block.bytes, share.q);
    let mut place = from.place;
    for j in from.section..process.sections {
        let n = process.section(j);
        let section = block_records::read_section(plan.block.bytes, n);
        if from.slot <= section.last_page.slot() {
            let slot = from.slot.max(section.first_page.slot());
            return Some(Leaf {
                share,
                slot,
                section: j,
                place,
            });
        }
        place += xip_sections::pages_taken(plan.block.xip, n, section.pages);
    }
    let slot = own_slot(share.q);
    if slot < from.slot {
        return None;
    }
    Some(Leaf {
        share,
        slot,
        section: process.sections,
        place,
    })
}

impl<'a> Iterator for LeafCursor<'a> {
    type Item = Leaf<'a>;

    ghost next_gives = { NextLeaf };

    ghost remaining = { λ s. at_most (1024 - s.slot) };

    fn next(&mut self) -> Option<Leaf<'a>> {
        let leaf = leaf_from(self)?;
        *self = LeafCursor {
            share: leaf.share,
            slot: leaf.slot + 1,
            section: leaf.section,
            place: leaf.place,
        };
        Some(leaf)
    }
}

impl<'a> Share<'a> {
    // All leaf tables of the process.
    pub(crate) fn leaves(&self) -> LeafCursor<'a>
        ensures { (result.share ≡ self.now) × (result.slot ≡ 0) }
    {
        LeafCursor {
            share: *self,
            slot: 0,
            section: 0,
            place: self.place,
        }
    }
}
