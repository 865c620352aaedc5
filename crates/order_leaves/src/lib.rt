// How many tables a process has, counted by root slot, section by section. Nothing here goes page by page.
#![tactic(auto)]

ghost use Rattle.std.specs.Prelude.{◌&&◌, ◌≡◌, ◌/◌, leb, length};
ghost use Rattle.rules.specs.Order.{table_uses};
ghost use Rattle.order_leaves.specs.TakenSlots.{slot_taken, with_slots, IsTaken};

use block_records::Section;
use types::{STACK_SLOT, TABLE_ENTRIES};

// A section has a page in root slot m.
fn has_slot(section: Section, m: u32) -> bool
    ensures { result ≡ (leb (section.first_page.0 / 1024) m && leb m (section.last_page.0 / 1024)) }
{
    section.first_page.slot() <= m && m <= section.last_page.slot()
}

// One of the k section records from `first` on has a page in root slot m. The last is asked first.
fn slot_taken(block: &[u8], first: u32, k: u32, m: u32) -> bool
    ensures { result ≡ slot_taken block.now first k m }
{
    let at = first as usize;
    (0..k).rev().any(|i| has_slot(block_records::read_section(block, at + i as usize), m))
}

// Some root slots: how many, and a slot that all of them are below.
#[derive(Clone, Copy)]
struct Taken {
    slots: u32,
    end: u32,
}

// The root slots of the k section records from `first` on, which are `taken`, with slots `from` to `to` added. Only those below
// `taken.end` are looked for in the records: where sections rise, that is one at most.
fn take_slots(block: &[u8], first: u32, k: u32, taken: Taken, from: u32, to: u32) -> Taken
    requires { IsTaken (slot_taken block.now first k) taken }
    ensures { IsTaken (with_slots from to (slot_taken block.now first k)) result }
{
    // A section may end past the last root slot.
    let end = to.saturating_add(1).min(TABLE_ENTRIES);
    let shared = taken.end.min(end);
    let mut slots = taken.slots;
    for m in from..shared {
        if !slot_taken(block, first, k, m) {
            slots += 1;
        }
    }
    Taken {
        slots: slots + end.saturating_sub(from.max(shared)),
        end: taken.end.max(end),
    }
}

// How many tables process q has: its root table and its leaf tables. The kernel has one leaf table; a user process those of its
// sections, section by section, and that of its stack.
pub fn table_count(block: &[u8], q: u32) -> u32
    ensures { result ≡ length (table_uses block.now q) }
{
    if q == 1 {
        return 2;
    }
    let process = block_records::read_process(block, q);
    let first = process.first_section;
    let sections = process.sections;
    let mut taken = Taken { slots: 0, end: 0 };
    for j in 0..sections {
        let section = block_records::read_section(block, process.section(j));
        taken = take_slots(
            block,
            first,
            j,
            taken,
            section.first_page.slot(),
            section.last_page.slot(),
        );
    }
    let all = take_slots(block, first, sections, taken, STACK_SLOT, STACK_SLOT);
    1 + all.slots
}
