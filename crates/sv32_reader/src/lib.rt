// The reader: walks page tables by the Sv32 rules, over any RAM, any start of RAM, any root table and any address.
#![tactic(auto)]

ghost use Rattle.std.specs.Prelude.{◌*◌, ◌≡◌, ◌<◌, is_some, IfSome};
ghost use Rattle.lent.specs.Lent.{memory};
ghost use Rattle.rules.specs.Lent.{page_area, memory_area, lies_in};
ghost use Rattle.rules.specs.Reader.{table_entry, page_answer, leaf_answer, root_answer, walk, page_in};

use lent::Memory;
use types::{Entry, PAGE_BYTES, PhysPage, Rights, TABLE_ENTRIES, VirtPage};

// A page's bytes, where it lies wholly in a memory.
pub fn page_in<'a>(m: Memory<'a>, page: PhysPage) -> Option<&'a [u8]>
    ensures found { is_some result ≡ lies_in (page_area page.0) (memory_area (memory m.entry)) }
    ensures bytes { IfSome result (λ part. part.now ≡ page_in (memory m.entry) page.0) }
{
    let size = PAGE_BYTES as usize;
    let from = (size * (page.0 as usize)).checked_sub(m.start as usize)?;
    let end = from + size;
    m.bytes.get(from..end)
}

// Entry i of a table; absent where the table is not wholly inside RAM.
fn table_entry(ram: Memory<'_>, table: PhysPage, i: u32) -> Entry
    requires { i < 1024 }
    ensures { result ≡ table_entry (memory ram.entry) table.0 i }
{
    match page_in(ram, table) {
        Some(entries) => sv32_entries::decode(slices::word(entries, 4 * (i as usize))),
        None => Entry::Absent,
    }
}

// The answer for a page: absent for write without read.
fn page_answer(t: Rights, page: PhysPage) -> Entry
    ensures { result ≡ page_answer t page.0 }
{
    if t.write && !t.read {
        Entry::Absent
    } else {
        Entry::Page(t, page)
    }
}

// The answer at an entry of a leaf table: absent for a pointer there.
fn leaf_answer(e: Entry) -> Entry
    ensures { result ≡ leaf_answer e }
{
    match e {
        Entry::Absent | Entry::Reserved => e,
        Entry::Pointer(_) => Entry::Absent,
        Entry::Page(t, p) => page_answer(t, p),
    }
}

// The answer at an entry of a root table, for index i of the next level. A page there has 4 MiB, and is absent where its number is no
// multiple of 1,024.
fn root_answer(ram: Memory<'_>, i: u32, e: Entry) -> Entry
    requires { i < 1024 }
    ensures { result ≡ root_answer (memory ram.entry) i e }
{
    match e {
        Entry::Absent | Entry::Reserved => e,
        Entry::Pointer(p) => leaf_answer(table_entry(ram, p, i)),
        Entry::Page(t, p) if p.0 % TABLE_ENTRIES == 0 => page_answer(t, PhysPage(p.0 + i)),
        Entry::Page(_, _) => Entry::Absent,
    }
}

// The walk at the addresses of a virtual page of the 32-bit address space.
fn walk_page(ram: Memory<'_>, root: PhysPage, page: VirtPage) -> Entry
    requires { page.0 < 0x10_0000 }
    ensures { result ≡ walk (memory ram.entry) root.0 (4096 * page.0) }
{
    let entry = table_entry(ram, root, page.slot());
    root_answer(ram, page.0 % TABLE_ENTRIES, entry)
}

// The walk from a root table at an address: absent, reserved, or the physical page that holds the address, with its rights, inside RAM or not.
pub fn walk(ram: Memory<'_>, root: PhysPage, address: u32) -> Entry
    ensures { result ≡ walk (memory ram.entry) root.0 address }
{
    walk_page(ram, root, VirtPage(address / PAGE_BYTES))
}
