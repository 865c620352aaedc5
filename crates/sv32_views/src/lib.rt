// What is seen by way of the reader, over any RAM, any flash, any root table and any address.
#![tactic(auto)]

ghost use Rattle.std.specs.Prelude.{◌≡◌};
ghost use Rattle.lent.specs.Lent.{memory};
ghost use Rattle.rules.specs.Sees.{shown, seen_from};

use lent::Memory;
use types::{Entry, PAGE_BYTES, PhysPage, Rights, View};

// What a page shows at an address: its rights, and the byte of its part of RAM or flash; outside where it lies wholly in neither.
fn page_shown(ram: Memory<'_>, flash: Memory<'_>, address: u32, t: Rights, page: PhysPage) -> View
    ensures { result ≡ shown (memory ram.entry) (memory flash.entry) address (Entry.Page t page) }
{
    let part = sv32_pages::page_part(ram, flash, page);
    match part.get((address % PAGE_BYTES) as usize) {
        Some(byte) => View::Page(t, *byte),
        None => View::Outside(t),
    }
}

// What an answer of the walk shows at an address.
fn shown(ram: Memory<'_>, flash: Memory<'_>, address: u32, e: Entry) -> View
    ensures { result ≡ shown (memory ram.entry) (memory flash.entry) address e }
{
    match e {
        Entry::Absent | Entry::Pointer(_) => View::Absent,
        Entry::Reserved => View::Reserved,
        Entry::Page(t, p) => page_shown(ram, flash, address, t, p),
    }
}

// What is seen at an address by way of a root table in RAM: absent, reserved, or a page's rights, with one byte where the page lies wholly
// in RAM or in flash.
pub fn seen_from(ram: Memory<'_>, flash: Memory<'_>, root: PhysPage, address: u32) -> View
    ensures { result ≡ seen_from (memory ram.entry) (memory flash.entry) root.0 address }
{
    let found = sv32_reader::walk(ram, root, address);
    shown(ram, flash, address, found)
}
