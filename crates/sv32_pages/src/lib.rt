// The bytes of the page at an address, handed back uncopied: a part of RAM or of flash, over any two memories.
#![tactic(auto)]

ghost use Rattle.std.specs.Prelude.{◌≡◌};
ghost use Rattle.lent.specs.Lent.{memory};
ghost use Rattle.rules.specs.Reader.{page_bytes, page_at};

use lent::Memory;
use sv32_reader::page_in;
use types::{Entry, PhysPage};

// A page's bytes as a part of RAM or of flash: RAM's if the page lies wholly in RAM, else flash's; empty where it lies wholly in neither, as
// 01 names it for 02's A6. (RAM and flash are two parameters here as in the rules' `page_bytes`, `page_at` and `seen_from`.)
pub fn page_part<'a>(ram: Memory<'a>, flash: Memory<'a>, page: PhysPage) -> &'a [u8]
    ensures { result.now ≡ page_bytes (memory ram.entry) (memory flash.entry) page.0 }
{
    // RAM's empty part and not `&[]`, which would be a constant in memory: the library for RV32 has none.
    let none = &ram.bytes[..0];
    page_in(ram, page).or(page_in(flash, page)).unwrap_or(none)
}

// The bytes of the page at an address, by way of a root table in RAM: 4,096 of them, or none where no page is found or it lies wholly in
// neither memory.
pub fn page<'a>(ram: Memory<'a>, flash: Memory<'a>, root: PhysPage, address: u32) -> &'a [u8]
    ensures { result.now ≡ page_at (memory ram.entry) (memory flash.entry) root.0 address }
{
    match sv32_reader::walk(ram, root, address) {
        Entry::Page(_, page) => page_part(ram, flash, page),
        Entry::Absent | Entry::Reserved | Entry::Pointer(_) => &ram.bytes[..0],
    }
}
