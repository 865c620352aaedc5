// Page table entries of Sv32, written and read. An entry has 22 bits of page number, so a number is taken modulo 0x400000.
#![tactic(auto)]

ghost use Rattle.std.specs.Prelude.{◌≡◌, ◌+◌, ◌*◌, ◌%◌};
ghost use Rattle.rules.specs.Entries.{pointer_entry, page_entry, rights_in, decode, satp_of};

use types::{Entry, PhysPage, Rights};

// The flags of an entry.
const VALID: u32 = 1;

const READ: u32 = 2;

const WRITE: u32 = 4;

const EXECUTE: u32 = 8;

const USER: u32 = 16;

const ACCESSED: u32 = 64;

const DIRTY: u32 = 128;

// The weight of the physical page number (PPN), and the first number that is too large for an entry.
const PPN_WEIGHT: u32 = 1024;

const PPN_END: u32 = 0x40_0000;

// The entry of a stack page: reserved, not valid.
pub const RESERVED: u32 = 22;

// The entry of a root table that points to the leaf table at `page`.
pub fn pointer_entry(page: PhysPage) -> u32
    ensures { result ≡ pointer_entry (page.0 % 0x40_0000) }
{
    PPN_WEIGHT * (page.0 % PPN_END) + VALID
}

// The entry of a leaf table for `page`, with these rights; accessed, and dirty where it can be written. With none of read, write and
// execute it reads as a pointer.
pub fn page_entry(page: PhysPage, rights: Rights) -> u32
    ensures { result ≡ page_entry (page.0 % 0x40_0000) rights }
{
    let flags = VALID
        + READ * u32::from(rights.read)
        + WRITE * u32::from(rights.write)
        + EXECUTE * u32::from(rights.execute)
        + USER * u32::from(rights.user)
        + ACCESSED
        + DIRTY * u32::from(rights.write);
    PPN_WEIGHT * (page.0 % PPN_END) + flags
}

// The rights that an entry's flags give.
fn rights_of(e: u32) -> Rights
    ensures { result ≡ rights_in e }
{
    Rights {
        read: e & READ != 0,
        write: e & WRITE != 0,
        execute: e & EXECUTE != 0,
        user: e & USER != 0,
    }
}

// A page table entry as it reads. In a valid entry bits 5 to 9 change nothing.
pub fn decode(e: u32) -> Entry
    ensures { result ≡ decode e }
{
    let page = PhysPage(e / PPN_WEIGHT);
    if e == RESERVED {
        Entry::Reserved
    } else if e & VALID == 0 {
        Entry::Absent
    } else if e & (READ | WRITE | EXECUTE) == 0 {
        Entry::Pointer(page)
    } else {
        Entry::Page(rights_of(e), page)
    }
}

// The satp word of an address space: mode Sv32, process q as its number (ASID), the page of its root table. Modulo 2^32.
pub fn satp_word(q: u32, root: PhysPage) -> u32
    ensures { result ≡ satp_of q root.0 % 0x1_0000_0000 }
{
    ((0x8000_0000 + 0x40_0000 * u64::from(q) + u64::from(root.0)) % 0x1_0000_0000) as u32
}
