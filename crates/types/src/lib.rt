// The types that the definitions, the promises and the code share, and numbers of the format that the code names.
#![tactic(auto)]

ghost use Rattle.std.specs.Prelude.{◌≡◌, ◌+◌, ◌/◌, get_or};

// Bytes in a page.
pub const PAGE_BYTES: u32 = 4096;

// Entries in a page table.
pub const TABLE_ENTRIES: u32 = 1024;

// The root slot of the kernel's 4 MiB: a root table's last.
pub const KERNEL_SLOT: u32 = 1023;

// The root slot of a user process's stack.
pub const STACK_SLOT: u32 = 511;

// The pages at the top of RAM that no load takes: the loader's stack and its guard.
pub const TOP_PAGES: u32 = 4;

// A RAM page number: RAM page k starts at RAM's start + 4,096 k.
#[derive(Clone, Copy, PartialEq, Eq, Debug)]
pub struct RamPage(pub u32);

// A virtual page number (VPN): a virtual address / 4,096.
#[derive(Clone, Copy, PartialEq, Eq, Debug)]
pub struct VirtPage(pub u32);

impl VirtPage {
    // The slot of a root table that it lies in.
    pub fn slot(self) -> u32
        ensures { result ≡ self.0 / 1024 }
    {
        self.0 / TABLE_ENTRIES
    }
}

// A physical page number (PPN): a physical address / 4,096.
#[derive(Clone, Copy, PartialEq, Eq, Debug)]
pub struct PhysPage(pub u32);

// Physical addresses from `start` on: `length` bytes.
#[derive(Clone, Copy, PartialEq, Eq, Debug)]
pub struct Area {
    pub start: u32,
    pub length: usize,
}

// RAM as whole pages: `pages` of them, from physical page `base` on.
#[derive(Clone, Copy, PartialEq, Eq, Debug)]
pub struct PageRange {
    pub base: u32,
    pub pages: u32,
}

// The rights of a page: what may be done with its bytes, and whether a user program may do it.
#[derive(Clone, Copy, PartialEq, Eq, Debug)]
pub struct Rights {
    pub read: bool,
    pub write: bool,
    pub execute: bool,
    pub user: bool,
}

// A page table entry as it reads. The walk answers by the same cases, and never by Pointer.
#[derive(Clone, Copy, PartialEq, Eq, Debug)]
pub enum Entry {
    Absent,
    // The stack reservation of a user process.
    Reserved,
    // To a leaf table.
    Pointer(PhysPage),
    Page(Rights, PhysPage),
}

// What a process sees at an address: nothing, its stack reservation, or a page's rights and one byte.
#[derive(Clone, Copy, PartialEq, Eq, Debug)]
pub enum View {
    Absent,
    Reserved,
    Page(Rights, u8),
    // A page that lies wholly neither in RAM nor in flash: never after a boot.
    Outside(Rights),
}

// A process record of the boot block: its four words.
#[derive(Clone, Copy, PartialEq, Eq, Debug)]
pub struct Process {
    pub entry_point: u32,
    pub first_section: u32,
    pub sections: u32,
    pub kind_word: u32,
}

impl Process {
    // The number of the section record that is its section j, counted from 0.
    pub fn section(self, j: u32) -> usize
        ensures { result ≡ self.first_section + j }
    {
        self.first_section as usize + j as usize
    }
}

// A process record of these words, in their order.
impl From<[u32; 4]> for Process {
    ghost from_gives = { λ words r. r ≡ record { entry_point = get_or words 0 0; first_section = get_or words 1 0; sections = get_or words 2 0; kind_word = get_or words 3 0 } };

    fn from(words: [u32; 4]) -> Process {
        let [entry_point, first_section, sections, kind_word] = words;
        Process {
            entry_point,
            first_section,
            sections,
            kind_word,
        }
    }
}
