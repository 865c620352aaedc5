// A board after a load: what the reader finds in its RAM, and the lines that say which page has which use.
#![tactic(auto)]

ghost use Rattle.std.specs.Prelude.{◌≡◌, ◌-◌, ◌/◌, None, Some, IfOk, IsErr};
ghost use Rattle.rules.specs.Lent.{memory_of, memory_area};
ghost use Rattle.rules.specs.Entries.{decode};
ghost use Rattle.rules.specs.Reader.{walk, page_at};
ghost use Rattle.rules.specs.Load.{answer};
ghost use Rattle.lent.specs.Lent.{memory, image as lent_image};
ghost use Rattle.refusals.specs.Answers.{answer_of};
ghost use Rattle.order_roots.specs.Roots.{root_found};
ghost use Rattle.loaded_board.specs.Loads.{load_answer, IsLoaded};
ghost use Rattle.loaded_board.specs.Pages.{page_of, leaf_of, page_word};
ghost use Rattle.loaded_board.specs.Uses.{board_page, use_line};

use lent::{Image, Memory};
use refusals::{Boot, Refused};
use std::fmt::{Display, Formatter};
use std::{fmt, io};
use types::{Area, Entry, PhysPage, RamPage};

// What was loaded into which RAM, what the loader answered, and where the board is printed.
#[derive(Clone, Copy)]
pub struct Board<'a> {
    pub image: Image<'a>,
    pub ram: Memory<'a>,
    pub boot: Boot,
    pub rt: &'a HostRuntime,
}

// A page by its number, counted from where flash or RAM starts.
#[derive(Clone, Copy)]
enum BoardPage {
    Flash(u32),
    Ram(RamPage),
}

// A page and its use, in one line: `page 15: section B`, `flash page 1: section A`
#[derive(Clone, Copy)]
struct Use<'a> {
    page: BoardPage,
    name: &'a str,
}

impl Display for Use<'_> {
    ghost output = { λ u. Some (use_line u.page u.name.now) };

    fn fmt<W: fmt::Write>(&self, f: &mut Formatter<W>) -> fmt::Result {
        let name = self.name;
        match self.page {
            BoardPage::Flash(k) => write!(f, "flash page {k}: {name}"),
            BoardPage::Ram(RamPage(k)) => write!(f, "page {k}: {name}"),
        }
    }
}

impl<'a> Board<'a> {
    // Loads the image into RAM, which starts at physical address `start`.
    pub fn load(
        image: Image<'a>,
        ram: &'a mut [u8],
        start: u32,
        rt: &'a HostRuntime,
    ) -> Result<Board<'a>, Refused>
        ensures answer { answer_of (load_answer result) ≡ answer (lent_image image.entry) (memory_of start ram.old) }
        ensures board { IfOk result (IsLoaded (lent_image image.entry) (memory_of start ram.old)) }
    {
        let boot = loader::load(image, ram, start)?;
        let ram = Memory { start, bytes: ram };
        Ok(Board {
            image,
            ram,
            boot,
            rt,
        })
    }

    // The root table of process q, by the order of pages; none where the block is refused or has no such process.
    pub fn root(&self, q: u32) -> Option<PhysPage>
        ensures { result ≡ root_found (lent_image self.now.image) (memory_area (memory self.now.ram)) q }
    {
        order_roots::find_root(self.image, Area::from(self.ram), q)
    }

    // The physical page that the reader answers at an address; none where it answers none.
    pub fn page_at(&self, root: PhysPage, address: u32) -> Option<PhysPage>
        ensures { result ≡ page_of (walk (memory self.now.ram) root.0 address) }
    {
        match sv32_reader::walk(self.ram, root, address) {
            Entry::Page(_, page) => Some(page),
            Entry::Absent | Entry::Reserved | Entry::Pointer(_) => None,
        }
    }

    // The bytes of the page that the reader answers at an address; none where it answers none, or one outside RAM and flash.
    pub fn bytes_at(&self, root: PhysPage, at: u32) -> &'a [u8]
        ensures { result.now ≡ page_at (memory self.now.ram) (memory self.now.image.flash) root.0 at }
    {
        sv32_pages::page(self.ram, self.image.flash, root, at)
    }

    // The RAM page at a physical page; 0 below RAM too.
    pub fn ram_page(&self, page: PhysPage) -> RamPage
        ensures { result.0 ≡ page.0 - self.now.ram.start / 4096 }
    {
        RamPage(page.0.saturating_sub(self.ram.start / 4096))
    }

    // Entry i of a table in RAM.
    pub fn entry(&self, table: PhysPage, i: u32) -> u32
        ensures { result ≡ page_word (memory self.now.ram) table.0 i }
    {
        let k = self.ram_page(table);
        slices::word(self.ram.bytes, 4096 * k.0 as usize + 4 * i as usize)
    }

    // The leaf table that a root table points to in a slot; none where it points to none.
    pub fn leaf_at(&self, root: PhysPage, slot: u32) -> Option<PhysPage>
        ensures { result ≡ leaf_of (decode (page_word (memory self.now.ram) root.0 slot)) }
    {
        match sv32_entries::decode(self.entry(root, slot)) {
            Entry::Pointer(table) => Some(table),
            Entry::Absent | Entry::Reserved | Entry::Page(_, _) => None,
        }
    }

    // The page of flash or RAM at a physical page: flash lies below RAM.
    fn board_page(&self, page: PhysPage) -> BoardPage
        ensures { result ≡ board_page (memory self.now.ram) (memory self.now.image.flash) page.0 }
    {
        if page.0 < self.ram.start / 4096 {
            BoardPage::Flash(page.0.saturating_sub(self.image.flash.start / 4096))
        } else {
            BoardPage::Ram(self.ram_page(page))
        }
    }

    // Prints which page has a use; an error where no page has it.
    pub fn print_use(&self, page: Option<PhysPage>, name: &str) -> io::Result<()>
        ensures { page ≡ None → IsErr result }
    {
        let Some(page) = page else {
            return Err(io::Error::other(name));
        };
        let page = self.board_page(page);
        self.rt.println(Use { page, name })
    }
}
