// Loads the small board of 01 and prints what that leaves in RAM: the RAM page of every use, every entry of every table that is
// not absent, and the satp words. All is drawn from RAM by the reader, starting at the root table of process 2.
#![tactic(auto)]

use lent::Image;
use loaded_board::Board;
use small_block::{FLASH_START, START};
use std::io;
use types::{Entry, PhysPage};

// RAM's bytes, and its pages.
const RAM: usize = 65536;

const PAGES: usize = 16;

// The satp words of process 1 and 2, in the process list, which a root table leads to.
fn satp_words(board: &Board<'_>, root: PhysPage) -> (u32, u32) {
    let list = board.bytes_at(root, 0xFFF8_0000);
    (slices::word(list, 0), slices::word(list, 12))
}

// The root table that a satp word names: its page number is the word's low 22 bits.
fn root_in(satp: u32) -> PhysPage {
    PhysPage(satp % 0x40_0000)
}

// The root tables of process 1, the kernel, and process 2.
#[derive(Clone, Copy)]
struct Roots {
    kernel: PhysPage,
    user: PhysPage,
}

// Every use in the order of pages.
fn uses(board: &Board<'_>, roots: Roots) -> [(Option<PhysPage>, &'static str); 11] {
    [
        (board.page_at(roots.user, 0x0001_0020), "section A"),
        (board.page_at(roots.user, 0x0002_0000), "section B"),
        (board.page_at(roots.kernel, 0xFFC0_0000), "kernel section"),
        (board.page_at(roots.kernel, 0xFFF4_0000), "tracker"),
        (board.page_at(roots.kernel, 0xFFF8_0000), "process list"),
        (board.page_at(roots.kernel, 0xFFF0_0000), "block copy"),
        (Some(roots.kernel), "kernel root table"),
        (board.leaf_at(roots.kernel, 1023), "kernel leaf table"),
        (Some(roots.user), "root table of process 2"),
        (board.leaf_at(roots.user, 0), "its leaf table for slot 0"),
        (
            board.leaf_at(roots.user, 511),
            "its leaf table for slot 511",
        ),
    ]
}

fn print_uses(board: &Board<'_>, roots: Roots) -> io::Result<()> {
    for (page, name) in uses(board, roots) {
        board.print_use(page, name)?;
    }
    Ok(())
}

// The pages that the tracker calls free.
fn print_free(board: &Board<'_>, root: PhysPage) -> io::Result<()> {
    let tracker = board.bytes_at(root, 0xFFF4_0000);
    for (k, owner) in tracker.iter().take(PAGES).enumerate() {
        if *owner == 0 {
            println!(board.rt; "page {k}: free")?;
        }
    }
    Ok(())
}

// `page 2 entry 16: 0x10002C5B` for each entry that is not absent.
fn print_table(board: &Board<'_>, table: PhysPage) -> io::Result<()> {
    let k = board.ram_page(table).0;
    for i in 0..1024 {
        let word = board.entry(table, i);
        if sv32_entries::decode(word) != Entry::Absent {
            println!(board.rt; "page {k} entry {i}: {word:#010X}")?;
        }
    }
    Ok(())
}

fn tables(board: &Board<'_>, roots: Roots) -> Option<[PhysPage; 5]> {
    Some([
        roots.kernel,
        board.leaf_at(roots.kernel, 1023)?,
        roots.user,
        board.leaf_at(roots.user, 0)?,
        board.leaf_at(roots.user, 511)?,
    ])
}

fn print_tables(board: &Board<'_>, roots: Roots) -> io::Result<()> {
    let tables = tables(board, roots).ok_or_else(|| io::Error::other("no leaf table"))?;
    for table in tables {
        print_table(board, table)?;
    }
    Ok(())
}

fn print_board(board: &Board<'_>, root: PhysPage) -> io::Result<()> {
    let (first, second) = satp_words(board, root);
    let roots = Roots {
        kernel: root_in(first),
        user: root_in(second),
    };
    print_uses(board, roots)?;
    print_free(board, root)?;
    print_tables(board, roots)?;
    println!(board.rt; "satp of process 1: {first:#010X}")?;
    println!(board.rt; "satp of process 2: {second:#010X}")
}

fn main(rt: HostRuntime) -> io::Result<()> {
    let block = small_block::block();
    let flash = [0u8; small_block::FLASH];
    let image = Image::new(&block, &flash, FLASH_START);
    let mut ram = buffers::zeros::<RAM>();
    let loaded = Board::load(image, &mut ram, START, &rt);
    let board = loaded.map_err(|_| io::Error::other("the board is refused"))?;
    let root = board
        .root(2)
        .ok_or_else(|| io::Error::other("no root table"))?;
    print_board(&board, root)
}
