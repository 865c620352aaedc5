// Loads a board whose user processes are of kind 1, and prints the pages taken and free, the page of every use in the order of pages,
// and for each section the entry that leads to it and the first word that its process sees there. Sections A and D have the same
// bytes, which lie in flash as in their pages, with zeros around them: both are used in place. B is copied, since the kernel's bytes
// are on its flash page, and C, since the image ends in its flash page.
#![tactic(auto)]

use lent::Image;
use loaded_board::Board;
use std::io;
use types::PhysPage;

const START: u32 = 0x4000_0000;

// RAM's bytes: 20 pages.
const RAM: usize = 81920;

const FLASH_START: u32 = 0x2000_0000;

// The image's bytes.
const FLASH: usize = 0x2040;

// The block's words, four in a row: the header, the process records, and the section records: the kernel's, A, B, C and D.
const WORDS: [[u32; 4]; 10] = [
    [1, 160, 3, 32],
    [5, 80, 0, 160],
    [0xFFC0_0010, 0, 1, 0],
    [0x0001_0020, 1, 3, 1],
    [0x0005_0020, 4, 1, 1],
    [0xFFC0_0000, 256, 0, 4],
    [0x0001_0020, 64, 0x1020, 4],
    [0x0002_0140, 64, 0x140, 0],
    [0x0003_0000, 64, 0x2000, 0],
    [0x0005_0020, 64, 0x1020, 4],
];

fn block() -> [u8; 160] {
    let mut block = [0u8; 160];
    word_stores::words_in(&mut block, WORDS.as_flattened());
    block
}

// The image, with the first word of each section.
fn flash() -> [u8; FLASH] {
    let mut flash = buffers::zeros::<FLASH>();
    word_stores::put_word(&mut flash, 0, 0x1111_1111);
    word_stores::put_word(&mut flash, 0x140, 0xBBBB_BBBB);
    word_stores::put_word(&mut flash, 0x1020, 0xAAAA_AAAA);
    word_stores::put_word(&mut flash, 0x2000, 0xCCCC_CCCC);
    flash
}

// The root tables of the three processes.
#[derive(Clone, Copy)]
struct Roots {
    kernel: PhysPage,
    second: PhysPage,
    third: PhysPage,
}

fn root_tables(board: &Board<'_>) -> Option<Roots> {
    Some(Roots {
        kernel: board.root(1)?,
        second: board.root(2)?,
        third: board.root(3)?,
    })
}

// The pages of sections, and the kernel's other pages, by the root table that leads to each and their address there.
fn print_pages(board: &Board<'_>, roots: Roots) -> io::Result<()> {
    for (root, address, name) in [
        (roots.second, 0x0001_0020, "section A of process 2"),
        (roots.second, 0x0002_0140, "section B of process 2"),
        (roots.second, 0x0003_0000, "section C of process 2"),
        (roots.third, 0x0005_0020, "section D of process 3"),
        (roots.kernel, 0xFFC0_0000, "kernel section"),
        (roots.kernel, 0xFFF4_0000, "tracker"),
        (roots.kernel, 0xFFF8_0000, "process list"),
        (roots.kernel, 0xFFF0_0000, "block copy"),
    ] {
        board.print_use(board.page_at(root, address), name)?;
    }
    Ok(())
}

fn print_tables(board: &Board<'_>, roots: Roots) -> io::Result<()> {
    for (table, name) in [
        (Some(roots.kernel), "kernel root table"),
        (board.leaf_at(roots.kernel, 1023), "kernel leaf table"),
        (Some(roots.second), "root table of process 2"),
        (board.leaf_at(roots.second, 0), "its leaf table for slot 0"),
        (
            board.leaf_at(roots.second, 511),
            "its leaf table for slot 511",
        ),
        (Some(roots.third), "root table of process 3"),
        (board.leaf_at(roots.third, 0), "its leaf table for slot 0"),
        (
            board.leaf_at(roots.third, 511),
            "its leaf table for slot 511",
        ),
    ] {
        board.print_use(table, name)?;
    }
    Ok(())
}

// `0x00010020: entry 0x0800045b, word 0xaaaaaaaa`: an address in slot 0, the entry of its page, and the word that is seen there.
fn print_seen(board: &Board<'_>, root: PhysPage, address: u32) -> io::Result<()> {
    let leaf = board
        .leaf_at(root, 0)
        .ok_or_else(|| io::Error::other("no leaf table"))?;
    let entry = board.entry(leaf, address / 4096);
    let word = slices::word(board.bytes_at(root, address), address as usize % 4096);
    println!(board.rt; "{address:#010x}: entry {entry:#010x}, word {word:#010x}")
}

fn print_words(board: &Board<'_>, roots: Roots) -> io::Result<()> {
    for (root, address) in [
        (roots.second, 0x0001_0020),
        (roots.second, 0x0002_0140),
        (roots.second, 0x0003_0000),
        (roots.third, 0x0005_0020),
    ] {
        print_seen(board, root, address)?;
    }
    Ok(())
}

fn main(rt: HostRuntime) -> io::Result<()> {
    let block = block();
    let flash = flash();
    let image = Image::new(&block, &flash, FLASH_START);
    let mut ram = buffers::zeros::<RAM>();
    let loaded = Board::load(image, &mut ram, START, &rt);
    let board = loaded.map_err(|_| io::Error::other("the board is refused"))?;
    let boot = board.boot;
    println!(rt; "{} pages taken, {} free", boot.taken, boot.free)?;
    let roots = root_tables(&board).ok_or_else(|| io::Error::other("no root table"))?;
    print_pages(&board, roots)?;
    print_tables(&board, roots)?;
    print_words(&board, roots)
}
