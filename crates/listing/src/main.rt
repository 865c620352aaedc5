// listing BLOCK FLASH START PAGES [FLASH_START]: loads a boot block file and a flash file, which starts at physical address
// FLASH_START, into RAM of so many pages, which starts at physical address START, and prints the listing of 01. With no arguments it
// lists the small board; with -h or --help alone it prints how it is called. What is wrong with an argument is said in one line on
// standard error, and nothing else is printed.
#![tactic(auto)]

ghost use Rattle.std.specs.Prelude.{◌≤◌};
ghost use Rattle.listing.specs.declared.TheConstants.{PAGES};

use command_line::{Complained, Program};
use lent::Image;
use program_files::Contents;

// RAM's pages at most.
const PAGES: u32 = 16;

// RAM's bytes at most.
const RAM: usize = 65536;

// A flash file's bytes at most.
const FLASH: usize = 262144;

const USAGE: &str = "listing BLOCK FLASH START PAGES [FLASH_START]";

const NOT_NUMBER: &str = "not a number below 2^32, decimal or hexadecimal after 0x";

const HELP: &str = "listing BLOCK FLASH START PAGES [FLASH_START]\n\
    Loads a boot block and a flash image into RAM, and prints the boot, or the refusal's number, place and byte in the block.\n\
    BLOCK: the boot block file\n\
    FLASH: the flash file, of at most 262,144 bytes\n\
    START: the physical address at which RAM starts, below 2^32\n\
    PAGES: how many pages of 4,096 bytes RAM has, at most 16\n\
    FLASH_START: the physical address at which flash starts, below 2^32; 0x20000000 where it is left out\n\
    START, PAGES and FLASH_START are decimal, or hexadecimal after 0x.\n\
    Without arguments it loads 01's small board. With -h or --help alone it prints this.\n";

// Where RAM and flash start, and how many pages RAM has.
#[derive(Clone, Copy)]
struct Board {
    start: u32,
    pages: u32,
    flash_start: u32,
    ghost in_ram: { pages ≤ PAGES },
}

// Loads, and prints the listing. (Not inlined: a call that loads nothing takes no stack for RAM.)
#[inline(never)]
fn list(program: Program<'_>, block: &[u8], flash: &[u8], board: Board) {
    let mut ram = buffers::zeros::<RAM>();
    let end = 4096 * board.pages as usize;
    // 16 processes have less text than that.
    let mut text = [0u8; 1024];
    let image = Image::new(block, flash, board.flash_start);
    let n = report::load_listing(image, &mut ram[..end], board.start, &mut text);
    program.print(&text[..n]);
}

fn list_small_board(program: Program<'_>) {
    let board = Board {
        start: small_block::START,
        pages: PAGES,
        flash_start: small_block::FLASH_START,
    };
    let flash = [0u8; small_block::FLASH];
    list(program, &small_block::block(), &flash, board);
}

// The number that argument i spells.
fn number_argument(program: Program<'_>, i: usize, what: &str) -> Result<u32, Complained> {
    program
        .argument(i, &mut [0u8; 4096])
        .and_then(|text| numerals::read_number(text).ok())
        .ok_or_else(|| program.complain(what, NOT_NUMBER))
}

// Arguments 3 to 5, of which the last may be left out.
fn board_arguments(program: Program<'_>, count: usize) -> Result<Board, Complained> {
    let start = number_argument(program, 3, "START")?;
    let pages = number_argument(program, 4, "PAGES")?;
    if pages > PAGES {
        return Err(program.complain("PAGES", "over 16"));
    }
    let flash_start = if count > 5 {
        number_argument(program, 5, "FLASH_START")?
    } else {
        small_block::FLASH_START
    };
    Ok(Board {
        start,
        pages,
        flash_start,
    })
}

// The block file that argument 1 names, put at the start of `block`, by way of `text`. A block that is accepted has at most 1,568 bytes. So of a longer
// file no more than the buffer holds can matter: it is refused by its length or before.
fn block_argument<'b>(
    program: Program<'_>,
    text: &mut [u8],
    block: &'b mut [u8],
) -> Result<&'b [u8], Complained> {
    let name = program.name_argument(1, text, "BLOCK")?;
    match program_files::read_file(program.rt, name, block) {
        Ok(Contents::Whole(bytes) | Contents::Start(bytes)) => Ok(bytes),
        Err(error) => Err(program.fail_on(name, error)),
    }
}

// The board of a block and a flash file. (Not inlined: only a call that has come to its flash file takes stack for one.)
#[inline(never)]
fn list_with_flash(
    program: Program<'_>,
    block: &[u8],
    name: &str,
    count: usize,
) -> Result<(), Complained> {
    let mut flash = buffers::zeros::<FLASH>();
    let flash = program_files::whole_file(program, name, &mut flash, "over 262,144 bytes")?;
    let board = board_arguments(program, count)?;
    list(program, block, flash, board);
    Ok(())
}

// Of `count` arguments, the program's own name among them.
fn list_arguments(program: Program<'_>, count: usize) -> Result<(), Complained> {
    let mut block = [0u8; 4096];
    let mut text = [0u8; 4096];
    let block = block_argument(program, &mut text, &mut block)?;
    let name = program.name_argument(2, &mut text, "FLASH")?;
    list_with_flash(program, block, name, count)
}

fn main(rt: HostRuntime) {
    let program = Program {
        name: "listing",
        rt: &rt,
    };
    // The program's own name counts too.
    let count = program.argument_count(7);
    match count {
        0 | 1 => list_small_board(program),
        2 if program.help_asked() => program.print(HELP.as_bytes()),
        2 => _ = program.complain("FLASH is missing", USAGE),
        3 => _ = program.complain("START is missing", USAGE),
        4 => _ = program.complain("PAGES is missing", USAGE),
        5 | 6 => _ = list_arguments(program, count),
        _ => _ = program.complain("too many arguments", USAGE),
    }
}
