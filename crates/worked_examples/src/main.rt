// P1 to P12 of 01: the small board with one change each, listed.
#![tactic(auto)]

ghost use Rattle.std.specs.Prelude.{◌≤◌};

use lent::Image;
use small_block::{FLASH, FLASH_START};
use std::io;

// The small board's entry point of process 2, the address of B and the start of the region.
const ENTRY: u32 = 0x0001_0020;

const B: u32 = 0x0002_0000;

const REGION: u32 = 0xF000_0000;

// The kind word of a process of kind 0 with a stack of four pages.
const FOUR_PAGES: u32 = 0x0400;

// RAM's bytes at most: 16 pages.
const RAM: usize = 65536;

// Prints the name and the listing.
fn list_on(
    rt: &impl Print,
    name: &str,
    block: &[u8],
    flash_bytes: usize,
    pages: usize,
) -> io::Result<()>
    requires flash { flash_bytes ≤ FLASH }
    requires ram { pages ≤ 16 }
{
    let flash = [0u8; FLASH];
    let mut ram = buffers::zeros::<RAM>();
    let mut text = [0u8; 1024];
    let n = report::load_listing(
        Image::new(block, &flash[..flash_bytes], FLASH_START),
        &mut ram[..4096 * pages],
        small_block::START,
        &mut text,
    );
    println!(rt; "{name}")?;
    rt.write_all(&text[..n])
}

// The same on all of RAM, with all of flash.
fn list(rt: &impl Print, name: &str, block: &[u8]) -> io::Result<()> {
    list_on(rt, name, block, FLASH, 16)
}

fn main(rt: HostRuntime) -> io::Result<()> {
    use small_block::{block, board};
    list(&rt, "P1", &block())?;
    list_on(&rt, "P2", &block(), FLASH, 15)?;
    list_on(&rt, "P3", &block(), FLASH, 14)?;
    list(&rt, "P4", &[])?;
    list(&rt, "P5", &board(0x0001_005F, 0, B, REGION))?;
    list(&rt, "P6", &board(0x0001_0060, 0, B, REGION))?;
    list_on(&rt, "P7", &block(), 319, 16)?;
    list(&rt, "P8", &board(ENTRY, 0, 0x0001_0060, REGION))?;
    list(&rt, "P9", &board(ENTRY, 0, 0x0001_1000, REGION))?;
    list(&rt, "P10", &board(ENTRY, FOUR_PAGES, 0x7FFF_B000, REGION))?;
    list(&rt, "P11", &board(ENTRY, FOUR_PAGES, 0x7FFF_B001, REGION))?;
    list(&rt, "P12", &board(ENTRY, 0, B, 0x4000_F000))?;
    list(&rt, "P12", &board(ENTRY, 0, B, 0x4001_0000))
}
