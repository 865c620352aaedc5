// Demands 2 and 3 as calls: one load, and what a process sees after it; and the same block and flash, at one address, on two RAMs.
#![tactic(auto)]

ghost use Rattle.std.specs.Prelude.{◌≡◌};
ghost use Rattle.rules.specs.Lent.{memory_of};
ghost use Rattle.lent.specs.Lent.{memory, image as lent_image};
ghost use Rattle.two_boards.specs.Promise.{seen_at, OneBoard, TwoBoards};

use lent::{Image, Memory};
use refusals::{Boot, Refused};
use types::{Area, PhysPage, View};

// The answer of a call, and what the process sees at the address after it.
#[derive(Clone, Copy)]
pub struct Board {
    pub answer: Result<Boot, Refused>,
    pub seen: View,
}

#[derive(Clone, Copy)]
pub struct Boards {
    pub first: Board,
    pub second: Board,
}

// What is seen by way of a root, or nothing.
fn seen_at(root: Option<PhysPage>, ram: Memory<'_>, flash: Memory<'_>, address: u32) -> View
    ensures { result ≡ seen_at root (memory ram.entry) (memory flash.entry) address }
{
    match root {
        None => View::Absent,
        Some(page) => sv32_views::seen_from(ram, flash, page, address),
    }
}

// Loads `image` into RAM, which starts at physical address `start`, and asks what process q sees at an address. Its root is found by the
// order of pages.
pub fn boot_one(image: Image<'_>, ram: &mut [u8], start: u32, q: u32, address: u32) -> Board
    ensures { OneBoard (lent_image image.entry) (memory_of start ram.old) ram.new q address result }
{
    let area = Area {
        start,
        length: ram.len(),
    };
    let root = order_roots::find_root(image, area, q);
    let answer = loader::load(image, ram, start);
    let loaded = Memory { start, bytes: ram };
    let seen = seen_at(root, loaded, image.flash, address);
    Board { answer, seen }
}

// Loads `image` into two RAMs, and asks on both what process q sees at an address.
pub fn boot_both(
    image: Image<'_>,
    ram: &mut [u8],
    start: u32,
    second_ram: &mut [u8],
    second_start: u32,
    q: u32,
    address: u32,
) -> Boards
    ensures { TwoBoards (lent_image image.entry) (memory_of start ram.old) (memory_of second_start second_ram.old) ram.new second_ram.new q address result }
{
    let first = boot_one(image, ram, start, q, address);
    let second = boot_one(image, second_ram, second_start, q, address);
    Boards { first, second }
}
