// What a call is lent to read: the boot block and memories, with the physical address at which each memory starts.
#![tactic(auto)]

ghost use Rattle.std.specs.Prelude.{◌≡◌};
ghost use Rattle.rules.specs.Lent.{image_of, memory_area};
ghost use Rattle.lent.specs.Lent.{memory, image};

use types::Area;

// A memory, RAM or flash: `bytes` from physical address `start` on.
#[derive(Clone, Copy)]
pub struct Memory<'a> {
    pub start: u32,
    pub bytes: &'a [u8],
}

// Where a memory lies.
impl From<Memory<'_>> for Area {
    ghost from_gives = { λ m r. r ≡ memory_area (memory m) };

    fn from(memory: Memory<'_>) -> Area {
        Area {
            start: memory.start,
            length: memory.bytes.len(),
        }
    }
}

// What is to be loaded: the bytes of the boot block, and flash, whose bytes are the image.
#[derive(Clone, Copy)]
pub struct Image<'a> {
    pub block: &'a [u8],
    pub flash: Memory<'a>,
}

impl<'a> Image<'a> {
    // A block, and flash, which starts at physical address `flash_start`.
    pub fn new(block: &'a [u8], flash: &'a [u8], flash_start: u32) -> Image<'a>
        ensures { image result ≡ image_of block.now flash_start flash.now }
    {
        Image {
            block,
            flash: Memory {
                start: flash_start,
                bytes: flash,
            },
        }
    }
}

// A boot block, and where flash and RAM lie: what each refusal of a load but 12 is drawn from.
#[derive(Clone, Copy)]
pub struct Placed<'a> {
    pub block: &'a [u8],
    pub flash: Area,
    pub ram: Area,
}
