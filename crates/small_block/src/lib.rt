// The small board of 01: its boot block, where its RAM and its flash start, and how large its flash is.
#![tactic(auto)]

ghost use Rattle.std.specs.Prelude.{◌≡◌};
ghost use Rattle.rules.specs.Examples.{board as boardOf, small_board};

pub const START: u32 = 0x4000_0000;

// Where flash starts; 01 leaves it open.
pub const FLASH_START: u32 = 0x2000_0000;

// In bytes; 01 leaves open what they are.
pub const FLASH: usize = 320;

// The boot block, with the entry point and the kind word of process 2, the address of its section B and the start of the region as given.
pub fn board(entry_point: u32, kind_word: u32, section_b: u32, region: u32) -> [u8; 120]
    ensures { result ≡ boardOf entry_point kind_word section_b region }
{
    let words = [
        1,
        120,
        2,
        32,
        3,
        64,
        1,
        112,
        0xFFC0_0010,
        0,
        1,
        0,
        entry_point,
        1,
        2,
        kind_word,
        0xFFC0_0000,
        256,
        0,
        4,
        0x0001_0020,
        64,
        256,
        4,
        section_b,
        4096,
        0,
        3,
        region,
        2,
    ];
    let mut block = [0u8; 120];
    word_stores::words_in(&mut block, &words);
    block
}

// The boot block as 01 gives it.
#[tactic(auto, unfolding(rules::specs::Examples::small_board))]
pub fn block() -> [u8; 120]
    ensures { result ≡ small_board }
{
    board(0x0001_0020, 0, 0x0002_0000, 0xF000_0000)
}
