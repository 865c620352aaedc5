// The owners of section records. Each function answers for any block and any number.
#![tactic(auto)]

ghost use Rattle.std.specs.Prelude.{◌≡◌};
ghost use Rattle.rules.specs.Block.{has_section, owner_of};

// Section record n is one of the sections of process record i.
#[tactic(auto, unfolding(rules::specs::Block::has_section))]
fn has_section(block: &[u8], n: usize, i: u32) -> bool
    ensures { result ≡ has_section block.now n i }
{
    let process = block_records::read_process_record(block, i);
    process.section(0) <= n && n < process.section(process.sections)
}

// The process that owns section record n: the last that has it, 0 where none does. (0 and no None: so `owner_of` of the rules has it, which
// this promises, and the rules' checks of a section go on with it as a process number.)
pub fn owner_of(block: &[u8], n: usize) -> u32
    ensures { result ≡ owner_of block.now n }
{
    (0..block_header::process_count(block))
        .rev()
        .find(|i| has_section(block, n, *i))
        .map_or(0, |i| i + 1)
}
