// The count of leaf tables, to be measured; `leaf_table_count_c` hands it on to C.
#![tactic(auto)]

ghost use Rattle.std.specs.Prelude.{◌≡◌, length, ltb};
ghost use Rattle.notation.specs.Choice.{choose};
ghost use Rattle.rules.specs.Block.{sections_of};
ghost use Rattle.rules.specs.Order.{table_uses};

// The most section records that a block has by 01's bounds.
const SECTIONS_MAX: u32 = 64;

// How many tables a process has: its root table and its leaf tables. 0 where it has more than 64 sections, so that no block makes the
// count run long.
#[tactic(auto, unfolding(notation::specs::Choice::choose))]
pub fn bench_table_count(block: &[u8], process: u32) -> u32
    ensures { result ≡ choose (ltb 64 (sections_of block.now process)) 0 (length (table_uses block.now process)) }
{
    let record = block_records::read_process(block, process);
    if SECTIONS_MAX < record.sections {
        0
    } else {
        order_leaves::table_count(block, process)
    }
}
