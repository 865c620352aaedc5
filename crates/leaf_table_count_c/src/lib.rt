// The count of leaf tables for C: bench/leaf-tables links it, and nothing else does. It stands here and in `leaf_table_count`, since a crate
// is a library or a static library (D158).
#![tactic(auto)]

ghost use Rattle.std.specs.Prelude.{◌≡◌, length, ltb};
ghost use Rattle.notation.specs.Choice.{choose};
ghost use Rattle.rules.specs.Block.{sections_of};
ghost use Rattle.rules.specs.Order.{table_uses};

// How many tables a process has: its root table and its leaf tables. 0 where it has more than 64 sections, so that no block makes the
// count run long.
#[unsafe(no_mangle)]
pub extern "C" fn bench_table_count(block: &[u8], process: u32) -> u32
    ensures { result ≡ choose (ltb 64 (sections_of block.now process)) 0 (length (table_uses block.now process)) }
{
    leaf_table_count::bench_table_count(block, process)
}
