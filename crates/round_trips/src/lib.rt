// What the block writer writes and what is read from a block, each from the other: only laws, no code.
#![tactic(auto)]
