// What is known of a block that no check refuses: only definitions and laws, no code.
#![tactic(auto)]
