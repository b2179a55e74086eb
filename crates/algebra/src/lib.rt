// Whole numbers, finite sums and rows: definitions and lemmas that the other crates cite. There is no code here.
#![tactic(auto)]
