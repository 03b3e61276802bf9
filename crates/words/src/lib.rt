// Words of 64 bits, and sets of numbers that lie in them.
#![tactic(auto)]

pub mod numbers;
