// Writing a book in canonical spelling, and what the program that reads and writes books prints.
#![tactic(auto)]

pub mod canonical;
mod gaps;
mod lines;
pub mod reply;
pub mod write;
