// Books: what a book answers, the check that a book passes before it is run, and how refusals are told.
#![tactic(auto)]

pub mod book;
pub mod check;
pub mod fault;
pub mod walk;
