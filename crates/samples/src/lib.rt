// Worked cases: those that are proved of the definitions, and tests of the code.
#![tactic(auto)]

pub mod cases;
#[cfg(test)]
mod checks;
#[cfg(test)]
mod orders;
pub mod plain;
#[cfg(test)]
mod repeats;
