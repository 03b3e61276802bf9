// The makes of books.
#![tactic(auto)]

pub mod body;
pub mod flat;
mod instance;
pub mod patterns;
pub mod repeating;
pub mod rows;
pub mod struck;
