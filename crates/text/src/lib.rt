// The bracket text: reading a book from bytes, and the words, numbers and stamps of its canonical spelling.
#![tactic(auto)]

mod aisles;
pub mod counts;
pub mod cursor;
mod form;
mod forms;
mod kind;
mod numbers;
pub mod order;
pub mod read;
mod reader;
mod rule;
pub mod sheet;
mod site;
mod spelling;
pub mod stamp;
