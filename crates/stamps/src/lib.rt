// Stamp orders: what a rule's atoms are compared by.
#![tactic(auto)]

pub mod order;
pub mod route;
pub mod then;
pub mod tick;
