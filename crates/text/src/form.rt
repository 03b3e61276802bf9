// The forms of a text, one to a line.
use makes::rows::{AtomRow, RuleRow};

// What one form says; a vacant rule number has no row.
#[derive(Clone, Copy)]
pub enum Form<S> {
    Order,
    Atom(AtomRow<S>),
    Rule(Option<RuleRow>),
    End,
}
