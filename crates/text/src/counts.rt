// How many of what a book has.

// So many atoms and rules: what a text has, or what there is room for.
#[derive(Clone, Copy, PartialEq, Eq, Debug)]
pub struct Counts {
    pub atoms: usize,
    pub rules: usize,
}
