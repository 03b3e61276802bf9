// Where a rule's atoms are read.

// A rule form: the place of its bracket, the rule's number, and the atoms declared.
#[derive(Clone, Copy)]
pub struct Site {
    pub form: usize,
    pub rule: usize,
    pub atoms: usize,
}
