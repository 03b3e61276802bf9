// The questions that every make of book answers.
ghost use Rattle.std.specs.Prelude.{◌≡◌, length};
ghost use Rattle.books.specs.Meaning.{Meaning, stamp_of, reading_of, head_of, body_count_of, body_atom_of};

use stamps::order::Order;

// Which of a rule's two lists: the positive atoms, or the negative ones.
#[derive(Clone, Copy, PartialEq, Eq, Debug)]
pub enum Sign {
    Positive,
    Negative,
}

// A list of filled-in rules over stamped atoms. Each question answers by the meaning and changes nothing.
pub trait Book {
    type Stamp: Order;

    ghost meaning: { Self → Meaning Self.Stamp };

    fn atom_count(&self) -> usize
        ensures { result ≡ length (meaning self.now).atoms };

    fn rule_count(&self) -> usize
        ensures { result ≡ length (meaning self.now).rules };

    // None beyond the count of atoms.
    fn stamp(&self, atom: usize) -> Option<Self::Stamp>
        ensures { result ≡ stamp_of (meaning self.now) atom };

    // Whether the atom is a reading; none beyond the count of atoms.
    fn reading(&self, atom: usize) -> Option<bool>
        ensures { result ≡ reading_of (meaning self.now) atom };

    // None for a vacant number and beyond the count of rule numbers, as for the questions below.
    fn head(&self, rule: usize) -> Option<usize>
        ensures { result ≡ head_of (meaning self.now) rule };

    // The length of the rule's list of that sign.
    fn body_count(&self, rule: usize, sign: Sign) -> Option<usize>
        ensures { result ≡ body_count_of (meaning self.now) rule sign };

    // Atom `i` of that list; none beyond its length.
    fn body_atom(&self, rule: usize, sign: Sign, i: usize) -> Option<usize>
        ensures { result ≡ body_atom_of (meaning self.now) rule sign i };
}
