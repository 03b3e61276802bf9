// A rule as a line of text.
use books::book::{Book, Sign};
use std::fmt;
use std::fmt::Display;

// A rule of a book, with names for its atoms: atom a has name a mod the number of names.
#[derive(Drop)]
pub struct RuleLine<'a, B> {
    pub book: &'a B,
    pub rule: usize,
    pub names: &'a [&'a str],
}

impl<B: Book> RuleLine<'_, B>
where
    B::Stamp: Display,
{
    // An atom's name and stamp.
    fn write_atom<W: fmt::Write>(&self, atom: usize, f: &mut fmt::Formatter<W>) -> fmt::Result {
        if !self.names.is_empty() {
            let name = self.names[atom % self.names.len()];
            write!(f, "{name}")?;
        }
        match self.book.stamp(atom) {
            Some(stamp) => write!(f, " ({stamp})"),
            None => write!(f, " (not in the book)"),
        }
    }
}

impl<B: Book> Display for RuleLine<'_, B>
where
    B::Stamp: Display,
{
    fn fmt<W: fmt::Write>(&self, f: &mut fmt::Formatter<W>) -> fmt::Result {
        let rule = self.rule;
        let Some(head) = self.book.head(rule) else {
            return write!(f, "rule {rule} is vacant");
        };
        write!(f, "rule {rule}: ")?;
        self.write_atom(head, f)?;
        let mut first = true;
        for (sign, no) in [(Sign::Positive, ""), (Sign::Negative, "not ")] {
            let count = self.book.body_count(rule, sign).unwrap_or(0);
            for atom in (0..count).filter_map(|i| self.book.body_atom(rule, sign, i)) {
                let joint = if first { "if" } else { "and" };
                write!(f, " {joint} {no}")?;
                self.write_atom(atom, f)?;
                first = false;
            }
        }
        Ok(())
    }
}
