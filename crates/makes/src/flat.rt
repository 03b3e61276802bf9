// The flat book: atoms and rules in tables that the caller hands in.
ghost use Rattle.std.specs.Prelude.{◌≡◌};
ghost use Rattle.std.specs.Option.{option_map};
ghost use Rattle.books.specs.Meaning.{rule_at};
ghost use Rattle.makes.specs.Flats.{rule_of, flat_meaning};

use crate::rows::{AtomRow, RuleRow};
use books::book::{Book, Sign};
use stamps::order::Order;

// Row k of a table is atom or rule number k; a rule number whose row is None is vacant. The tables are lent, so that nothing allocates.
#[derive(Clone, Copy)]
pub struct Flat<'a, S> {
    pub atoms: &'a [AtomRow<S>],
    pub rules: &'a [Option<RuleRow>],
}

impl<S> Flat<'_, S> {
    // The row of a rule; none beyond the table and where it is vacant.
    fn rule(&self, rule: usize) -> Option<&RuleRow>
        ensures { option_map (λ row. rule_of row.now) result ≡ rule_at (flat_meaning self.now.atoms.now self.now.rules.now) rule }
    {
        self.rules.get(rule)?.as_ref()
    }
}

impl<S: Order> Book for Flat<'_, S> {
    type Stamp = S;

    ghost meaning = { λ f. flat_meaning f.atoms.now f.rules.now };

    fn atom_count(&self) -> usize {
        self.atoms.len()
    }

    fn rule_count(&self) -> usize {
        self.rules.len()
    }

    fn stamp(&self, atom: usize) -> Option<S> {
        self.atoms.get(atom).map(|row| row.stamp)
    }

    fn reading(&self, atom: usize) -> Option<bool> {
        self.atoms.get(atom).map(|row| row.reading)
    }

    fn head(&self, rule: usize) -> Option<usize> {
        Some(self.rule(rule)?.head)
    }

    fn body_count(&self, rule: usize, sign: Sign) -> Option<usize> {
        Some(self.rule(rule)?.body(sign).count())
    }

    fn body_atom(&self, rule: usize, sign: Sign, i: usize) -> Option<usize> {
        self.rule(rule)?.body(sign).get(i)
    }
}
