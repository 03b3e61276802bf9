// A book that no table holds: its one rule has seven positive atoms.
ghost use Rattle.text_tests.specs.Sevens.{seven_meaning};

use books::book::{Book, Sign};
use stamps::tick::Tick;

#[derive(Clone, Copy)]
pub struct Seven;

impl Book for Seven {
    type Stamp = Tick;

    ghost meaning = { λ _. seven_meaning };

    fn atom_count(&self) -> usize {
        1
    }

    fn rule_count(&self) -> usize {
        1
    }

    fn stamp(&self, atom: usize) -> Option<Tick> {
        (atom == 0).then_some(Tick(1))
    }

    fn reading(&self, atom: usize) -> Option<bool> {
        (atom == 0).then_some(false)
    }

    fn head(&self, rule: usize) -> Option<usize> {
        (rule == 0).then_some(0)
    }

    fn body_count(&self, rule: usize, sign: Sign) -> Option<usize> {
        let count = match sign {
            Sign::Positive => 7,
            Sign::Negative => 0,
        };
        (rule == 0).then_some(count)
    }

    fn body_atom(&self, rule: usize, sign: Sign, i: usize) -> Option<usize> {
        (rule == 0 && sign == Sign::Positive && i < 7).then_some(0)
    }
}
