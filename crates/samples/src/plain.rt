// A make for tests only: equal atoms and equal rules, as many as it is told.
ghost use Rattle.samples.specs.Plains.{plain_meaning};

use books::book::{Book, Sign};
use stamps::order::Order;

// All atoms are derived with one stamp; each rule has head 0 and atom 0 so often in its lists.
#[derive(Clone, Copy)]
pub struct Plain<S> {
    pub stamp: S,
    pub atoms: usize,
    pub rules: usize,
    pub positives: usize,
    pub negatives: usize,
}

#[tactic(auto, using(crate::proofs::Replicas::replicas))]
impl<S: Order> Book for Plain<S> {
    type Stamp = S;

    ghost meaning = { λ p. plain_meaning p.stamp p.atoms p.rules p.positives p.negatives };

    fn atom_count(&self) -> usize {
        self.atoms
    }

    fn rule_count(&self) -> usize {
        self.rules
    }

    fn stamp(&self, atom: usize) -> Option<S> {
        (atom < self.atoms).then_some(self.stamp)
    }

    fn reading(&self, atom: usize) -> Option<bool> {
        (atom < self.atoms).then_some(false)
    }

    fn head(&self, rule: usize) -> Option<usize> {
        (rule < self.rules).then_some(0)
    }

    fn body_count(&self, rule: usize, sign: Sign) -> Option<usize> {
        let count = match sign {
            Sign::Positive => self.positives,
            Sign::Negative => self.negatives,
        };
        (rule < self.rules).then_some(count)
    }

    fn body_atom(&self, rule: usize, sign: Sign, i: usize) -> Option<usize> {
        (i < self.body_count(rule, sign)?).then_some(0)
    }
}
