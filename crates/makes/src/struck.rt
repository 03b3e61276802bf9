// The struck book: any book, with some rule numbers made vacant.
ghost use Rattle.std.specs.Prelude.{◌≡◌, true, replicate, cond, Ok, Some, None, nat_eq};
ghost use Rattle.std.specs.Option.{option_map};
ghost use Rattle.books.specs.Check.{refused_by};
ghost use Rattle.books.specs.declared.fault.Fault.TheVariants.{Making};
ghost use Rattle.makes.specs.Strikes.{StandsOver, strike_fault, struck_meaning, struck_set};
ghost use Rattle.words.specs.Members.{has_number};

use books::book::{Book, Sign};
use books::fault::{Fault, MakeFault};
use stamps::order::Order;
use words::numbers::{add, has};

// The numbers that can be struck lie below this one.
pub const MAX_STRUCK: usize = 1024;

// A book and the set of its struck rule numbers. The set has room for each number that a book within the limits has, so its size is no parameter.
// It is an array, since a set that grows would allocate.
#[derive(Clone, Copy)]
pub struct Struck<B> {
    below: B,
    words: [u64; 16],
}

impl<B: Book> Struck<B> {
    // The book with no rule struck.
    pub fn over(below: B) -> Struck<B>
        ensures { (result.below ≡ below) × (result.words ≡ replicate 16 0) }
    {
        Struck {
            below,
            words: [0; 16],
        }
    }

    // Whether the number is struck.
    pub fn is_struck(&self, rule: usize) -> bool
        ensures answer { result ≡ has_number self.now.words rule }
        ensures stands { StandsOver B.Stamp.Order.tests (has_number self.now.words) (B.Book.meaning self.now.below) (struck_meaning (has_number self.now.words) (B.Book.meaning self.now.below)) }
    {
        has(&self.words, rule)
    }

    // The number, unless it is struck. Asked before the book below, so that a struck number costs no question there.
    fn standing(&self, rule: usize) -> Option<usize>
        ensures { result ≡ cond (has_number self.now.words rule) None (Some rule) }
    {
        (!has(&self.words, rule)).then_some(rule)
    }

    // Makes a rule number vacant. Refused with `RuleMissing`, and the set stays as it was, where the book below lacks the number or it is above 1,023.
    pub fn strike(&mut self, rule: usize) -> Result<(), Fault>
        ensures answer { result ≡ refused_by (option_map Making (strike_fault (B.Book.meaning self.old.below) rule)) }
        ensures below { self.new.below ≡ self.old.below }
        ensures words { self.new.words ≡ struck_set (strike_fault (B.Book.meaning self.old.below) rule) self.old.words rule }
        ensures stands { result ≡ Ok tt → StandsOver B.Stamp.Order.tests (λ k. nat_eq k rule) (struck_meaning (has_number self.old.words) (B.Book.meaning self.old.below)) (struck_meaning (has_number self.new.words) (B.Book.meaning self.new.below)) }
        ensures again { has_number self.old.words rule ≡ true → struck_meaning (has_number self.new.words) (B.Book.meaning self.new.below) ≡ struck_meaning (has_number self.old.words) (B.Book.meaning self.old.below) }
    {
        if rule >= MAX_STRUCK || rule >= self.below.rule_count() {
            return Err(MakeFault::RuleMissing { rule }.into());
        }
        add(&mut self.words, rule);
        Ok(())
    }
}

#[tactic(auto, using(crate::proofs::Striking::struck_rule, crate::proofs::Striking::struck_length))]
impl<B: Book> Book for Struck<B> {
    type Stamp = B::Stamp;

    ghost meaning = { λ s. struck_meaning (has_number s.words) (B.Book.meaning s.below) };

    fn atom_count(&self) -> usize {
        self.below.atom_count()
    }

    fn rule_count(&self) -> usize {
        self.below.rule_count()
    }

    fn stamp(&self, atom: usize) -> Option<B::Stamp> {
        self.below.stamp(atom)
    }

    fn reading(&self, atom: usize) -> Option<bool> {
        self.below.reading(atom)
    }

    fn head(&self, rule: usize) -> Option<usize> {
        self.below.head(self.standing(rule)?)
    }

    fn body_count(&self, rule: usize, sign: Sign) -> Option<usize> {
        self.below.body_count(self.standing(rule)?, sign)
    }

    fn body_atom(&self, rule: usize, sign: Sign, i: usize) -> Option<usize> {
        self.below.body_atom(self.standing(rule)?, sign, i)
    }
}
