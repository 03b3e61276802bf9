// The walk over a book's rules by number, up to the first fault.
ghost use Rattle.std.specs.Prelude.{◌≡◌, ℕ, ◌<◌, Option, Some, if◌then◌else◌, nat_lt};
ghost use Rattle.books.specs.Check.{Answers, first_below, refused_by, asked_tests, literal_fault, rule_walk, book_walk};
ghost use Rattle.books.specs.declared.book.Sign.TheVariants.{Positive, Negative};
ghost use Rattle.books.specs.Meaning.{body_count_of, body_atom_of, literal_of};

use crate::book::{Book, Sign};
use crate::check::{MAX_ATOMS, MAX_BODY, MAX_RULES};
use crate::fault::CheckFault;
use stamps::order::Order;

// What a walk asks of the atoms of each rule.
#[derive(Clone, Copy, PartialEq, Eq, Debug)]
pub enum Asked {
    // That each atom is in the book.
    Declared,
    // Besides, that the head is no reading, and that each literal's stamp fits the head's.
    Ordered,
}

// The tests at the numbers below `count` in order, up to the first that refuses, with its error.
pub fn first_refusal<E, F: Fn(usize) -> Result<(), E>>(count: usize, test: F) -> Result<(), E>
    requires { (i : ℕ) → i < count → F.pre test i }
    ensures { (fault_at : ℕ → Option E) → Answers (F.post test) count fault_at → result ≡ refused_by (first_below count fault_at) }
{
    // A loop: with `try_for_each` the proof does not close (tried), since its clauses have no word for the first refusal.
    for i in 0..count {
        test(i)?;
    }
    Ok(())
}

// A rule whose literals are walked.
#[derive(Drop)]
struct Walked<'b, B: Book> {
    book: &'b B,
    asked: Asked,
    rule: usize,
    positives: usize,
    head: B::Stamp,
    ghost counted: { body_count_of (B.Book.meaning book.now) rule Positive ≡ Some positives },
}

impl<'b, B: Book> Walked<'b, B> {
    // The list and the place in it of literal `index`, positives first.
    #[tactic(auto, using(crate::proofs::Literals::literal_positive, crate::proofs::Literals::literal_negative))]
    fn place(&self, index: usize) -> (Sign, usize)
        ensures sign { result.0 ≡ (if nat_lt index self.now.positives then Positive else Negative) }
        ensures atom { body_atom_of (B.Book.meaning self.now.book.now) self.now.rule result.0 result.1 ≡ literal_of (B.Book.meaning self.now.book.now) self.now.rule index }
    {
        if index < self.positives {
            (Sign::Positive, index)
        } else {
            (Sign::Negative, index - self.positives)
        }
    }

    // One literal: its atom is there, and where it is asked, its stamp is not after the head's if positive, before it if negative.
    fn check_literal(&self, index: usize) -> Result<(), CheckFault>
        requires few { index < 12 }
        ensures { result ≡ refused_by (literal_fault (asked_tests self.now.asked B.Stamp.Order.tests) (B.Book.meaning self.now.book.now) self.now.rule self.now.positives self.now.head index) }
    {
        let (sign, i) = self.place(index);
        let Some(atom) = self.book.body_atom(self.rule, sign, i) else {
            return Ok(());
        };
        let rule = self.rule;
        let literal = index + 1;
        let Some(stamp) = self.book.stamp(atom) else {
            return Err(CheckFault::LiteralMissing { rule, literal });
        };
        match (self.asked, sign) {
            (Asked::Ordered, Sign::Positive) if !stamp.not_after(&self.head) => {
                Err(CheckFault::PositiveOutOfOrder { rule, literal })
            }
            (Asked::Ordered, Sign::Negative) if !stamp.before(&self.head) => {
                Err(CheckFault::NegativeOutOfOrder { rule, literal })
            }
            _ => Ok(()),
        }
    }
}

// One rule number: lengths, head, then the literals. A vacant number passes.
pub(crate) fn walk_rule<B: Book>(book: &B, asked: Asked, rule: usize) -> Result<(), CheckFault>
    ensures { result ≡ refused_by (rule_walk asked B.Stamp.Order.tests (B.Book.meaning book.now) rule) }
{
    let Some(head) = book.head(rule) else {
        return Ok(());
    };
    let (Some(positives), Some(negatives)) = (
        book.body_count(rule, Sign::Positive),
        book.body_count(rule, Sign::Negative),
    ) else {
        return Ok(());
    };
    if positives > MAX_BODY || negatives > MAX_BODY {
        return Err(CheckFault::BodyTooLong { rule });
    }
    let Some(stamp) = book.stamp(head) else {
        return Err(CheckFault::HeadMissing { rule });
    };
    if asked == Asked::Ordered && book.reading(head) == Some(true) {
        return Err(CheckFault::HeadIsReading { rule });
    }
    let walked = Walked {
        book,
        asked,
        rule,
        positives,
        head: stamp,
    };
    first_refusal(positives + negatives, |index| walked.check_literal(index))
}

// Both counts, then the rules by number, up to the first fault, which is the error.
pub fn walk<B: Book>(book: &B, asked: Asked) -> Result<(), CheckFault>
    ensures { result ≡ refused_by (book_walk asked B.Stamp.Order.tests (B.Book.meaning book.now)) }
{
    if book.atom_count() > MAX_ATOMS || book.rule_count() > MAX_RULES {
        return Err(CheckFault::TooLarge);
    }
    first_refusal(book.rule_count(), |rule| walk_rule(book, asked, rule))
}
