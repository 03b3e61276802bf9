// The check that a book passes before it is run.
ghost use Rattle.std.specs.Prelude.{◌≡◌};
ghost use Rattle.books.specs.Check.{unless, rule_fault, book_fault};
ghost use Rattle.books.specs.Judged.{Judged};

use crate::book::Book;
use crate::fault::Fault;
use crate::walk::{Asked, walk, walk_rule};

// The atoms that a book may have.
pub const MAX_ATOMS: usize = 1024;

// The rule numbers that a book may have, vacant ones included.
pub const MAX_RULES: usize = 1024;

// The atoms that each list of a rule may have.
pub const MAX_BODY: usize = 6;

// One rule number: lengths, head, then the literals, up to the first fault, which is the error. A vacant number passes.
pub fn check_rule<B: Book>(book: &B, rule: usize) -> Result<(), Fault>
    ensures { result ≡ unless (rule_fault B.Stamp.Order.tests (B.Book.meaning book.now) rule) }
{
    walk_rule(book, Asked::Ordered, rule)?;
    Ok(())
}

// Both counts, then the rules by number, up to the first fault, which is the error.
#[tactic(auto, using(crate::proofs::Verdicts::judged_at))]
pub fn check<B: Book>(book: &B) -> Result<(), Fault>
    ensures answer { result ≡ unless (book_fault B.Stamp.Order.tests (B.Book.meaning book.now)) }
    ensures judged { Judged B.Stamp.Order.tests (B.Book.meaning book.now) result }
{
    walk(book, Asked::Ordered)?;
    Ok(())
}
