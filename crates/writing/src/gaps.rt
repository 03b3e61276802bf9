// What keeps a book from being written: too much, or an atom that is not there.
ghost use Rattle.std.specs.Prelude.{◌≡◌};
ghost use Rattle.books.specs.Check.{unless};
ghost use Rattle.writing.specs.Writes.{book_gap};

use books::book::Book;
use books::fault::Fault;
use books::walk::{Asked, walk};

// Both counts, then the rules by number, up to the first fault.
#[tactic(auto, using(crate::proofs::Walked::book_met))]
pub fn check_gaps<B: Book>(book: &B) -> Result<(), Fault>
    ensures { result ≡ unless (book_gap (B.Book.meaning book.now)) }
{
    walk(book, Asked::Declared)?;
    Ok(())
}
