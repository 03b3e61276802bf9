// Writing a book in canonical spelling.
ghost use Rattle.std.specs.Prelude.{◌≡◌, length};
ghost use Rattle.text.specs.Spelt.{book_text};
ghost use Rattle.writing.specs.Writes.{book_gap, write_answer, sheet_after};

use crate::gaps::check_gaps;
use crate::lines::Lines;
use books::book::Book;
use books::fault::{Fault, MakeFault};
use text::stamp::Spelled;

// Writes the book from the sheet's first byte on, and answers the text's length.
// Refused as the check does for counts, lists that are too long and atoms that are not there, and then with `SheetTooShort`.
// A refused sheet is untouched; bytes beyond the text stay.
pub fn write<B: Book>(book: &B, sheet: &mut [u8]) -> Result<usize, Fault>
where
    B::Stamp: Spelled,
    ensures answer { result ≡ write_answer (book_gap (B.Book.meaning book.now)) (length (book_text B.Stamp.Spelled.spelling B.Stamp.Spelled.spelt (B.Book.meaning book.now))) (length sheet.old) }
    ensures sheet { sheet.new ≡ sheet_after result (book_text B.Stamp.Spelled.spelling B.Stamp.Spelled.spelt (B.Book.meaning book.now)) sheet.old }
{
    check_gaps(book)?;
    let lines = Lines { book };
    let mut nothing = [0u8; 0];
    let needed = lines.put_book(&mut nothing);
    if needed > sheet.len() {
        return Err(MakeFault::SheetTooShort { needed }.into());
    }
    Ok(lines.put_book(sheet))
}
