// From a text to its canonical spelling, for one kind of stamp.
ghost use Rattle.std.specs.Prelude.{length};
ghost use Rattle.writing.specs.Replies.{checked_text, canonical_at, Replied};

use crate::write::write;
use books::book::Book;
use books::check::check;
use books::fault::Fault;
use makes::flat::Flat;
use makes::rows::{AtomRow, RuleRow};
use text::read::read;
use text::stamp::Spelled;

// Writes a book that passes the check. Refused as `check` does, and then as `write` does; a refused sheet is untouched.
pub fn write_checked<B: Book>(book: &B, sheet: &mut [u8]) -> Result<usize, Fault>
where
    B::Stamp: Spelled,
    ensures { Replied (checked_text B.Stamp.Spelled.spelling B.Stamp.Spelled.spelt B.Stamp.Order.tests (B.Book.meaning book.now) (length sheet.old)) result sheet.old sheet.new }
{
    check(book)?;
    write(book, sheet)
}

// Reads a text into the tables, checks its book, and writes it in canonical spelling.
// Refused as `read`, `check` and `write` do, in this order. A refused sheet is untouched.
// Text and sheet stay two parameters: one is given, the other is written.
pub fn canonical<S: Spelled>(
    text: &[u8],
    atoms: &mut [AtomRow<S>],
    rules: &mut [Option<RuleRow>],
    sheet: &mut [u8],
) -> Result<usize, Fault>
    ensures { Replied (canonical_at S.Spelled.stamp_at S.Spelled.spelling S.Spelled.spelt S.Order.tests text.now (length atoms.old) (length rules.old) (length sheet.old)) result sheet.old sheet.new }
{
    let counts = read::<S>(text, atoms, rules)?;
    let book = Flat {
        atoms: &atoms[..counts.atoms],
        rules: &rules[..counts.rules],
    };
    write_checked(&book, sheet)
}
