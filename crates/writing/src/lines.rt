// The lines of a book in canonical spelling.
ghost use Rattle.std.specs.Prelude.{◌≡◌, ◌+◌, ◌^◌, ◌<◌, ◌≤◌, length, None};
ghost use Rattle.std.specs.List.{slice_get};
ghost use Rattle.books.specs.Meaning.{rule_at};
ghost use Rattle.text.specs.Spelt.{up_to, item, list_text, body_in, Few, kind_text, atom_text, rule_text, atom_line_of, rule_line_of, book_text};
ghost use Rattle.text.specs.Written.{Wrote, Writes};

use books::book::{Book, Sign};
use text::sheet::Sheet;
use text::stamp::Spelled;

// Number `i` of a list, after a space unless it is the first.
fn put_item(i: usize, atom: Option<usize>, sheet: &mut Sheet<'_>)
    requires { sheet.old.at < 2 ^ 60 }
    ensures wrote { Writes sheet.old (item i atom) sheet.new }
    ensures short { sheet.new.at ≤ sheet.old.at + 21 }
{
    if let Some(atom) = atom {
        sheet.list_number(i == 0, atom);
    }
}

fn kind_word(reading: bool) -> &'static [u8]
    ensures value { result.now ≡ kind_text reading }
    ensures short { length result.now ≤ 5 }
{
    if reading { b" in " } else { b" out " }
}

// (void N)
fn put_void_line(rule: usize, sheet: &mut Sheet<'_>)
    requires { sheet.old.at < 2 ^ 58 }
    ensures wrote { Writes sheet.old (rule_text rule None) sheet.new }
    ensures short { sheet.new.at ≤ sheet.old.at + 400 }
{
    sheet.put(b"(void ");
    sheet.number(rule);
    sheet.put(b")\n");
}

// The lines of a book without gaps, which is small enough to be written.
// The words of the forms are written out, as the definition of each line has them; the reader's are private to `text`.
// The sheet is a parameter of its methods and no field: a method that writes would have to promise that the book stays.
#[derive(Drop)]
pub struct Lines<'b, B: Book> {
    pub book: &'b B,
    ghost atoms: { length (B.Book.meaning book.now).atoms ≤ 1024 },
    ghost rules: { length (B.Book.meaning book.now).rules ≤ 1024 },
    ghost few: { Few (B.Book.meaning book.now) },
}

impl<B: Book> Lines<'_, B> {
    // How many atoms of the sign the rule has; none where its number is vacant.
    fn count(&self, rule: usize, sign: Sign) -> usize
        ensures value { result ≡ length (body_in sign (rule_at (B.Book.meaning self.now.book.now) rule)) }
        ensures few { result ≤ 6 }
    {
        self.book.body_count(rule, sign).unwrap_or(0)
    }

    // The rule's atoms of the sign, in brackets.
    fn body(&self, rule: usize, sign: Sign, sheet: &mut Sheet<'_>)
        requires { sheet.old.at < 2 ^ 59 }
        ensures wrote { Writes sheet.old (list_text (body_in sign (rule_at (B.Book.meaning self.now.book.now) rule))) sheet.new }
        ensures short { sheet.new.at ≤ sheet.old.at + 128 }
    {
        sheet.put(b"(");
        // The book is asked by number: it is no collection.
        for i in 0..self.count(rule, sign) {
            put_item(i, self.book.body_atom(rule, sign, i), sheet);
        }
        sheet.put(b")");
    }

    // (rule N H (P..) (Q..)), or (void N) for a vacant number.
    fn rule_line(&self, rule: usize, sheet: &mut Sheet<'_>)
        requires { sheet.old.at < 2 ^ 58 }
        ensures wrote { Writes sheet.old (rule_text rule (rule_at (B.Book.meaning self.now.book.now) rule)) sheet.new }
        ensures short { sheet.new.at ≤ sheet.old.at + 400 }
    {
        let Some(head) = self.book.head(rule) else {
            return put_void_line(rule, sheet);
        };
        sheet.put(b"(rule ");
        sheet.number(rule);
        sheet.put(b" ");
        sheet.number(head);
        sheet.put(b" ");
        self.body(rule, Sign::Positive, sheet);
        sheet.put(b" ");
        self.body(rule, Sign::Negative, sheet);
        sheet.put(b")\n");
    }

    // By number, as `atom_lines`: a loop of one line each, where a closure over a sheet would need a contract longer than the loop.
    fn rule_lines(&self, sheet: &mut Sheet<'_>)
        requires { sheet.old.at < 2 ^ 40 }
        ensures wrote { Writes sheet.old (up_to (rule_line_of (B.Book.meaning self.now.book.now)) (length (B.Book.meaning self.now.book.now).rules)) sheet.new }
        ensures short { sheet.new.at ≤ sheet.old.at + 409600 }
    {
        for rule in 0..self.book.rule_count() {
            self.rule_line(rule, sheet);
        }
    }
}

impl<B: Book> Lines<'_, B>
where
    B::Stamp: Spelled,
{
    // (atom N K S)
    fn atom_line(&self, atom: usize, sheet: &mut Sheet<'_>)
        requires { sheet.old.at < 2 ^ 58 }
        ensures wrote { Writes sheet.old (atom_text B.Stamp.Spelled.spelt atom (slice_get (B.Book.meaning self.now.book.now).atoms atom)) sheet.new }
        ensures short { sheet.new.at ≤ sheet.old.at + 2100 }
    {
        let (Some(stamp), Some(reading)) = (self.book.stamp(atom), self.book.reading(atom)) else {
            return;
        };
        sheet.put(b"(atom ");
        sheet.number(atom);
        sheet.put(kind_word(reading));
        stamp.spell(sheet);
        sheet.put(b")\n");
    }

    // By number, as `rule_lines`.
    fn atom_lines(&self, sheet: &mut Sheet<'_>)
        requires { sheet.old.at < 2 ^ 40 }
        ensures wrote { Writes sheet.old (up_to (atom_line_of B.Stamp.Spelled.spelt (B.Book.meaning self.now.book.now)) (length (B.Book.meaning self.now.book.now).atoms)) sheet.new }
        ensures short { sheet.new.at ≤ sheet.old.at + 2150400 }
    {
        for atom in 0..self.book.atom_count() {
            self.atom_line(atom, sheet);
        }
    }

    // The whole book from the sheet's first byte on, and its length.
    pub fn put_book(&self, bytes: &mut [u8]) -> usize
        ensures { Wrote bytes.old 0 (book_text B.Stamp.Spelled.spelling B.Stamp.Spelled.spelt (B.Book.meaning self.now.book.now)) bytes.new result }
    {
        let mut sheet = Sheet { bytes, at: 0 };
        sheet.put(b"(order ");
        sheet.put(B::Stamp::word());
        sheet.put(b")\n");
        self.atom_lines(&mut sheet);
        self.rule_lines(&mut sheet);
        sheet.put(b"(end)\n");
        sheet.at
    }
}
