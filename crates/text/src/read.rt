// Reading a whole text into tables of a flat book.
ghost use Rattle.std.specs.Prelude.{◌≡◌, ◌≤◌, length};
ghost use Rattle.text.specs.Reads.{survey_at, progress_at, book_at, Roomy, put_atom, put_rule, FilledBy, room_of, ReadInto};

use crate::counts::Counts;
use crate::form::Form;
use crate::reader::{Reader, Stage};
use crate::stamp::Spelled;
use books::check::{MAX_ATOMS, MAX_RULES};
use books::fault::{Fault, ReadFault};
use makes::rows::{AtomRow, RuleRow};

// Before the first byte.
const START: Reader = Reader {
    stage: Stage::Start,
    next: 0,
    atoms: 0,
    rules: 0,
};

// Goes over the whole text and says where its reader ends, which is past the end form.
// It writes nothing, since a refused text leaves the tables as they were.
// Text and room are two parameters, here, in `fill` and in `step`: the room is of the tables and not of the text.
fn survey<S: Spelled>(text: &[u8], room: Counts) -> Result<Reader, Fault>
    ensures { result ≡ survey_at S.Spelled.stamp_at S.Spelled.spelling text.now room }
{
    let mut reader = START;
    // A form has a byte at least, so as many turns as bytes are enough.
    // A `while` would need that each form goes on, which each kind of stamp would have to promise.
    for _turn in 0..text.len() {
        if reader.is_finished(text) {
            break;
        }
        reader.step::<S>(text, room)?;
    }
    if reader.stage.is_end() {
        Ok(reader)
    } else {
        Err(ReadFault::Byte { place: text.len() }.into())
    }
}

// Writes what a form says into its table.
fn put<S: Spelled>(
    form: Form<S>,
    reader: Reader,
    atoms: &mut [AtomRow<S>],
    rules: &mut [Option<RuleRow>],
)
    requires { Roomy (record { atoms = length atoms.old; rules = length rules.old }) reader form }
    ensures atoms { atoms.new ≡ put_atom reader.atoms atoms.old form }
    ensures rules { rules.new ≡ put_rule reader.rules rules.old form }
{
    match form {
        Form::Atom(row) => atoms[reader.atoms] = row,
        Form::Rule(row) => rules[reader.rules] = row,
        _ => {}
    }
}

// Goes over the text once more and writes its atoms and rules into the tables.
// The tables are two parameters: with both in a struct (tried), each clause and loop would have to keep besides that it lends the same places and lengths.
fn fill<S: Spelled>(
    text: &[u8],
    room: Counts,
    atoms: &mut [AtomRow<S>],
    rules: &mut [Option<RuleRow>],
) -> Result<(), Fault>
    requires atoms { room.atoms ≤ length atoms.old }
    requires rules { room.rules ≤ length rules.old }
    ensures { FilledBy (progress_at S.Spelled.stamp_at S.Spelled.spelling text.now room) result atoms.old atoms.new rules.old rules.new }
{
    let mut reader = START;
    // As many turns as in `survey`. One loop for both would take a closure that writes the tables, and say of each turn what it wrote.
    for _turn in 0..text.len() {
        if reader.is_finished(text) {
            break;
        }
        let before = reader;
        let form = reader.step::<S>(text, room)?;
        put(form, before, atoms, rules);
    }
    Ok(())
}

// The limits of a book, and of tables of these lengths.
fn room_of(atoms: usize, rules: usize) -> Counts
    ensures { result ≡ room_of atoms rules }
{
    Counts {
        atoms: atoms.min(MAX_ATOMS),
        rules: rules.min(MAX_RULES),
    }
}

// Reads a text into the tables, and answers how many atoms and rules it has. Its fault is the first of the text.
// A refused text leaves both tables as they were; rows beyond what is written stay.
pub fn read<S: Spelled>(
    text: &[u8],
    atoms: &mut [AtomRow<S>],
    rules: &mut [Option<RuleRow>],
) -> Result<Counts, Fault>
    ensures { ReadInto (book_at S.Spelled.stamp_at S.Spelled.spelling text.now (room_of (length atoms.old) (length rules.old))) result atoms.old atoms.new rules.old rules.new }
{
    let room = room_of(atoms.len(), rules.len());
    let reader = survey::<S>(text, room)?;
    fill(text, room, atoms, rules)?;
    Ok(Counts {
        atoms: reader.atoms,
        rules: reader.rules,
    })
}
