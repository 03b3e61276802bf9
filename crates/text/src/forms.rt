// Reading one form.
ghost use Rattle.std.specs.Prelude.{◌≡◌, ◌<◌, Ok, IfOk, OnOk};
ghost use Rattle.text.specs.Cursors.{Passed, Took, TookAny, TookAs};
ghost use Rattle.text.specs.Forms.{line_of, if_room, next_number, reading_at, atom_at, rule_form_at, void_at, refused_at, form_at};
ghost use Rattle.text.specs.Kinds.{atom_opening, rule_opening, void_opening};
ghost use Rattle.text.specs.Words.{pass_word};
ghost use Rattle.text.specs.Reads.{moved_by, Roomy, Stepped};

use crate::counts::Counts;
use crate::cursor::Cursor;
use crate::form::Form;
use crate::kind::Kind;
use crate::numbers::MAX_NUMBER;
use crate::reader::{Reader, Stage};
use crate::site::Site;
use crate::stamp::Spelled;
use books::fault::{Fault, ReadFault};
use makes::rows::AtomRow;

// How a form ends, and its line.
const CLOSING: &[u8] = b")\n";

impl Cursor<'_> {
    // The number that must come next.
    fn next_number(&mut self, expected: usize) -> Result<(), ReadFault>
        ensures { Passed result self.old self.new (next_number self.old.text.now expected self.old.at) }
    {
        let place = self.at;
        // The cast loses nothing: the number has 32 bits.
        if self.number(MAX_NUMBER)? as usize == expected {
            Ok(())
        } else {
            Err(ReadFault::Number { place })
        }
    }

    // Whether an atom is a reading.
    fn reading(&mut self) -> Result<bool, ReadFault>
        ensures { Took result self.old self.new (reading_at self.old.text.now self.old.at) }
    {
        match self.text.get(self.at) {
            Some(b'o') => {
                self.word(b"out ")?;
                Ok(false)
            }
            _ => {
                self.word(b"in ")?;
                Ok(true)
            }
        }
    }
}

// `Roomy` stands in the clauses of each reader of a form: it relates the room, the reader before the form, and the form, which no one type holds.
// The cursor and the room are two parameters: the cursor moves, and the room stays.
impl Reader {
    // The number of one more form, where there is room for it.
    fn numbered(&self, cursor: &mut Cursor<'_>, count: usize, room: usize) -> Result<(), ReadFault>
        ensures roomy { OnOk result (count < room) }
        ensures value { Passed result cursor.old cursor.new (if_room self.now.next count room (next_number cursor.old.text.now count cursor.old.at)) }
    {
        if count >= room {
            return Err(ReadFault::TooMany { place: self.next });
        }
        cursor.next_number(count)
    }

    #[tactic(auto, unfolding(crate::specs::Forms::atom_at))]
    fn atom_form<S: Spelled>(&self, cursor: &mut Cursor<'_>, room: Counts) -> Result<Form<S>, Fault>
        requires { Ok cursor.old.at ≡ pass_word atom_opening cursor.old.text.now self.now.next }
        ensures roomy { IfOk result (λ f. Roomy room self.now f) }
        ensures value { TookAny line_of result cursor.old cursor.new (atom_at S.Spelled.stamp_at cursor.old.text.now room self.now) }
    {
        self.numbered(cursor, self.atoms, room.atoms)?;
        cursor.pass(b' ')?;
        let reading = cursor.reading()?;
        let stamp = S::stamp(cursor)?;
        cursor.word(CLOSING)?;
        Ok(Form::Atom(AtomRow { stamp, reading }))
    }

    #[tactic(auto, unfolding(crate::specs::Forms::rule_form_at))]
    fn rule_form<S: Spelled>(
        &self,
        cursor: &mut Cursor<'_>,
        room: Counts,
    ) -> Result<Form<S>, ReadFault>
        requires { Ok cursor.old.at ≡ pass_word rule_opening cursor.old.text.now self.now.next }
        ensures roomy { IfOk result (λ f. Roomy room self.now f) }
        ensures value { TookAs line_of result cursor.old cursor.new (rule_form_at cursor.old.text.now room self.now) }
    {
        self.numbered(cursor, self.rules, room.rules)?;
        let row = cursor.rule(Site {
            form: self.next,
            rule: self.rules,
            atoms: self.atoms,
        })?;
        cursor.word(CLOSING)?;
        Ok(Form::Rule(Some(row)))
    }

    #[tactic(auto, unfolding(crate::specs::Forms::void_at))]
    fn void_form<S: Spelled>(
        &self,
        cursor: &mut Cursor<'_>,
        room: Counts,
    ) -> Result<Form<S>, ReadFault>
        requires { Ok cursor.old.at ≡ pass_word void_opening cursor.old.text.now self.now.next }
        ensures roomy { IfOk result (λ f. Roomy room self.now f) }
        ensures value { TookAs line_of result cursor.old cursor.new (void_at cursor.old.text.now room self.now) }
    {
        self.numbered(cursor, self.rules, room.rules)?;
        cursor.word(CLOSING)?;
        Ok(Form::Rule(None))
    }

    // The place of the first byte that no form allowed at the stage has there.
    #[tactic(auto, unfolding(crate::specs::Forms::refused_at))]
    fn refused_at(&self, text: &[u8]) -> usize
        ensures { result ≡ refused_at text.now self.now.stage self.now.next }
    {
        let start = Cursor {
            text,
            at: self.next,
        };
        let rule = start.agreed(Kind::Rule.opening());
        let void = start.agreed(Kind::Void.opening());
        let end = start.agreed(Kind::End.opening());
        match self.stage {
            Stage::Start => start.agreed(Kind::Order.opening()),
            Stage::Atoms => start
                .agreed(Kind::Atom.opening())
                .max(rule.max(void.max(end))),
            Stage::Rules => rule.max(void.max(end)),
            Stage::End => self.next,
        }
    }

    // The form at which the reader stands, by its stage and the form's kind.
    #[tactic(auto, unfolding(crate::specs::Forms::form_at, crate::specs::Forms::order_at, crate::specs::Forms::end_at))]
    fn form<S: Spelled>(&self, cursor: &mut Cursor<'_>, room: Counts) -> Result<Form<S>, Fault>
        requires { cursor.old.at ≡ self.now.next }
        ensures roomy { IfOk result (λ f. Roomy room self.now f) }
        ensures value { TookAny line_of result cursor.old cursor.new (form_at S.Spelled.stamp_at S.Spelled.spelling cursor.old.text.now room self.now) }
    {
        // Stage and kind together, as the rules of the text have them: a form is read where both allow it, and no table of calls is plainer.
        match (self.stage, cursor.opening()) {
            (Stage::Start, Some(Kind::Order)) => {
                cursor.word(S::word())?;
                cursor.word(CLOSING)?;
                Ok(Form::Order)
            }
            (Stage::Atoms, Some(Kind::Atom)) => self.atom_form(cursor, room),
            (Stage::Atoms | Stage::Rules, Some(Kind::Rule)) => Ok(self.rule_form(cursor, room)?),
            (Stage::Atoms | Stage::Rules, Some(Kind::Void)) => Ok(self.void_form(cursor, room)?),
            (Stage::Atoms | Stage::Rules, Some(Kind::End)) => {
                cursor.pass(b'\n')?;
                Ok(Form::End)
            }
            _ => Err(ReadFault::Byte {
                place: self.refused_at(cursor.text),
            }
            .into()),
        }
    }

    // Each form moves the reader.
    fn moved<S: Spelled>(self, room: Counts, form: Form<S>, next: usize) -> Reader
        requires { Roomy room self form }
        ensures { result ≡ moved_by self (line_of form) next }
    {
        match form {
            Form::Order => Reader {
                stage: Stage::Atoms,
                next,
                ..self
            },
            Form::Atom(_) => Reader {
                stage: Stage::Atoms,
                next,
                atoms: self.atoms + 1,
                ..self
            },
            Form::Rule(_) => Reader {
                stage: Stage::Rules,
                next,
                rules: self.rules + 1,
                ..self
            },
            Form::End => Reader {
                stage: Stage::End,
                next,
                ..self
            },
        }
    }

    // The form at which the reader stands moves it, or is refused and leaves it where it stands.
    pub fn step<S: Spelled>(&mut self, text: &[u8], room: Counts) -> Result<Form<S>, Fault>
        ensures roomy { IfOk result (λ f. Roomy room self.old f) }
        ensures value { Stepped result self.old self.new (form_at S.Spelled.stamp_at S.Spelled.spelling text.now room self.old) }
    {
        let mut cursor = Cursor {
            text,
            at: self.next,
        };
        let form = self.form::<S>(&mut cursor, room)?;
        *self = self.moved(room, form, cursor.at);
        Ok(form)
    }
}
