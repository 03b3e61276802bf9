// The kinds of forms.
ghost use Rattle.std.specs.Prelude.{◌≡◌, ◌≤◌, length, drop, Ok, IfSome};
ghost use Rattle.text.specs.Kinds.{opening_of, kind_of};
ghost use Rattle.text.specs.Words.{pass_word};

use crate::cursor::Cursor;

// What a form says is told by its kind; the words are those of `opening`.
#[derive(Clone, Copy)]
pub enum Kind {
    Order,
    Atom,
    Rule,
    Void,
    End,
}

// The kind of form that the bytes begin, told by its word and the byte after it.
// By slice patterns and not by a search over `opening`: the patterns tell it with no lemma on how bytes begin.
fn told(line: &[u8]) -> Option<Kind>
    ensures { result ≡ kind_of line.now }
{
    match line {
        [b'(', b'o', b'r', b'd', b'e', b'r', b' ', ..] => Some(Kind::Order),
        [b'(', b'a', b't', b'o', b'm', b' ', ..] => Some(Kind::Atom),
        [b'(', b'r', b'u', b'l', b'e', b' ', ..] => Some(Kind::Rule),
        [b'(', b'v', b'o', b'i', b'd', b' ', ..] => Some(Kind::Void),
        [b'(', b'e', b'n', b'd', b')', ..] => Some(Kind::End),
        _ => None,
    }
}

impl Kind {
    // How a form of the kind begins: its word, and the byte after it.
    pub fn opening(self) -> &'static [u8]
        ensures value { result.now ≡ opening_of self }
        ensures short { length result.now ≤ 7 }
    {
        match self {
            Kind::Order => b"(order ",
            Kind::Atom => b"(atom ",
            Kind::Rule => b"(rule ",
            Kind::Void => b"(void ",
            Kind::End => b"(end)",
        }
    }
}

impl Cursor<'_> {
    // Passes over the opening of a form, if one stands there, and says which kind of form it begins.
    pub(crate) fn opening(&mut self) -> Option<Kind>
        ensures kind { result ≡ kind_of (drop self.old.at self.old.text.now) }
        ensures passed { IfSome result (λ kind. Ok self.new.at ≡ pass_word (opening_of kind) self.old.text.now self.old.at) }
        ensures same { self.new.text.now ≡ self.old.text.now }
    {
        let kind = told(self.text.get(self.at..)?)?;
        self.at += kind.opening().len();
        Some(kind)
    }
}
