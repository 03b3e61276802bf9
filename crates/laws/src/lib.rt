// The laws that tie reading and writing to the grammar of the text, at every kind of stamp that the grammar has.
// Each function below computes nothing: its contract is a theorem about the definitions of `grammar`'s specs/.
// The notation is written out in each: a ghost member that holds it might differ from the members of `Spelled`.
// The lemmas of `grammar`, named with `using`, do not close the first five contracts: their answers cite them.
#![tactic(auto)]

pub mod notated;

ghost use Rattle.grammar.specs.Notations.{notation_of, ticks, routes, pairs};
ghost use Rattle.grammar.specs.Theorems.{ReadingIsTheGrammar, WrittenIsReadBack, AcceptedComesBack, CanonicalIsUnchanged, DegreesNest, AnswerIsItsOwn, RefusedAtTheFirstByte, TextLaws};

use notated::Notated;
use stamps::route::Route;
use stamps::then::Then;
use stamps::tick::Tick;

// A text is read as a book exactly where it spells that book by the grammar and the tables take it;
// and each degree of the grammar keeps what the lower one keeps.
pub fn reading_is_the_grammar<S: Notated>()
    ensures reading { ReadingIsTheGrammar (notation_of S.spelling S.stamp_at S.spelt S.spells S.fits) }
    ensures degrees { DegreesNest (notation_of S.spelling S.stamp_at S.spelt S.spells S.fits) }
{}

// A book written out and read in is the same book.
pub fn written_is_read_back<S: Notated>()
    ensures { WrittenIsReadBack (notation_of S.spelling S.stamp_at S.spelt S.spells S.fits) }
{}

// The book of an accepted text can be written; what is written is canonical, and is read as the same book.
pub fn accepted_comes_back<S: Notated>()
    ensures { AcceptedComesBack (notation_of S.spelling S.stamp_at S.spelt S.spells S.fits) }
{}

// A text with no leading zero is read as its book, and is what is written of it; and what `canonical` answers to a text,
// it answers to that answer.
pub fn canonical_is_unchanged<S: Notated>()
    ensures unchanged { CanonicalIsUnchanged (notation_of S.spelling S.stamp_at S.spelt S.spells S.fits) }
    ensures answer { AnswerIsItsOwn (notation_of S.spelling S.stamp_at S.spelt S.spells S.fits) }
{}

// Where a byte is refused, what stands before it begins a text of the grammar's shape, and with it begins none.
pub fn refused_at_the_first_byte<S: Notated>()
    ensures { RefusedAtTheFirstByte (notation_of S.spelling S.stamp_at S.spelt S.spells S.fits) }
{}

// All of these laws.
pub fn text_laws<S: Notated>()
    ensures { TextLaws (notation_of S.spelling S.stamp_at S.spelt S.spells S.fits) }
{
    reading_is_the_grammar::<S>();
    written_is_read_back::<S>();
    accepted_comes_back::<S>();
    canonical_is_unchanged::<S>();
    refused_at_the_first_byte::<S>();
}

// All of them, of ticks, of routes and of pairs of ticks.
pub fn three_kinds_keep_the_laws()
    ensures of_ticks { TextLaws ticks }
    ensures of_routes { TextLaws routes }
    ensures of_pairs { TextLaws pairs }
{
    text_laws::<Tick>();
    text_laws::<Route>();
    text_laws::<Then<Tick, Tick>>();
}
