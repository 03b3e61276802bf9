// What the program that reads, checks and writes a book prints.
ghost use Rattle.std.specs.Prelude.{◌+◌, ◌^◌, ◌<◌, ◌≤◌, length};
ghost use Rattle.writing.specs.Replies.{values_text, refusal_text, program_at, Replied, reply_text};
ghost use Rattle.text.specs.Written.{Wrote, Writes};

use crate::canonical::canonical;
use books::fault::{Fault, ReadFault, Refusal, Values};
use makes::rows::{AtomRow, RuleRow};
use stamps::route::Route;
use stamps::then::Then;
use stamps::tick::Tick;
use text::order::{Word, order_refused, order_word};
use text::sheet::Sheet;

// The longest input that is read.
pub const MAX_INPUT: usize = 65536;

// The tables that a book is read into, by the order of its stamps.
#[derive(Drop)]
pub struct Tables<'a> {
    pub ticks: &'a mut [AtomRow<Tick>],
    pub routes: &'a mut [AtomRow<Route>],
    pub pairs: &'a mut [AtomRow<Then<Tick, Tick>>],
    pub rules: &'a mut [Option<RuleRow>],
}

fn put_values(values: Values, sheet: &mut Sheet<'_>)
    requires { sheet.old.at < 2 ^ 60 }
    ensures wrote { Writes sheet.old (values_text values) sheet.new }
    ensures short { sheet.new.at ≤ sheet.old.at + 41 }
{
    match values {
        Values::One(value) => sheet.number(value),
        Values::RuleLiteral(rule, literal) => {
            sheet.number(rule);
            sheet.put(b" ");
            sheet.number(literal);
        }
    }
}

// (no C A), or (no C R L) where rule and literal are returned.
fn put_refusal(refusal: Refusal, bytes: &mut [u8]) -> usize
    ensures { Wrote bytes.old 0 (refusal_text refusal) bytes.new result }
{
    let mut sheet = Sheet { bytes, at: 0 };
    sheet.put(b"(no ");
    sheet.number(usize::from(refusal.number));
    sheet.put(b" ");
    put_values(refusal.values, &mut sheet);
    sheet.put(b")\n");
    sheet.at
}

// The input's book in canonical spelling, whatever its order.
#[tactic(auto, unfolding(crate::specs::Replies::program_at))]
fn canonical_of(text: &[u8], tables: Tables<'_>, sheet: &mut [u8]) -> Result<usize, Fault>
    ensures { Replied (program_at text.now (length tables.entry.ticks.now) (length tables.entry.routes.now) (length tables.entry.pairs.now) (length tables.entry.rules.now) (length sheet.old)) result sheet.old sheet.new }
{
    if text.len() > MAX_INPUT {
        return Err(ReadFault::TooMany { place: 0 }.into());
    }
    let Some(word) = order_word(text) else {
        let place = order_refused(text);
        return Err(ReadFault::Byte { place }.into());
    };
    let Tables {
        ticks,
        routes,
        pairs,
        rules,
    } = tables;
    // Each order has a type of its own, so each arm is another instance of the call.
    match word {
        Word::Tick => canonical(text, ticks, rules, sheet),
        Word::Route => canonical(text, routes, rules, sheet),
        Word::Then => canonical(text, pairs, rules, sheet),
    }
}

// Writes the input's canonical text, or one line with the refusal, from the sheet's first byte on, and answers its length.
// What falls beyond the sheet's end is only counted.
pub fn reply(text: &[u8], tables: Tables<'_>, sheet: &mut [u8]) -> usize
    ensures { Wrote sheet.old 0 (reply_text (program_at text.now (length tables.entry.ticks.now) (length tables.entry.routes.now) (length tables.entry.pairs.now) (length tables.entry.rules.now) (length sheet.old))) sheet.new result }
{
    match canonical_of(text, tables, sheet) {
        Ok(length) => length,
        Err(fault) => put_refusal(fault.refusal(), sheet),
    }
}
