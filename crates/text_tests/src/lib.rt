// Tests of the bracket text, which are many: tables that are marked before a text is read, and what is asked of a refusal.
#![tactic(auto)]

#[cfg(test)]
mod accepted;
#[cfg(test)]
mod back;
#[cfg(test)]
mod examples;
#[cfg(test)]
mod refused;
#[cfg(test)]
mod replied;
mod seven;
#[cfg(test)]
mod sheets;

use books::fault::{Fault, Layer, Refusal, Values};
use makes::body::Body;
use makes::rows::{AtomRow, RuleRow};
use stamps::route::Route;
use stamps::then::Then;
use stamps::tick::Tick;
use text::read::read;
use text::stamp::Spelled;
use writing::reply::{Tables, reply};

// A stamp that stands in the tables before a text is read.
trait Mark: Spelled + PartialEq {
    fn mark() -> Self;
}

impl Mark for Tick {
    fn mark() -> Tick {
        Tick(7777)
    }
}

impl Mark for Route {
    fn mark() -> Route {
        Route { aisles: 7777 }
    }
}

impl Mark for Then<Tick, Tick> {
    fn mark() -> Then<Tick, Tick> {
        Then {
            first: Tick(7777),
            second: Tick(7778),
        }
    }
}

fn marked_row<S: Mark>(row: AtomRow<S>) -> bool {
    row.reading && row.stamp == S::mark()
}

// A rule row that no text here has.
fn marked_rule(row: Option<RuleRow>) -> bool {
    row.is_some_and(|rule| rule.head == 7777)
}

// Reads into marked tables; a refusal that leaves a mark changed gives none.
fn refusal<S: Mark>(
    text: &[u8],
    atoms: &mut [AtomRow<S>],
    rules: &mut [Option<RuleRow>],
) -> Option<Refusal> {
    let fault = read::<S>(text, atoms, rules).err()?;
    let stays = atoms.iter().all(|row| marked_row(*row))
        && rules.iter().all(|row| marked_rule(*row));
    stays.then_some(fault.refusal())
}

fn mark_row<S: Mark>() -> AtomRow<S> {
    AtomRow {
        stamp: S::mark(),
        reading: true,
    }
}

fn mark_rule() -> Option<RuleRow> {
    Some(RuleRow {
        head: 7777,
        positives: Body::empty(),
        negatives: Body::empty(),
    })
}

// A function for each kind: an array whose rows have a type parameter is not proved (tried).
fn tick_refusal(text: &[u8]) -> Option<Refusal> {
    refusal(text, &mut [mark_row::<Tick>(); 4], &mut [mark_rule(); 3])
}

fn route_refusal(text: &[u8]) -> Option<Refusal> {
    refusal(text, &mut [mark_row::<Route>(); 4], &mut [mark_rule(); 3])
}

fn then_refusal(text: &[u8]) -> Option<Refusal> {
    refusal(
        text,
        &mut [mark_row::<Then<Tick, Tick>>(); 4],
        &mut [mark_rule(); 3],
    )
}

// The fault of a text with route stamps, which says more than its refusal does.
fn route_fault(text: &[u8]) -> Option<Fault> {
    read::<Route>(text, &mut [mark_row::<Route>(); 4], &mut [mark_rule(); 3]).err()
}

// The row is a rule with this head and these lists.
fn is_rule(row: &Option<RuleRow>, head: usize, positives: &[usize], negatives: &[usize]) -> bool {
    row.is_some_and(|rule| {
        rule.head == head
            && *rule.positives.as_slice() == *positives
            && *rule.negatives.as_slice() == *negatives
    })
}

// A refusal of the reader, with the place of the fault.
// By its number, as the table of refusals has it: with the fault spelt out most cases would not fit a line.
fn refused_at(number: u8, place: usize) -> Option<Refusal> {
    Some(Refusal {
        layer: Layer::Reading,
        number,
        values: Values::One(place),
    })
}

// The refusal of an atom that the text does not have, at this rule and literal.
fn undeclared(rule: usize, literal: usize) -> Option<Refusal> {
    Some(Refusal {
        layer: Layer::Reading,
        number: 4,
        values: Values::RuleLiteral(rule, literal),
    })
}

// The fault is told by this number and these values, as the table of refusals has them.
fn is_told(fault: Fault, number: u8, values: Values) -> bool {
    let refusal = fault.refusal();
    refusal.number == number && refusal.values == values
}

// What the program prints for an input, compared with what is expected.
fn replies(text: &[u8], expected: &[u8]) -> bool {
    let mut ticks = [mark_row::<Tick>(); 8];
    let mut routes = [mark_row::<Route>(); 8];
    let mut pairs = [mark_row::<Then<Tick, Tick>>(); 8];
    let mut rules = [mark_rule(); 8];
    let mut sheet = [b'#'; 512];
    let tables = Tables {
        ticks: &mut ticks,
        routes: &mut routes,
        pairs: &mut pairs,
        rules: &mut rules,
    };
    let length = reply(text, tables, &mut sheet);
    begins_with(&sheet, expected, length)
}

// The first `length` bytes of the sheet are the expected ones, and the rest are as they were.
fn begins_with(sheet: &[u8], expected: &[u8], length: usize) -> bool {
    sheet.split_at_checked(length).is_some_and(|(written, rest)| {
        *written == *expected && rest.iter().all(|byte| *byte == b'#')
    })
}

// Lays two runs of bytes on a sheet, one after the other, and answers their length. What falls beyond the end is lost.
fn laid(sheet: &mut [u8], first: &[u8], second: &[u8]) -> usize {
    for (place, byte) in sheet.iter_mut().zip(first.iter().chain(second)) {
        *place = *byte;
    }
    first.len().saturating_add(second.len()).min(sheet.len())
}
