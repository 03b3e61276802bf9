// Tests of the check: each refusal with its values.
use crate::plain::Plain;
use books::book::Book;
use books::check::check;
use books::fault::{Layer, Refusal, Values};
use makes::flat::Flat;
use makes::rows::{AtomRow, RuleRow};
use makes::struck::Struck;
use stamps::route::Route;
use stamps::tick::Tick;
use std::test::Fail;

// A refusal of the check or of a making, as the table of refusals has it: number, rule and literal.
pub(crate) fn refused(number: u8, rule: usize, literal: usize) -> Option<Refusal> {
    Some(Refusal {
        layer: Layer::Checking,
        number,
        values: Values::RuleLiteral(rule, literal),
    })
}

// What the check refuses the book with; none where it passes.
pub(crate) fn told<B: Book>(book: &B) -> Option<Refusal> {
    check(book).err().map(|fault| fault.refusal())
}

// The same maker stands in `bookshow`: neither crate stands on the other.
fn atom(tick: u32, reading: bool) -> AtomRow<Tick> {
    AtomRow {
        stamp: Tick(tick),
        reading,
    }
}

// Atoms: 0 and 1 are readings at ticks 1 and 2, atoms 2 to 5 are derived at ticks 2 to 5.
fn told_of(rules: &[Option<RuleRow>]) -> Option<Refusal> {
    let atoms = [
        atom(1, true),
        atom(2, true),
        atom(2, false),
        atom(3, false),
        atom(4, false),
        atom(5, false),
    ];
    told(&Flat {
        atoms: &atoms,
        rules,
    })
}

fn told_rule(head: usize, positives: &[usize], negatives: &[usize]) -> Option<Refusal> {
    told_of(&[None, RuleRow::of(head, positives, negatives).ok()])
}

fn plain(atoms: usize, rules: usize, positives: usize, negatives: usize) -> Plain<Tick> {
    Plain {
        stamp: Tick(0),
        atoms,
        rules,
        positives,
        negatives,
    }
}

#[test]
fn a_head_that_is_missing_or_a_reading(rt: HostRuntime) {
    assert_eq!(rt; told_rule(6, &[], &[]), refused(4, 1, 0));
    assert_eq!(rt; told_rule(1, &[0], &[]), refused(5, 1, 0));
    assert_eq!(rt; told_rule(5, &[], &[]), None);
}

#[test]
fn literals_count_from_one_with_positives_first(rt: HostRuntime) {
    assert_eq!(rt; told_rule(3, &[0, 1, 4], &[]), refused(6, 1, 3));
    assert_eq!(rt; told_rule(3, &[0, 1], &[1, 3]), refused(7, 1, 4));
    assert_eq!(rt; told_rule(3, &[0, 6], &[]), refused(4, 1, 2));
    assert_eq!(rt; told_rule(3, &[0], &[1, 6]), refused(4, 1, 3));
}

#[test]
fn level_passes_as_positive_and_not_as_negative(rt: HostRuntime) {
    assert_eq!(rt; told_rule(3, &[3], &[]), None);
    assert_eq!(rt; told_rule(3, &[], &[3]), refused(7, 1, 1));
    assert_eq!(rt; told_rule(3, &[], &[2]), None);
}

#[test]
fn the_fault_met_first_is_told(rt: HostRuntime) {
    assert_eq!(rt; told_rule(3, &[6, 5], &[]), refused(4, 1, 1));
    assert_eq!(rt; told_rule(3, &[5, 6], &[]), refused(6, 1, 1));
    assert_eq!(rt; told_rule(0, &[6], &[6]), refused(5, 1, 0));
    let both = [
        RuleRow::of(3, &[0], &[]).ok(),
        RuleRow::of(3, &[], &[5]).ok(),
        RuleRow::of(9, &[], &[]).ok(),
    ];
    assert_eq!(rt; told_of(&both), refused(7, 1, 1));
}

#[test]
fn vacant_numbers_pass(rt: HostRuntime) {
    assert_eq!(rt; told_of(&[]), None);
    assert_eq!(rt; told_of(&[None, None, None]), None);
    assert_eq!(rt;
        told_of(&[None, RuleRow::of(9, &[], &[]).ok(), None]),
        refused(4, 1, 0)
    );
}

#[test]
fn counts_stand_at_their_limits(rt: HostRuntime) {
    assert_eq!(rt; told(&plain(1024, 1024, 0, 0)), None);
    assert_eq!(rt; told(&plain(1025, 1024, 0, 0)), refused(3, 0, 0));
    assert_eq!(rt; told(&plain(1024, 1025, 0, 0)), refused(3, 0, 0));
    assert_eq!(rt; told(&plain(0, 0, 0, 0)), None);
    assert_eq!(rt; told(&plain(0, 1025, 0, 0)), refused(3, 0, 0));
}

#[test]
fn lists_stand_at_their_limits(rt: HostRuntime) {
    assert_eq!(rt; told(&plain(1, 1, 6, 0)), None);
    assert_eq!(rt; told(&plain(1, 1, 7, 0)), refused(3, 0, 0));
    assert_eq!(rt; told(&plain(1, 1, 0, 6)), refused(7, 0, 1));
    assert_eq!(rt; told(&plain(1, 1, 0, 7)), refused(3, 0, 0));
    assert_eq!(rt; told(&plain(0, 1, 7, 0)), refused(3, 0, 0));
    assert_eq!(rt; told(&plain(0, 1, 6, 0)), refused(4, 0, 0));
}

#[test]
fn a_list_that_is_too_long_is_told_with_its_rule(rt: HostRuntime) -> Result<(), Fail> {
    let mut book = Struck::over(plain(1, 2, 7, 0));
    book.strike(0)?;
    assert_eq!(rt; told(&book), refused(3, 1, 0));
    Ok(())
}

// Atoms at the routes {2}, {5} and {2, 5}, the first a reading.
fn told_on_routes(rules: &[Option<RuleRow>]) -> Option<Refusal> {
    let atoms = [
        AtomRow {
            stamp: Route { aisles: 4 },
            reading: true,
        },
        AtomRow {
            stamp: Route { aisles: 32 },
            reading: false,
        },
        AtomRow {
            stamp: Route { aisles: 36 },
            reading: false,
        },
    ];
    told(&Flat {
        atoms: &atoms,
        rules,
    })
}

#[test]
fn unordered_routes_do_not_pass(rt: HostRuntime) {
    assert_eq!(rt;
        told_on_routes(&[RuleRow::of(1, &[0], &[]).ok()]),
        refused(6, 0, 1)
    );
    assert_eq!(rt; told_on_routes(&[RuleRow::of(2, &[0], &[1]).ok()]), None);
    assert_eq!(rt;
        told_on_routes(&[RuleRow::of(1, &[], &[0]).ok()]),
        refused(7, 0, 1)
    );
}
