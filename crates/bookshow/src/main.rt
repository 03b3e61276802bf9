// Checks a small aisle book rule by rule, then the same book with one rule broken, and then as a repeating book with a rule struck.
#![tactic(auto)]

mod lines;

use anyhow::anyhow;
use books::book::Book;
use books::check::{check, check_rule};
use lines::RuleLine;
use makes::body::TooLong;
use makes::flat::Flat;
use makes::patterns::{Pattern, Slot, Step};
use makes::repeating::Repeating;
use makes::rows::{AtomRow, RuleRow};
use makes::struck::Struck;
use stamps::tick::Tick;
use std::fmt::Display;

const NAMES: [&str; 6] = [
    "shuttle 3 asks for aisle 7",
    "a closure of aisle 7 is reported",
    "aisle 7 is closed",
    "shuttle 3 has aisle 7",
    "shuttle 3 may go round by aisle 8",
    "shuttle 3 may go round by aisle 9",
];

// The same maker stands in `samples`: neither crate stands on the other.
fn atom(tick: u32, reading: bool) -> AtomRow<Tick> {
    AtomRow {
        stamp: Tick(tick),
        reading,
    }
}

fn rule(head: usize, positives: &[usize], negatives: &[usize]) -> anyhow::Result<Option<RuleRow>> {
    RuleRow::of(head, positives, negatives)
        .map(Some)
        .map_err(|_| anyhow!("a list has more than six atoms"))
}

// Prints each rule as it is tested, and the verdict.
fn show<'a, B: Book>(rt: &HostRuntime, book: &'a B, names: &'a [&'a str]) -> anyhow::Result<()>
where
    B::Stamp: Display,
{
    let atoms = book.atom_count();
    let rules = book.rule_count();
    println!(rt; "{atoms} atoms, {rules} rule numbers")?;
    for rule in 0..rules {
        println!(rt; "{}", RuleLine { book, rule, names })?;
        if check_rule(book, rule).is_err() {
            break;
        }
    }
    match check(book) {
        Ok(()) => println!(rt; "accepted")?,
        Err(fault) => println!(rt; "{}", fault.refusal())?,
    }
    Ok(())
}

fn flat(rt: &HostRuntime) -> anyhow::Result<()> {
    let atoms = [
        atom(1, true),
        atom(2, true),
        atom(2, false),
        atom(3, false),
        atom(3, false),
        atom(3, false),
    ];
    let mut rules = [
        rule(2, &[1], &[])?,
        rule(3, &[0], &[2])?,
        rule(4, &[0, 2], &[])?,
        rule(5, &[4], &[])?,
        rule(4, &[5], &[])?,
        None,
    ];
    println!(rt; "a grant that leans on no closure, and a way round")?;
    show(
        rt,
        &Flat {
            atoms: &atoms,
            rules: &rules,
        },
        &NAMES,
    )?;
    println!(rt; "the same, but the grant leans on a way round at its own tick")?;
    rules[1] = rule(3, &[0], &[4])?;
    show(
        rt,
        &Flat {
            atoms: &atoms,
            rules: &rules,
        },
        &NAMES,
    )
}

fn slot(reading: bool, stage: u8) -> Slot {
    Slot { reading, stage }
}

// A step of the same tick, or of the tick before.
fn now(slot: usize) -> Step {
    Step { slot, back: 0 }
}

fn before(slot: usize) -> Step {
    Step { slot, back: 1 }
}

// The same situation every tick: the grant leans on no closure one tick back.
fn patterns() -> Result<[Pattern; 5], TooLong> {
    Ok([
        Pattern::of(2, &[now(1)], &[])?,
        Pattern::of(3, &[now(0)], &[before(2)])?,
        Pattern::of(4, &[now(0), now(2)], &[])?,
        Pattern::of(5, &[now(4)], &[])?,
        Pattern::of(4, &[now(5)], &[])?,
    ])
}

// Makes the book over 2 ticks, strikes a rule of it, and shows both.
fn repeating(rt: &HostRuntime, slots: &[Slot], patterns: &[Pattern]) -> anyhow::Result<()> {
    let book = match Repeating::make(slots, 2, patterns) {
        Ok(book) => book,
        Err(fault) => {
            println!(rt; "{}", fault.refusal())?;
            return Ok(());
        }
    };
    println!(rt; "the same situation every tick, over 2 ticks")?;
    show(rt, &book, &NAMES)?;
    let mut struck = Struck::over(book);
    println!(rt; "striking rule 9")?;
    if let Err(fault) = struck.strike(9) {
        println!(rt; "{}", fault.refusal())?;
    }
    println!(rt; "striking rule 10")?;
    if let Err(fault) = struck.strike(10) {
        println!(rt; "{}", fault.refusal())?;
    }
    show(rt, &struck, &NAMES)
}

fn run(rt: &HostRuntime) -> anyhow::Result<()> {
    flat(rt)?;
    let slots = [
        slot(true, 0),
        slot(true, 0),
        slot(false, 1),
        slot(false, 2),
        slot(false, 2),
        slot(false, 2),
    ];
    let patterns = patterns().map_err(|_| anyhow!("a list has more than six steps"))?;
    repeating(rt, &slots, &patterns)
}

fn main(rt: HostRuntime) -> anyhow::Result<()> {
    run(&rt)
}
