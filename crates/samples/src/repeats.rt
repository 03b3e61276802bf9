// Tests of the repeating and the struck book.
use crate::checks::{refused, told};
use books::book::{Book, Sign};
use books::fault::Refusal;
use makes::body::TooLong;
use makes::patterns::{Pattern, Slot, Step};
use makes::repeating::Repeating;
use makes::struck::Struck;
use stamps::then::Then;
use stamps::tick::Tick;
use std::test::Fail;

fn step(slot: usize, back: usize) -> Step {
    Step { slot, back }
}

const PLAIN: Slot = Slot {
    reading: false,
    stage: 0,
};

const READING: Slot = Slot {
    reading: true,
    stage: 0,
};

// What making these tables is refused with; none where the book is made.
fn made(slots: &[Slot], ticks: usize, patterns: &[Pattern]) -> Option<Refusal> {
    Repeating::make(slots, ticks, patterns)
        .err()
        .map(|fault| fault.refusal())
}

#[test]
fn a_slot_that_leans_on_no_self_one_tick_back(rt: HostRuntime) -> Result<(), Fail> {
    let slots = [PLAIN];
    let patterns = [Pattern::of(0, &[], &[step(0, 1)])?];
    let book = Repeating::make(&slots, 3, &patterns)?;
    assert_eq!(rt; book.head(0), None);
    assert_eq!(rt; book.head(1), Some(1));
    assert_eq!(rt; book.body_atom(1, Sign::Negative, 0), Some(0));
    assert_eq!(rt; book.head(2), Some(2));
    assert_eq!(rt; book.body_atom(2, Sign::Negative, 0), Some(1));
    assert_eq!(rt; book.body_count(2, Sign::Positive), Some(0));
    assert_eq!(rt; (book.atom_count(), book.rule_count()), (3, 3));
    assert_eq!(rt; book.head(3), None);
    assert_eq!(rt; told(&book), None);
    Ok(())
}

#[test]
fn atoms_and_rules_are_numbered_by_tick(rt: HostRuntime) -> Result<(), Fail> {
    let slots = [
        READING,
        Slot {
            reading: false,
            stage: 1,
        },
        Slot {
            reading: false,
            stage: 255,
        },
    ];
    let patterns = [
        Pattern::of(1, &[step(0, 0)], &[])?,
        Pattern::of(2, &[step(1, 0)], &[step(2, 3)])?,
    ];
    let book = Repeating::make(&slots, 5, &patterns)?;
    assert_eq!(rt; book.atom_number(4, 2), Some(14));
    assert_eq!(rt; book.atom_number(5, 0), None);
    assert_eq!(rt; book.atom_number(0, 3), None);
    assert_eq!(rt; book.rule_number(3, 1), Some(7));
    assert_eq!(rt; book.rule_number(0, 2), None);
    assert_eq!(rt;
        book.stamp(14),
        Some(Then {
            first: Tick(4),
            second: Tick(255),
        })
    );
    assert_eq!(rt; book.reading(12), Some(true));
    assert_eq!(rt; book.stamp(15), None);
    assert_eq!(rt; book.head(7), Some(11));
    assert_eq!(rt; book.body_atom(7, Sign::Positive, 0), Some(10));
    assert_eq!(rt; book.body_atom(7, Sign::Negative, 0), Some(2));
    assert_eq!(rt; book.head(5), None);
    assert_eq!(rt; told(&book), None);
    Ok(())
}

#[test]
fn counts_of_a_making_stand_at_their_limits(rt: HostRuntime) -> Result<(), Fail> {
    let slots = [PLAIN, PLAIN];
    let patterns = [
        Pattern::of(0, &[], &[])?,
        Pattern::of(1, &[], &[])?,
        Pattern::of(1, &[], &[])?,
    ];
    assert_eq!(rt; made(&slots, 512, &[]), None);
    assert_eq!(rt; made(&slots, 513, &[]), refused(3, 0, 0));
    assert_eq!(rt; made(&slots, 341, &patterns), None);
    assert_eq!(rt; made(&slots, 342, &patterns), refused(3, 0, 0));
    assert_eq!(rt;
        made(&slots, 9_223_372_036_854_775_808, &[]),
        refused(3, 0, 0)
    );
    assert_eq!(rt;
        made(&[], 18_446_744_073_709_551_615, &patterns),
        refused(3, 0, 0)
    );
    Ok(())
}

#[test]
fn nothing_repeats(rt: HostRuntime) -> Result<(), Fail> {
    let slots = [PLAIN];
    let patterns = [Pattern::of(0, &[], &[])?];
    assert_eq!(rt; made(&slots, 0, &patterns), None);
    assert_eq!(rt; made(&slots, 4, &[]), None);
    assert_eq!(rt; made(&[], 4, &[]), None);
    assert_eq!(rt; made(&[], 18_446_744_073_709_551_615, &[]), None);
    assert_eq!(rt; made(&[], 4, &patterns), refused(4, 0, 0));
    Ok(())
}

#[test]
fn no_tick_is_an_empty_book(rt: HostRuntime) -> Result<(), Fail> {
    let slots = [PLAIN];
    let patterns = [Pattern::of(0, &[], &[])?];
    let book = Repeating::make(&slots, 0, &patterns)?;
    assert_eq!(rt; (book.atom_count(), book.rule_count()), (0, 0));
    assert_eq!(rt; told(&book), None);
    Ok(())
}

#[test]
fn a_missing_slot_is_told_by_pattern_and_literal(rt: HostRuntime) -> Result<(), Fail> {
    let slots = [PLAIN, PLAIN];
    let good = Pattern::of(1, &[step(0, 3), step(1, 0)], &[step(0, 3)])?;
    assert_eq!(rt;
        made(&slots, 2, &[good, Pattern::of(2, &[], &[])?]),
        refused(4, 1, 0)
    );
    assert_eq!(rt;
        made(
            &slots,
            2,
            &[good, Pattern::of(1, &[step(1, 0), step(2, 0)], &[])?],
        ),
        refused(4, 1, 2)
    );
    assert_eq!(rt;
        made(
            &slots,
            2,
            &[
                good,
                Pattern::of(1, &[step(1, 0)], &[step(0, 1), step(7, 1)])?
            ],
        ),
        refused(4, 1, 3)
    );
    assert_eq!(rt;
        made(
            &slots,
            2,
            &[
                Pattern::of(1, &[step(1, 4)], &[])?,
                Pattern::of(9, &[], &[])?
            ],
        ),
        refused(4, 0, 1)
    );
    assert_eq!(rt;
        made(
            &slots,
            2,
            &[Pattern::of(0, &[], &[step(0, 0), step(0, 4)])?]
        ),
        refused(4, 0, 2)
    );
    assert_eq!(rt;
        made(&slots, 600, &[Pattern::of(9, &[], &[])?]),
        refused(3, 0, 0)
    );
    Ok(())
}

#[test]
fn steps_reach_three_ticks_back(rt: HostRuntime) -> Result<(), Fail> {
    let slots = [
        PLAIN,
        Slot {
            reading: false,
            stage: 1,
        },
    ];
    let patterns = [
        Pattern::of(1, &[step(0, 0)], &[])?,
        Pattern::of(1, &[step(0, 3)], &[])?,
    ];
    let book = Repeating::make(&slots, 5, &patterns)?;
    assert_eq!(rt; book.body_atom(0, Sign::Positive, 0), Some(0));
    assert_eq!(rt; book.head(1), None);
    assert_eq!(rt; book.head(5), None);
    assert_eq!(rt; book.head(7), Some(7));
    assert_eq!(rt; book.body_atom(7, Sign::Positive, 0), Some(0));
    assert_eq!(rt; told(&book), None);
    Ok(())
}

// What the check tells of the book of these tables over 3 ticks, where a making over more ticks is refused besides.
fn told_after_refusal(slots: &[Slot], patterns: &[Pattern]) -> Result<Option<Refusal>, Fail> {
    let book = Repeating::make(slots, 3, patterns)?;
    if Repeating::make(slots, 1024, patterns).is_ok() {
        return Err(Fail::new("a making over 1,024 ticks is to be refused"));
    }
    Ok(told(&book))
}

#[test]
fn a_repeating_book_may_fail_the_check(rt: HostRuntime) -> Result<(), Fail> {
    let slots = [READING, PLAIN];
    assert_eq!(rt;
        told_after_refusal(&slots, &[Pattern::of(1, &[], &[step(1, 0)])?])?,
        refused(7, 0, 1)
    );
    assert_eq!(rt;
        told_after_refusal(&slots, &[Pattern::of(0, &[], &[])?])?,
        refused(5, 0, 0)
    );
    assert_eq!(rt;
        told_after_refusal(&slots, &[Pattern::of(1, &[], &[step(1, 1)])?])?,
        None
    );
    Ok(())
}

#[test]
fn a_struck_number_is_vacant(rt: HostRuntime) -> Result<(), Fail> {
    let slots = [READING, PLAIN];
    let patterns = [Pattern::of(1, &[step(0, 0)], &[])?];
    let below = Repeating::make(&slots, 100, &patterns)?;
    let mut book = Struck::over(below);
    book.strike(65)?;
    book.strike(65)?;
    assert_eq!(rt; book.head(65), None);
    assert_eq!(rt; book.body_count(65, Sign::Positive), None);
    assert_eq!(rt; book.body_count(65, Sign::Negative), None);
    assert_eq!(rt; book.body_atom(65, Sign::Positive, 0), None);
    assert_eq!(rt; book.head(1), Some(3));
    assert_eq!(rt; book.head(64), Some(129));
    assert_eq!(rt; book.head(66), Some(133));
    assert_eq!(rt; (book.is_struck(65), book.is_struck(64)), (true, false));
    assert_eq!(rt; (book.atom_count(), book.rule_count()), (200, 100));
    assert_eq!(rt; book.reading(130), Some(true));
    assert_eq!(rt; told(&book), None);
    Ok(())
}

#[test]
fn striking_what_is_not_there_changes_nothing(rt: HostRuntime) -> Result<(), Fail> {
    let slots = [READING, PLAIN];
    let patterns = [Pattern::of(1, &[step(0, 0)], &[])?];
    let below = Repeating::make(&slots, 3, &patterns)?;
    let mut book = Struck::over(below);
    book.strike(2)?;
    assert_eq!(rt;
        book.strike(3).err().map(|fault| fault.refusal()),
        refused(4, 3, 0)
    );
    assert_eq!(rt;
        book.strike(1024).err().map(|fault| fault.refusal()),
        refused(4, 1024, 0)
    );
    assert_eq!(rt; (book.is_struck(3), book.is_struck(1024)), (false, false));
    assert_eq!(rt;
        (book.head(0), book.head(1), book.head(2)),
        (Some(1), Some(3), None)
    );
    Ok(())
}

#[test]
fn a_struck_book_stands_over_a_struck_book(rt: HostRuntime) -> Result<(), Fail> {
    let slots = [READING, PLAIN];
    let patterns = [
        Pattern::of(1, &[step(0, 0)], &[])?,
        Pattern::of(1, &[], &[step(1, 0)])?,
    ];
    let below = Repeating::make(&slots, 2, &patterns)?;
    let mut inner = Struck::over(below);
    assert_eq!(rt; told(&inner), refused(7, 1, 1));
    inner.strike(1)?;
    assert_eq!(rt; told(&inner), refused(7, 3, 1));
    let mut outer = Struck::over(inner);
    outer.strike(3)?;
    assert_eq!(rt; told(&outer), None);
    assert_eq!(rt; (outer.head(0), outer.head(1)), (Some(1), None));
    assert_eq!(rt; (outer.head(2), outer.head(3)), (Some(3), None));
    assert_eq!(rt; (outer.is_struck(1), inner.is_struck(3)), (false, false));
    Ok(())
}
