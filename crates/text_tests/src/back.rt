// Books of other makes written out and read in again.
use crate::{begins_with, is_told};
use books::fault::{CheckFault, Values};
use makes::body::TooLong;
use makes::flat::Flat;
use makes::patterns::{Pattern, Slot, Step};
use makes::repeating::Repeating;
use makes::rows::{AtomRow, RuleRow};
use makes::struck::Struck;
use stamps::then::Then;
use stamps::tick::Tick;
use std::test::Fail;
use text::read::read;
use writing::write::write;

// Slot 1 of stage 1 from slot 0, and from not itself one tick back.
fn pattern() -> Result<Pattern, TooLong> {
    Pattern::of(
        1,
        &[Step { slot: 0, back: 0 }],
        &[Step { slot: 1, back: 1 }],
    )
}

const SLOTS: [Slot; 2] = [
    Slot {
        reading: true,
        stage: 0,
    },
    Slot {
        reading: false,
        stage: 1,
    },
];

const REPEATED: &[u8] =
    b"(order then)\n(atom 0 in (0 0))\n(atom 1 out (0 1))\n(atom 2 in (1 0))\n(atom 3 out (1 1))\n(void 0)\n(rule 1 3 (2) (1))\n(end)\n";

const STRUCK: &[u8] =
    b"(order then)\n(atom 0 in (0 0))\n(atom 1 out (0 1))\n(atom 2 in (1 0))\n(atom 3 out (1 1))\n(void 0)\n(void 1)\n(end)\n";

// The text is read, and the book that was read is written as the same text.
fn comes_back(text: &[u8]) -> Result<(), Fail> {
    let row = AtomRow {
        stamp: Then {
            first: Tick(0),
            second: Tick(0),
        },
        reading: false,
    };
    let mut atoms = [row; 8];
    let mut rules = [None; 8];
    let counts = read::<Then<Tick, Tick>>(text, &mut atoms, &mut rules)?;
    if counts.atoms != 4 || counts.rules != 2 {
        return Err(Fail::new("the text is of four atoms and two rules"));
    }
    let book = Flat {
        atoms: &atoms[0..4],
        rules: &rules[0..2],
    };
    let mut sheet = [b'#'; 256];
    let length = write(&book, &mut sheet)?;
    if !begins_with(&sheet, text, length) {
        return Err(Fail::new("the text is to come back"));
    }
    Ok(())
}

#[test]
fn a_repeating_book_is_written_and_read_back(rt: HostRuntime) -> Result<(), Fail> {
    let patterns = [pattern()?];
    let book = Repeating::make(&SLOTS, 2, &patterns)?;
    let mut sheet = [b'#'; 256];
    let length = write(&book, &mut sheet)?;
    assert!(rt; begins_with(&sheet, REPEATED, length));
    comes_back(REPEATED)
}

#[test]
fn a_struck_book_is_written_and_read_back(rt: HostRuntime) -> Result<(), Fail> {
    let patterns = [pattern()?];
    let mut book = Struck::over(Repeating::make(&SLOTS, 2, &patterns)?);
    book.strike(1)?;
    let mut sheet = [b'#'; 256];
    let length = write(&book, &mut sheet)?;
    assert!(rt; begins_with(&sheet, STRUCK, length));
    comes_back(STRUCK)
}

#[test]
fn a_literal_that_is_not_there_is_not_written(rt: HostRuntime) -> Result<(), Fail> {
    let atoms = [AtomRow {
        stamp: Tick(3),
        reading: false,
    }];
    let rules = [None, Some(RuleRow::of(0, &[0], &[0, 1])?)];
    let book = Flat {
        atoms: &atoms,
        rules: &rules,
    };
    let mut sheet = [b'#'; 200];
    let missing = CheckFault::LiteralMissing {
        rule: 1,
        literal: 3,
    }
    .into();
    assert_eq!(rt; write(&book, &mut sheet).err(), Some(missing));
    assert!(rt; is_told(missing, 4, Values::RuleLiteral(1, 3)));
    assert!(rt; begins_with(&sheet, b"", 0));
    Ok(())
}
