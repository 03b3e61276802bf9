// Sheets that are too short, and books that are not written.
use crate::seven::Seven;
use crate::{begins_with, is_told, mark_row, mark_rule};
use books::fault::{CheckFault, Fault, MakeFault, ReadFault, Values};
use makes::flat::Flat;
use makes::rows::{AtomRow, RuleRow};
use stamps::tick::Tick;
use std::test::Fail;
use writing::canonical::canonical;
use writing::write::write;

#[test]
fn a_sheet_one_byte_too_short(rt: HostRuntime) -> Result<(), Fail> {
    let rows = [AtomRow {
        stamp: Tick(10),
        reading: true,
    }];
    let book = Flat {
        atoms: &rows,
        rules: &[],
    };
    let text = b"(order tick)\n(atom 0 in 10)\n(end)\n";
    let mut sheet = [b'#'; 33];
    let short = MakeFault::SheetTooShort { needed: 34 }.into();
    assert_eq!(rt; write(&book, &mut sheet).err(), Some(short));
    assert!(rt; is_told(short, 17, Values::One(34)));
    assert!(rt; begins_with(&sheet, b"", 0));
    let mut exact = [b'#'; 34];
    let length = write(&book, &mut exact)?;
    assert!(rt; length == 34 && begins_with(&exact, text, length));
    let mut longer = [b'#'; 40];
    let length = write(&book, &mut longer)?;
    assert!(rt; length == 34 && begins_with(&longer, text, length));
    Ok(())
}

#[test]
fn a_list_of_seven_is_not_written(rt: HostRuntime) {
    let mut sheet = [b'#'; 200];
    let long = CheckFault::BodyTooLong { rule: 0 }.into();
    assert_eq!(rt; write(&Seven, &mut sheet).err(), Some(long));
    assert!(rt; is_told(long, 3, Values::RuleLiteral(0, 0)));
    assert!(rt; begins_with(&sheet, b"", 0));
}

#[test]
fn a_head_that_is_not_there_is_not_written(rt: HostRuntime) {
    let rows = [mark_row::<Tick>()];
    let rules = [mark_rule()];
    let book = Flat {
        atoms: &rows,
        rules: &rules,
    };
    let mut sheet = [b'#'; 200];
    let missing = CheckFault::HeadMissing { rule: 0 }.into();
    assert_eq!(rt; write(&book, &mut sheet).err(), Some(missing));
    assert!(rt; is_told(missing, 4, Values::RuleLiteral(0, 0)));
    assert!(rt; begins_with(&sheet, b"", 0));
}

// The book is refused as too large, with 3, 0 and 0, and the sheet stays.
fn is_too_large(atoms: &[AtomRow<Tick>], rules: &[Option<RuleRow>]) -> bool {
    let book = Flat { atoms, rules };
    let mut sheet = [b'#'; 64];
    let fault = CheckFault::TooLarge.into();
    write(&book, &mut sheet) == Err(fault)
        && is_told(fault, 3, Values::RuleLiteral(0, 0))
        && begins_with(&sheet, b"", 0)
}

#[test]
fn a_book_over_the_limits_is_not_written(rt: HostRuntime) {
    assert!(rt; is_too_large(&[mark_row::<Tick>(); 1025], &[]));
    assert!(rt; is_too_large(&[], &[None; 1025]));
}

// The text is refused with this fault, which has this number, and the sheet stays.
fn leaves_the_sheet(text: &[u8], fault: Fault, number: u8) -> bool {
    let mut sheet = [b'#'; 24];
    let mut atoms = [mark_row::<Tick>(); 4];
    let mut rules = [mark_rule(); 4];
    let answer = canonical(text, &mut atoms, &mut rules, &mut sheet);
    answer == Err(fault) && fault.refusal().number == number && begins_with(&sheet, b"", 0)
}

#[test]
fn a_refused_text_leaves_the_sheet(rt: HostRuntime) {
    assert!(rt; leaves_the_sheet(b"(order tick)\n", ReadFault::Byte { place: 13 }.into(), 1));
    assert!(rt;
        leaves_the_sheet(
            b"(order tick)\n(atom 0 in 1)\n(rule 0 0 () ())\n(end)\n",
            CheckFault::HeadIsReading { rule: 0 }.into(),
            5
        )
    );
    assert!(rt;
        leaves_the_sheet(
            b"(order tick)\n(atom 0 in 1)\n(end)\n",
            MakeFault::SheetTooShort { needed: 33 }.into(),
            17
        )
    );
}
