// Texts that are read, up to the limits.
use crate::{is_rule, laid, mark_row, mark_rule, marked_row, marked_rule, refusal, refused_at};
use makes::flat::Flat;
use makes::rows::AtomRow;
use stamps::route::Route;
use stamps::tick::Tick;
use std::test::Fail;
use text::counts::Counts;
use text::read::read;
use writing::write::write;

#[test]
fn an_accepted_text(rt: HostRuntime) -> Result<(), Fail> {
    let row = AtomRow {
        stamp: Tick(7777),
        reading: true,
    };
    let mut atoms = [row; 4];
    let mut rules = [mark_rule(); 4];
    let text =
        b"(order tick)\n(atom 0 in 0000000001)\n(atom 1 out 4294967295)\n(rule 0000000000 1 (0) (0 0))\n(void 1)\n(end)\n";
    let counts = read::<Tick>(text, &mut atoms, &mut rules)?;
    assert_eq!(rt; counts, Counts { atoms: 2, rules: 2 });
    let [first, second, third, fourth] = atoms;
    assert!(rt; first.reading && first.stamp.0 == 1);
    assert!(rt; !second.reading && second.stamp.0 == 4294967295);
    assert!(rt; marked_row(third) && marked_row(fourth));
    assert!(rt; is_rule(&rules[0], 1, &[0], &[0, 0]));
    assert!(rt; rules[1].is_none() && marked_rule(rules[2]) && marked_rule(rules[3]));
    Ok(())
}

#[test]
fn an_accepted_route(rt: HostRuntime) -> Result<(), Fail> {
    let row = AtomRow {
        stamp: Route { aisles: 0 },
        reading: false,
    };
    let mut atoms = [row; 2];
    let mut rules = [None; 1];
    let text = b"(order route)\n(atom 0 in ())\n(atom 1 out (0 2 063))\n(end)\n";
    let counts = read::<Route>(text, &mut atoms, &mut rules)?;
    assert_eq!(rt; counts, Counts { atoms: 2, rules: 0 });
    assert!(rt; atoms[0].reading && atoms[0].stamp.aisles == 0);
    assert!(rt; atoms[1].stamp.aisles == 9223372036854775813);
    Ok(())
}

// A text of so many atoms and rules is read; with a form in place of its end form, which is its last six bytes,
// it is refused there, and marked tables stay.
fn takes_no_more(text: &[u8], atoms: usize, rules: usize, form: &[u8]) -> Result<(), Fail> {
    let mut rows = [mark_row::<Tick>(); 1100];
    let mut numbers = [mark_rule(); 1100];
    let counts = read::<Tick>(text, &mut rows, &mut numbers)?;
    if counts != (Counts { atoms, rules }) {
        return Err(Fail::new("the counts are not those of the text"));
    }
    if text.len() < 6 {
        return Err(Fail::new("the text has no end form"));
    }
    let end = text.len() - 6;
    let mut longer = [0u8; 32768];
    let length = laid(&mut longer, &text[0..end], form);
    if length > longer.len() {
        return Err(Fail::new("the text is too long"));
    }
    let refusal = refusal(
        &longer[0..length],
        &mut [mark_row::<Tick>(); 1100],
        &mut [mark_rule(); 1100],
    );
    if refusal != refused_at(3, end) {
        return Err(Fail::new("the form is to be refused with 3 at its bracket"));
    }
    Ok(())
}

#[test]
fn the_last_atom_form_and_one_more() -> Result<(), Fail> {
    let rows = [mark_row::<Tick>(); 1024];
    let book = Flat {
        atoms: &rows,
        rules: &[],
    };
    let mut sheet = [0u8; 32768];
    let length = write(&book, &mut sheet)?;
    if length > sheet.len() {
        return Err(Fail::new("the text is too long"));
    }
    // Its number, which is not the next one, is not looked at.
    takes_no_more(&sheet[0..length], 1024, 0, b"(atom 9 in 1)\n(end)\n")
}

#[test]
fn the_last_rule_form_and_one_more() -> Result<(), Fail> {
    let rows = [mark_row::<Tick>(); 1];
    let rules = [None; 1024];
    let book = Flat {
        atoms: &rows,
        rules: &rules,
    };
    let mut sheet = [0u8; 32768];
    let length = write(&book, &mut sheet)?;
    if length > sheet.len() {
        return Err(Fail::new("the text is too long"));
    }
    takes_no_more(&sheet[0..length], 1, 1024, b"(rule 9 0 () ())\n(end)\n")?;
    takes_no_more(&sheet[0..length], 1, 1024, b"(void 9)\n(end)\n")
}
