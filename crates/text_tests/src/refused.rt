// Texts that are refused, with each fault at each place where it can arise.
use crate::{laid, refused_at, route_fault, route_refusal, then_refusal, tick_refusal, undeclared};
use books::fault::{Fault, ReadFault, Refusal};

#[test]
fn wrong_forms_at_the_start(rt: HostRuntime) {
    let texts: [(&[u8], u8, usize); 10] = [
        (b"", 1, 0),
        (b"x", 1, 0),
        (b"(atom 0 in 1)\n", 1, 1),
        (b"(rule 0 0 () ())\n", 1, 1),
        (b"(void 0)\n", 1, 1),
        (b"(end)\n", 1, 1),
        (b"(oder tick)\n", 1, 2),
        (b"(order route)\n", 1, 7),
        (b"(order ticks)\n", 1, 11),
        (b"(order tick)\r\n", 1, 12),
    ];
    for (text, number, place) in texts {
        assert_eq!(rt; tick_refusal(text), refused_at(number, place));
    }
}

#[test]
fn wrong_forms_among_atoms(rt: HostRuntime) {
    let texts: [(&[u8], u8, usize); 6] = [
        (b"(order tick)\n(order tick)\n", 1, 14),
        (b"(order tick)\n(about", 1, 15),
        (b"(order tick)\n(rule:", 1, 18),
        (b"(order tick)\n(end )\n", 1, 17),
        (b"(order tick)\n(end) \n", 1, 18),
        (b"(order tick)\n\n(end)\n", 1, 13),
    ];
    for (text, number, place) in texts {
        assert_eq!(rt; tick_refusal(text), refused_at(number, place));
    }
}

#[test]
fn wrong_forms_among_rules(rt: HostRuntime) {
    let texts: [(&[u8], u8, usize); 3] = [
        (b"(order tick)\n(void 0)\n(atom 0 in 1)\n", 1, 23),
        (b"(order tick)\n(void 0)\n(order tick)\n", 1, 23),
        (b"(order tick)\n(void 0)\n(voip 1)\n", 1, 26),
    ];
    for (text, number, place) in texts {
        assert_eq!(rt; tick_refusal(text), refused_at(number, place));
    }
}

#[test]
fn anything_past_the_end(rt: HostRuntime) {
    let texts: [(&[u8], u8, usize); 8] = [
        (b"(order tick)\n(end)\n\n", 1, 19),
        (b"(order tick)\n(end)\n(end)\n", 1, 19),
        (b"(order tick)\n(end)\nx", 1, 19),
        (b"(order tick)\n(end)\n(order tick)\n", 1, 19),
        (b"(order tick)\n(end)\n(atom 0 in 1)\n", 1, 19),
        (b"(order tick)\n(end)\n(rule 0 0 () ())\n", 1, 19),
        (b"(order tick)\n(end)\n(void 0)\n", 1, 19),
        (b"(order tick)\n(end)", 1, 18),
    ];
    for (text, number, place) in texts {
        assert_eq!(rt; tick_refusal(text), refused_at(number, place));
    }
}

#[test]
fn atoms_that_are_refused(rt: HostRuntime) {
    let texts: [(&[u8], u8, usize); 10] = [
        (b"(order tick)\n(atom 1 in 1)\n", 2, 19),
        (b"(order tick)\n(atom x in 1)\n", 1, 19),
        (b"(order tick)\n(atom 0  in 1)\n", 1, 21),
        (b"(order tick)\n(atom 0 on 1)\n", 1, 22),
        (b"(order tick)\n(atom 0 inn 1)\n", 1, 23),
        (b"(order tick)\n(atom 0 in (1))\n", 1, 24),
        (b"(order tick)\n(atom 0 in 12345678901)\n", 1, 34),
        (b"(order tick)\n(atom 0 in 4294967296)\n", 2, 24),
        (b"(order tick)\n(atom 0 in 1)\r\n", 1, 26),
        (b"(order tick)\n(atom 0 in 1", 1, 25),
    ];
    for (text, number, place) in texts {
        assert_eq!(rt; tick_refusal(text), refused_at(number, place));
    }
}

#[test]
fn routes_that_are_refused(rt: HostRuntime) {
    let texts: [(&[u8], u8, usize); 9] = [
        (b"(order route)\n(atom 0 in (64))\n", 2, 26),
        (b"(order route)\n(atom 0 in (0064))\n", 2, 26),
        (b"(order route)\n(atom 0 in (5 5))\n", 1, 28),
        (b"(order route)\n(atom 0 in (5 3))\n", 1, 28),
        (b"(order route)\n(atom 0 in (5 )\n", 1, 28),
        (b"(order route)\n(atom 0 in ( 5))\n", 1, 26),
        (b"(order route)\n(atom 0 in (1 5 3))\n", 1, 30),
        (b"(order route)\n(atom 0 in (63 64))\n", 2, 29),
        (b"(order route)\n(atom 0 in 5)\n", 1, 25),
    ];
    for (text, number, place) in texts {
        assert_eq!(rt; route_refusal(text), refused_at(number, place));
    }
}

#[test]
fn an_aisle_that_does_not_rise_is_no_wrong_byte(rt: HostRuntime) {
    let not_rising = Some(Fault::Reading(ReadFault::NotRising { place: 28 }));
    assert!(rt; route_fault(b"(order route)\n(atom 0 in (5 5))\n") == not_rising);
    assert!(rt; route_fault(b"(order route)\n(atom 0 in (5 3))\n") == not_rising);
    let byte = Some(Fault::Reading(ReadFault::Byte { place: 28 }));
    assert!(rt; route_fault(b"(order route)\n(atom 0 in (5 )\n") == byte);
}

#[test]
fn pairs_that_are_refused(rt: HostRuntime) {
    let texts: [(&[u8], u8, usize); 7] = [
        (b"(order then)\n(atom 0 in 3)\n", 1, 24),
        (b"(order then)\n(atom 0 in (3))\n", 1, 26),
        (b"(order then)\n(atom 0 in (3 1 2))\n", 1, 28),
        (b"(order then)\n(atom 0 in (3  1))\n", 1, 27),
        (b"(order then)\n(atom 0 in ( 3 1))\n", 1, 25),
        (b"(order then)\n(atom 0 in (3 1)\n", 1, 29),
        (b"(order then)\n(atom 0 in (3 4294967296))\n", 2, 27),
    ];
    for (text, number, place) in texts {
        assert_eq!(rt; then_refusal(text), refused_at(number, place));
    }
}

#[test]
fn tables_that_are_full(rt: HostRuntime) {
    let four =
        b"(order tick)\n(atom 0 in 1)\n(atom 1 in 1)\n(atom 2 in 1)\n(atom 3 in 1)\n(atom 9 in 1)\n(end)\n";
    assert_eq!(rt; tick_refusal(four), refused_at(3, 69));
    let three = b"(order tick)\n(void 0)\n(void 1)\n(void 2)\n(void 9)\n(end)\n";
    assert_eq!(rt; tick_refusal(three), refused_at(3, 40));
    let rule = b"(order tick)\n(void 0)\n(void 1)\n(void 2)\n(rule x";
    assert_eq!(rt; tick_refusal(rule), refused_at(3, 40));
}

#[test]
fn rules_that_are_refused(rt: HostRuntime) {
    let undeclared_atoms: [(&[u8], usize, usize); 3] = [
        (b"(order tick)\n(atom 0 out 1)\n(rule 0 1 () ())\n", 0, 0),
        (
            b"(order tick)\n(atom 0 out 1)\n(void 0)\n(rule 1 0 (0 1) ())\n",
            1,
            2,
        ),
        (
            b"(order tick)\n(atom 0 out 1)\n(rule 0 0 (0 0) (0 5))\n",
            0,
            4,
        ),
    ];
    for (text, rule, literal) in undeclared_atoms {
        assert_eq!(rt; tick_refusal(text), undeclared(rule, literal));
    }
    let texts: [(&[u8], u8, usize); 5] = [
        (
            b"(order tick)\n(atom 0 out 1)\n(rule 0 0 (0 0 0 0 0 0 0) ())\n",
            3,
            28,
        ),
        (
            b"(order tick)\n(atom 0 out 1)\n(rule 0 0 () (0 0 0 0 0 0 9",
            3,
            28,
        ),
        (b"(order tick)\n(atom 0 out 1)\n(rule 1 0 () ())\n", 2, 34),
        (b"(order tick)\n(atom 0 out 1)\n(rule 0 0 ()())\n", 1, 40),
        (
            b"(order tick)\n(atom 0 out 1)\n(rule 0 4294967296 () ())\n",
            2,
            36,
        ),
    ];
    for (text, number, place) in texts {
        assert_eq!(rt; tick_refusal(text), refused_at(number, place));
    }
}

const ATOM: &[u8; 28] = b"(order tick)\n(atom 0 out 1)\n";

// The refusal of a text of one atom, and then a form.
fn after_an_atom(form: &[u8]) -> Option<Refusal> {
    let mut text = [0u8; 128];
    let length = laid(&mut text, ATOM, form);
    tick_refusal(text.get(..length)?)
}

// A refusal by its number, as in `refused_at`, so many bytes from the bracket of the form after the atom.
fn refused_there(number: u8, from_bracket: u8) -> Option<Refusal> {
    refused_at(number, ATOM.len() + usize::from(from_bracket))
}

#[test]
fn numbers_of_eleven_digits(rt: HostRuntime) {
    assert_eq!(rt;
        tick_refusal(b"(order tick)\n(atom 00000000000 in 1)\n"),
        refused_at(1, 29)
    );
    let pairs: [(&[u8], u8, usize); 2] = [
        (b"(order then)\n(atom 0 in (00000000003 1))\n", 1, 35),
        (b"(order then)\n(atom 0 in (3 00000000001))\n", 1, 37),
    ];
    for (text, number, place) in pairs {
        assert_eq!(rt; then_refusal(text), refused_at(number, place));
    }
    let routes: [(&[u8], u8, usize); 2] = [
        (b"(order route)\n(atom 0 in (00000000001))\n", 1, 36),
        (b"(order route)\n(atom 0 in (5 00000000003))\n", 1, 38),
    ];
    for (text, number, place) in routes {
        assert_eq!(rt; route_refusal(text), refused_at(number, place));
    }
    let forms: [(&[u8], u8, u8); 5] = [
        (b"(rule 00000000000 0 () ())\n", 1, 16),
        (b"(rule 0 00000000000 () ())\n", 1, 18),
        (b"(rule 0 0 (00000000000) ())\n", 1, 21),
        (b"(rule 0 0 () (00000000000))\n", 1, 24),
        (b"(void 00000000000)\n", 1, 16),
    ];
    for (form, number, from_bracket) in forms {
        assert_eq!(rt; after_an_atom(form), refused_there(number, from_bracket));
    }
}

#[test]
fn numbers_over_their_limit(rt: HostRuntime) {
    assert_eq!(rt;
        tick_refusal(b"(order tick)\n(atom 4294967296 in 1)\n"),
        refused_at(2, 19)
    );
    assert_eq!(rt;
        then_refusal(b"(order then)\n(atom 0 in (4294967296 1))\n"),
        refused_at(2, 25)
    );
    let forms: [(&[u8], u8, u8); 5] = [
        (b"(rule 4294967296 0 () ())\n", 2, 6),
        (b"(rule 0 4294967296 () ())\n", 2, 8),
        (b"(rule 0 0 (4294967296) ())\n", 2, 11),
        (b"(rule 0 0 () (4294967296))\n", 2, 14),
        (b"(void 4294967296)\n", 2, 6),
    ];
    for (form, number, from_bracket) in forms {
        assert_eq!(rt; after_an_atom(form), refused_there(number, from_bracket));
    }
}

#[test]
fn numbers_that_are_not_the_next(rt: HostRuntime) {
    let forms: [(&[u8], u8, u8); 6] = [
        (b"(atom 0 in 1)\n", 2, 6),
        (b"(atom 2 in 1)\n", 2, 6),
        (b"(rule 1 0 () ())\n", 2, 6),
        (b"(void 1)\n", 2, 6),
        (b"(void 0)\n(rule 0 0 () ())\n", 2, 15),
        (b"(void 0)\n(void 2)\n", 2, 15),
    ];
    for (form, number, from_bracket) in forms {
        assert_eq!(rt; after_an_atom(form), refused_there(number, from_bracket));
    }
}

#[test]
fn wrong_forms_after_an_atom_and_after_a_rule(rt: HostRuntime) {
    let forms: [(&[u8], u8, u8); 3] = [
        (b"(order tick)\n", 1, 1),
        (b"(rule 0 0 () ())\n(atom 1 in 1)\n", 1, 18),
        (b"(rule 0 0 () ())\n(order tick)\n", 1, 18),
    ];
    for (form, number, from_bracket) in forms {
        assert_eq!(rt; after_an_atom(form), refused_there(number, from_bracket));
    }
}

#[test]
fn lists_that_are_refused(rt: HostRuntime) {
    let forms: [(&[u8], u8, u8); 7] = [
        (b"(rule 0 0 0 ())\n", 1, 10),
        (b"(rule 0 0 ( 0) ())\n", 1, 11),
        (b"(rule 0 0 (0  0) ())\n", 1, 13),
        (b"(rule 0 0 (0 ) ())\n", 1, 13),
        // At a seventh atom the lowest of its own faults is told.
        (b"(rule 0 0 (0 0 0 0 0 0 00000000000) ())\n", 1, 33),
        (b"(rule 0 0 (0 0 0 0 0 0 4294967296) ())\n", 2, 23),
        (b"(rule 0 0 (0 0 0 0 0 0 7) ())\n", 3, 0),
    ];
    for (form, number, from_bracket) in forms {
        assert_eq!(rt; after_an_atom(form), refused_there(number, from_bracket));
    }
}

#[test]
fn lines_that_end_with_byte_13(rt: HostRuntime) {
    let forms: [(&[u8], u8, u8); 3] = [
        (b"(rule 0 0 () ())\r\n", 1, 16),
        (b"(void 0)\r\n", 1, 8),
        (b"(end)\r\n", 1, 5),
    ];
    for (form, number, from_bracket) in forms {
        assert_eq!(rt; after_an_atom(form), refused_there(number, from_bracket));
    }
}

#[test]
fn a_text_cut_after_each_byte(rt: HostRuntime) {
    let text = b"(order tick)\n(atom 0 in 1)\n(atom 1 out 2)\n(rule 0 1 (0) ())\n(void 1)\n(end)\n";
    for n in 0..text.len() {
        assert_eq!(rt; tick_refusal(&text[0..n]), refused_at(1, n));
    }
    let routes =
        b"(order route)\n(atom 0 in ())\n(atom 1 out (0 2 30))\n(rule 0 1 (0 0) (0))\n(end)\n";
    for n in 0..routes.len() {
        assert_eq!(rt; route_refusal(&routes[0..n]), refused_at(1, n));
    }
    let pairs = b"(order then)\n(atom 0 in (3 10))\n(void 0)\n(end)\n";
    for n in 0..pairs.len() {
        assert_eq!(rt; then_refusal(&pairs[0..n]), refused_at(1, n));
    }
}
