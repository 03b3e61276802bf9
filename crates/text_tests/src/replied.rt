// What the program prints.
use crate::replies;

#[test]
fn canonical_texts_come_back(rt: HostRuntime) {
    let ticks =
        b"(order tick)\n(atom 0 in 1)\n(atom 1 out 4294967295)\n(rule 0 1 (0) (0 0))\n(void 1)\n(end)\n";
    assert!(rt; replies(ticks, ticks));
    let routes =
        b"(order route)\n(atom 0 in ())\n(atom 1 out (0 2 10 63))\n(rule 0 1 () (0))\n(end)\n";
    assert!(rt; replies(routes, routes));
    let pairs =
        b"(order then)\n(atom 0 out (0 0))\n(atom 1 out (3 20))\n(rule 0 1 (0 1) (0))\n(end)\n";
    assert!(rt; replies(pairs, pairs));
    let empty = b"(order tick)\n(end)\n";
    assert!(rt; replies(empty, empty));
}

#[test]
fn leading_zeros_go(rt: HostRuntime) {
    assert!(rt;
        replies(
            b"(order tick)\n(atom 00 out 0000000100)\n(rule 000 0 (00) ())\n(end)\n",
            b"(order tick)\n(atom 0 out 100)\n(rule 0 0 (0) ())\n(end)\n",
        )
    );
    assert!(rt;
        replies(
            b"(order route)\n(atom 0 in (00 063))\n(end)\n",
            b"(order route)\n(atom 0 in (0 63))\n(end)\n",
        )
    );
}

#[test]
fn refusals_are_one_line(rt: HostRuntime) {
    assert!(rt; replies(b"", b"(no 1 0)\n"));
    assert!(rt; replies(b"(order tx", b"(no 1 8)\n"));
    assert!(rt; replies(b"(order thex", b"(no 1 10)\n"));
    assert!(rt; replies(b"(order tick)\n(atom 7 in 1)\n", b"(no 2 19)\n"));
    assert!(rt;
        replies(
            b"(order tick)\n(atom 0 out 1)\n(rule 0 0 (4) ())\n",
            b"(no 4 0 1)\n",
        )
    );
    assert!(rt;
        replies(
            b"(order tick)\n(atom 0 in 1)\n(rule 0 0 () ())\n(end)\n",
            b"(no 5 0 0)\n",
        )
    );
    assert!(rt;
        replies(
            b"(order tick)\n(atom 0 out 5)\n(atom 1 out 6)\n(rule 0 0 (1) ())\n(end)\n",
            b"(no 6 0 1)\n",
        )
    );
    assert!(rt;
        replies(
            b"(order tick)\n(atom 0 out 5)\n(rule 0 0 () (0))\n(end)\n",
            b"(no 7 0 1)\n",
        )
    );
}

#[test]
fn a_longer_input_is_not_read(rt: HostRuntime) {
    let long = [b'('; 65537];
    assert!(rt; replies(&long, b"(no 3 0)\n"));
    assert!(rt; replies(&long[0..65536], b"(no 1 1)\n"));
}
