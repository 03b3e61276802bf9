// The kind of stamp that a text's first form names.
ghost use Rattle.std.specs.Prelude.{◌≡◌};
ghost use Rattle.text.specs.Orders.{word_of, order_refused};

use crate::cursor::Cursor;

// The kinds of stamps that an order form can name.
#[derive(Clone, Copy)]
pub enum Word {
    Tick,
    Route,
    Then,
}

// The word of the order form, told by its first bytes.
pub fn order_word(text: &[u8]) -> Option<Word>
    ensures { result ≡ word_of text.now }
{
    match text {
        [b'(', b'o', b'r', b'd', b'e', b'r', b' ', b't', b'i', ..] => Some(Word::Tick),
        [b'(', b'o', b'r', b'd', b'e', b'r', b' ', b'r', ..] => Some(Word::Route),
        [b'(', b'o', b'r', b'd', b'e', b'r', b' ', b't', b'h', ..] => Some(Word::Then),
        _ => None,
    }
}

// The place of the first byte that no order form has there.
#[tactic(auto, unfolding(crate::specs::Orders::order_refused))]
pub fn order_refused(text: &[u8]) -> usize
    ensures { result ≡ order_refused text.now }
{
    let start = Cursor { text, at: 0 };
    let tick = start.agreed(b"(order ti");
    let route = start.agreed(b"(order r");
    let then = start.agreed(b"(order th");
    tick.max(route.max(then))
}
