// Ticks of the clock, the order of numbers.
ghost use Rattle.stamps.specs.Laws.{tick_lawful};
ghost use Rattle.stamps.specs.Orders.{tick_tests};

use crate::order::Order;
use std::fmt;

// A tick is before a later one, and not after itself and later ones.
#[derive(Clone, Copy, PartialEq, Eq, Debug)]
pub struct Tick(pub u32);

impl Order for Tick {
    ghost tests = { tick_tests (λ a. a.0) };

    ghost lawful = { tick_lawful (λ a. a.0) };

    fn before(&self, other: &Self) -> bool {
        self.0 < other.0
    }

    fn not_after(&self, other: &Self) -> bool {
        self.0 <= other.0
    }
}

impl fmt::Display for Tick {
    fn fmt<W: fmt::Write>(&self, f: &mut fmt::Formatter<W>) -> fmt::Result {
        let tick = self.0;
        write!(f, "tick {tick}")
    }
}
