// One order, and then another where the first leaves two stamps level.
ghost use Rattle.std.specs.Prelude.{◌≡◌};
ghost use Rattle.stamps.specs.Laws.{then_lawful};
ghost use Rattle.stamps.specs.Orders.{level, then_tests};

use crate::order::Order;
use std::fmt;
use std::fmt::Display;

// Whether each of two stamps is not after the other.
pub fn are_level<S: Order>(a: &S, b: &S) -> bool
    ensures { result ≡ level S.Order.tests a.now b.now }
{
    a.not_after(b) && b.not_after(a)
}

#[derive(Clone, Copy, PartialEq, Eq, Debug)]
pub struct Then<X, Y> {
    pub first: X,
    pub second: Y,
}

// First parts decide; where they are level, the second parts do.
// The two answers differ in their last question alone; a parameter for it would be longer than what they share.
impl<X: Order, Y: Order> Order for Then<X, Y> {
    ghost tests = { then_tests X.Order.tests Y.Order.tests (λ a. a.first) (λ a. a.second) };

    ghost lawful = { then_lawful X.Order.tests Y.Order.tests (λ a. a.first) (λ a. a.second) X.Order.lawful Y.Order.lawful };

    fn before(&self, other: &Self) -> bool {
        self.first.before(&other.first)
            || (are_level(&self.first, &other.first) && self.second.before(&other.second))
    }

    fn not_after(&self, other: &Self) -> bool {
        self.first.before(&other.first)
            || (are_level(&self.first, &other.first) && self.second.not_after(&other.second))
    }
}

impl<X: Display, Y: Display> Display for Then<X, Y> {
    fn fmt<W: fmt::Write>(&self, f: &mut fmt::Formatter<W>) -> fmt::Result {
        write!(f, "{}, then {}", self.first, self.second)
    }
}
