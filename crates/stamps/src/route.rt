// Routes, ordered by the aisles that they have.
ghost use Rattle.std.specs.Prelude.{◌≡◌};
ghost use Rattle.stamps.specs.Aisles.{part_of};
ghost use Rattle.stamps.specs.Laws.{route_lawful};
ghost use Rattle.stamps.specs.Orders.{route_tests};

use crate::order::Order;

// A set of aisles 0 to 63: bit k says whether the route has aisle k.
#[derive(Clone, Copy, PartialEq, Eq, Debug)]
pub struct Route {
    pub aisles: u64,
}

// Whether each aisle of the first set is one of the second.
#[tactic(auto, using(crate::specs::Parts::part_mask))]
fn is_part(a: u64, b: u64) -> bool
    ensures { result ≡ part_of a b }
{
    a & b == a
}

// A route is not after those that have all its aisles, and before those that have more besides.
impl Order for Route {
    ghost tests = { route_tests (λ a. a.aisles) };

    ghost lawful = { route_lawful (λ a. a.aisles) };

    fn before(&self, other: &Self) -> bool {
        self.not_after(other) && !other.not_after(self)
    }

    fn not_after(&self, other: &Self) -> bool {
        is_part(self.aisles, other.aisles)
    }
}
