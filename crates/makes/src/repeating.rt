// The repeating book: slots and pattern rules that come again every tick.
ghost use Rattle.std.specs.Prelude.{◌≡◌, None};
ghost use Rattle.makes.specs.Repeats.{making_fault};

use crate::patterns::{Pattern, Slot};

mod answers;
mod making;
mod numbering;

// Slot s at tick t is atom t × W + s, and pattern p at tick t is rule t × P + p, with W slots and P patterns. The tables are lent, so that nothing allocates.
// What is known of a made book is a ghost field: a struct that is copied and has a lifetime can have no model.
#[derive(Clone, Copy)]
pub struct Repeating<'a> {
    slots: &'a [Slot],
    ticks: usize,
    patterns: &'a [Pattern],
    ghost made: { making_fault slots.now ticks patterns.now ≡ None },
}
