// The aisles of a route, as they are written.
ghost use Rattle.std.specs.Prelude.{◌+◌, ◌-◌, ◌^◌, ◌<◌, ◌≤◌};
ghost use Rattle.text.specs.Spelt.{up_to, aisle_text};
ghost use Rattle.text.specs.Written.{Writes};

use crate::aisles::MAX_AISLE;
use crate::sheet::Sheet;

impl Sheet<'_> {
    // Writes the aisle, if the route has it, after a space unless it is the first.
    fn aisle(&mut self, aisles: u64, aisle: u64)
        requires early { self.old.at < 2 ^ 61 }
        requires is_aisle { aisle < 64 }
        ensures wrote { Writes self.old (aisle_text aisles aisle) self.new }
        ensures short { self.new.at ≤ self.old.at + 21 }
    {
        let bit = 1u64 << aisle;
        if aisles / bit % 2 == 1 {
            // An aisle is below 64, so its cast loses nothing.
            self.list_number(aisles % bit == 0, aisle as usize);
        }
    }

    // Writes the aisles of a route, rising.
    pub(crate) fn aisles(&mut self, aisles: u64)
        requires { self.old.at < 2 ^ 61 - 2000 }
        ensures wrote { Writes self.old (up_to (aisle_text aisles) 64) self.new }
        ensures short { self.new.at ≤ self.old.at + 1344 }
    {
        for aisle in 0..=MAX_AISLE {
            self.aisle(aisles, aisle);
        }
    }
}
