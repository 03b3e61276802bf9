// Stamps that have a word: how a text names their kind, and how it writes them.
ghost use Rattle.std.specs.Prelude.{◌≡◌, ℕ, ◌+◌, ◌^◌, ◌<◌, ◌≤◌, List, length, OnErr, Result as Answer};
ghost use Rattle.books.specs.declared.fault.Fault.{Fault as Refused};
ghost use Rattle.text.specs.Spelt.{tick_text, pair_text, route_text};
ghost use Rattle.text.specs.Written.{Writes};
ghost use Rattle.text.specs.Cursors.{Took, TookAny};
ghost use Rattle.text.specs.Stamps.{tick_at, pair_at, route_at, tick_word, route_word, then_word};

use crate::cursor::Cursor;
use crate::numbers::MAX_NUMBER;
use crate::sheet::Sheet;
use books::fault::{Fault, ReadFault};
use stamps::order::Order;
use stamps::route::Route;
use stamps::then::Then;
use stamps::tick::Tick;

// A kind of stamp that a text can hold. Each has a spelling of its own, so no two of the impls below are one.
pub trait Spelled: Order {
    // What follows the word of the order form.
    ghost spelling: { List ℕ };

    // The stamp at a place of a text, and the place after it.
    ghost stamp_at: { List ℕ → ℕ → Answer (Self × ℕ) Refused };

    // The stamp in canonical spelling.
    ghost spelt: { Self → List ℕ };

    fn word() -> &'static [u8]
        ensures value { result.now ≡ spelling }
        ensures short { length result.now ≤ 8 };

    // The stamp at the cursor's place, and the cursor past it. The faults: a byte that no stamp has there,
    // a number above its limit, an aisle that does not rise. A fault leaves the cursor as it was.
    // Of which kind the fault is, the definition says; those of the stamps here are all of reading.
    fn stamp(cursor: &mut Cursor<'_>) -> Result<Self, Fault>
        ensures value { TookAny (λ stamp. stamp) result cursor.old cursor.new (stamp_at cursor.old.text.now cursor.old.at) }
        ensures kept { OnErr result (cursor.new ≡ cursor.old) };

    // Writes the stamp. What falls beyond the sheet's end is only counted.
    fn spell(&self, sheet: &mut Sheet<'_>)
        requires { sheet.old.at < 2 ^ 60 }
        ensures wrote { Writes sheet.old (spelt self.now) sheet.new }
        ensures short { sheet.new.at ≤ sheet.old.at + 2000 };
}

impl Cursor<'_> {
    fn tick(&mut self) -> Result<Tick, ReadFault>
        ensures { Took result self.old self.new (tick_at self.old.text.now self.old.at) }
    {
        // The limit is that of 32 bits.
        Ok(Tick(self.number(MAX_NUMBER)? as u32))
    }
}

impl Spelled for Tick {
    ghost spelling = { tick_word };

    ghost stamp_at = { tick_at };

    ghost spelt = { tick_text };

    fn word() -> &'static [u8] {
        b"tick"
    }

    fn stamp(cursor: &mut Cursor<'_>) -> Result<Tick, Fault> {
        let mut ahead = *cursor;
        let tick = ahead.tick()?;
        *cursor = ahead;
        Ok(tick)
    }

    fn spell(&self, sheet: &mut Sheet<'_>) {
        // 32 bits are cast to a `usize`, which has 64 here.
        sheet.number(self.0 as usize);
    }
}

impl Spelled for Then<Tick, Tick> {
    ghost spelling = { then_word };

    ghost stamp_at = { pair_at };

    ghost spelt = { pair_text };

    fn word() -> &'static [u8] {
        b"then"
    }

    fn stamp(cursor: &mut Cursor<'_>) -> Result<Then<Tick, Tick>, Fault> {
        let mut ahead = *cursor;
        ahead.pass(b'(')?;
        let first = ahead.tick()?;
        ahead.pass(b' ')?;
        let second = ahead.tick()?;
        ahead.pass(b')')?;
        *cursor = ahead;
        Ok(Then { first, second })
    }

    fn spell(&self, sheet: &mut Sheet<'_>) {
        sheet.put(b"(");
        // As of a tick, the casts lose nothing.
        sheet.number(self.first.0 as usize);
        sheet.put(b" ");
        sheet.number(self.second.0 as usize);
        sheet.put(b")");
    }
}

impl Spelled for Route {
    ghost spelling = { route_word };

    ghost stamp_at = { route_at };

    ghost spelt = { route_text };

    fn word() -> &'static [u8] {
        b"route"
    }

    fn stamp(cursor: &mut Cursor<'_>) -> Result<Route, Fault> {
        let mut ahead = *cursor;
        let route = ahead.route()?;
        *cursor = ahead;
        Ok(route)
    }

    fn spell(&self, sheet: &mut Sheet<'_>) {
        sheet.put(b"(");
        sheet.aisles(self.aisles);
        sheet.put(b")");
    }
}
