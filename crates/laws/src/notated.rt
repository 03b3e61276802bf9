// The kinds of stamps that the grammar has.
ghost use Rattle.grammar.proofs.Laws.{lawful_ticks, lawful_routes, lawful_pairs};
ghost use Rattle.grammar.specs.Lawful.{Lawful};
ghost use Rattle.grammar.specs.Notations.{notation_of, ticks, routes, pairs};
ghost use Rattle.grammar.specs.Pieces.{Care};
ghost use Rattle.std.specs.Prelude.{ℕ, List};

use stamps::route::Route;
use stamps::then::Then;
use stamps::tick::Tick;
use text::stamp::Spelled;

// A kind of stamp that the grammar has.
pub trait Notated: Spelled {
    // The texts that spell a stamp.
    ghost spells: { Care → Self → List ℕ → Type 0 };

    // Which stamps the machine holds.
    ghost fits: { Self → Type 0 };

    // Stamps are read as they are spelt, and each has one canonical text, which is written of it.
    ghost lawful: { Lawful (notation_of Self.spelling Self.stamp_at Self.spelt spells fits) };
}

impl Notated for Tick {
    ghost spells = { ticks.spells };

    ghost fits = { ticks.Fits };

    ghost lawful = { lawful_ticks };
}

impl Notated for Route {
    ghost spells = { routes.spells };

    ghost fits = { routes.Fits };

    ghost lawful = { lawful_routes };
}

impl Notated for Then<Tick, Tick> {
    ghost spells = { pairs.spells };

    ghost fits = { pairs.Fits };

    ghost lawful = { lawful_pairs };
}
