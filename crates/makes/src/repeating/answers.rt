// What a repeating book answers.
ghost use Rattle.std.specs.Prelude.{◌≡◌, length};
ghost use Rattle.std.specs.List.{slice_get};
ghost use Rattle.std.specs.Option.{option_flatten, option_map};
ghost use Rattle.makes.specs.Flats.{atom_of, rule_of};
ghost use Rattle.makes.specs.Repeats.{every_tick, instance_of, repeating_meaning, slot_atom};

use crate::instance::instance;
use crate::repeating::Repeating;
use crate::rows::{AtomRow, RuleRow};
use books::book::{Book, Sign};
use stamps::order::Order;
use stamps::then::Then;
use stamps::tick::Tick;

impl Repeating<'_> {
    // A slot at its tick.
    #[tactic(auto, using(crate::proofs::Ticks::places))]
    fn atom(&self, atom: usize) -> Option<AtomRow<Then<Tick, Tick>>>
        ensures { option_map atom_of result ≡ slice_get (every_tick slot_atom self.now.slots.now self.now.ticks) atom }
    {
        let width = self.slots.len();
        if atom >= self.ticks * width {
            return None;
        }
        let slot = self.slots[atom % width];
        // A cast, since the quotient is below 1,024: a conversion that may fail would have nothing to refuse.
        let first = Tick((atom / width) as u32);
        let second = Tick(u32::from(slot.stage));
        Some(AtomRow {
            stamp: Then { first, second },
            reading: slot.reading,
        })
    }

    // A pattern at its tick; none where it is vacant.
    #[tactic(auto, using(crate::proofs::Ticks::places, crate::proofs::Making::made_book))]
    fn rule(&self, rule: usize) -> Option<RuleRow>
        ensures { option_map rule_of result ≡ option_flatten (slice_get (every_tick (instance_of (length self.now.slots.now)) self.now.patterns.now self.now.ticks) rule) }
    {
        let count = self.patterns.len();
        if rule >= self.ticks * count {
            return None;
        }
        instance(&self.patterns[rule % count], rule / count, self.slots.len())
    }
}

// The answers are those of a flat book over a row. They are not one blanket impl: that would overlap with the struck book's.
#[tactic(auto, using(crate::proofs::Ticks::lengths))]
impl Book for Repeating<'_> {
    type Stamp = Then<Tick, Tick>;

    ghost meaning = { λ b. repeating_meaning b.slots.now b.ticks b.patterns.now };

    fn atom_count(&self) -> usize {
        self.ticks * self.slots.len()
    }

    fn rule_count(&self) -> usize {
        self.ticks * self.patterns.len()
    }

    fn stamp(&self, atom: usize) -> Option<Then<Tick, Tick>> {
        Some(self.atom(atom)?.stamp)
    }

    fn reading(&self, atom: usize) -> Option<bool> {
        Some(self.atom(atom)?.reading)
    }

    fn head(&self, rule: usize) -> Option<usize> {
        Some(self.rule(rule)?.head)
    }

    fn body_count(&self, rule: usize, sign: Sign) -> Option<usize> {
        Some(self.rule(rule)?.body(sign).count())
    }

    fn body_atom(&self, rule: usize, sign: Sign, i: usize) -> Option<usize> {
        self.rule(rule)?.body(sign).get(i)
    }
}
