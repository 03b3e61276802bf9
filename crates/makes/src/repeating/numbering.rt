// The numbers of a repeating book's atoms and rules.
ghost use Rattle.std.specs.Prelude.{◌≡◌, ◌+◌, ◌*◌, ◌<◌, ◌≤◌, ◌&&◌, length, nat_lt};
ghost use Rattle.std.specs.List.{slice_get};
ghost use Rattle.std.specs.Option.{option_map};
ghost use Rattle.std.specs.Bool.{then_some};
ghost use Rattle.makes.specs.Repeats.{instance_of, repeating_meaning, slot_atom};

use crate::repeating::Repeating;

// Where an item of a tick stands among the items of all ticks; none where there is no such item or tick.
fn place(tick: usize, ticks: usize, item: usize, items: usize) -> Option<usize>
    requires { items * ticks ≤ 1024 }
    ensures { result ≡ then_some (nat_lt tick ticks && nat_lt item items) (tick * items + item) }
{
    (tick < ticks && item < items).then(|| tick * items + item)
}

// Two functions over one body: what they say, each says of another list of the book.
impl Repeating<'_> {
    // The atom of a slot at a tick; none where there is no such slot or tick.
    #[tactic(auto, using(crate::proofs::Making::few_atoms, crate::proofs::Ticks::ticks_at))]
    pub fn atom_number(&self, tick: usize, slot: usize) -> Option<usize>
        ensures answer { result ≡ then_some (nat_lt tick self.now.ticks && nat_lt slot (length self.now.slots.now)) (tick * length self.now.slots.now + slot) }
        ensures stands { tick < self.now.ticks → slot < length self.now.slots.now → slice_get (repeating_meaning self.now.slots.now self.now.ticks self.now.patterns.now).atoms (tick * length self.now.slots.now + slot) ≡ option_map (slot_atom tick) (slice_get self.now.slots.now slot) }
    {
        place(tick, self.ticks, slot, self.slots.len())
    }

    // The rule number of a pattern at a tick; none where there is no such pattern or tick.
    #[tactic(auto, using(crate::proofs::Making::few_rules, crate::proofs::Ticks::ticks_at))]
    pub fn rule_number(&self, tick: usize, pattern: usize) -> Option<usize>
        ensures answer { result ≡ then_some (nat_lt tick self.now.ticks && nat_lt pattern (length self.now.patterns.now)) (tick * length self.now.patterns.now + pattern) }
        ensures stands { tick < self.now.ticks → pattern < length self.now.patterns.now → slice_get (repeating_meaning self.now.slots.now self.now.ticks self.now.patterns.now).rules (tick * length self.now.patterns.now + pattern) ≡ option_map (instance_of (length self.now.slots.now) tick) (slice_get self.now.patterns.now pattern) }
    {
        place(tick, self.ticks, pattern, self.patterns.len())
    }
}
