// The tables of a repeating book: its slots and its pattern rules.
ghost use Rattle.std.specs.Prelude.{◌≡◌, ◌≤◌, ◌↔◌, length, IsOk, IfOk};
ghost use Rattle.makes.specs.Bodies.{body_items};

use crate::body::{Body, TooLong};

// What comes once every tick. Stages order the slots of one tick.
#[derive(Clone, Copy, Debug)]
pub struct Slot {
    pub reading: bool,
    pub stage: u8,
}

// A slot so many ticks back.
#[derive(Clone, Copy, Default, Debug)]
pub struct Step {
    pub slot: usize,
    pub back: usize,
}

// A rule that comes once every tick; its head is a slot of that tick. Not a row of a flat book with steps for atoms:
// a row's head is an atom's number, and what is said of each goes by its type.
#[derive(Clone, Copy, Debug)]
pub struct Pattern {
    pub head: usize,
    pub positives: Body<Step>,
    pub negatives: Body<Step>,
}

impl Pattern {
    // A pattern of this slot and these steps, if neither list has more than six.
    pub fn of(head: usize, positives: &[Step], negatives: &[Step]) -> Result<Pattern, TooLong>
        ensures fits { IsOk result ↔ (length positives.now ≤ 6) × (length negatives.now ≤ 6) }
        ensures head { IfOk result (λ pattern. pattern.head ≡ head) }
        ensures positives { IfOk result (λ pattern. body_items pattern.positives ≡ positives.now) }
        ensures negatives { IfOk result (λ pattern. body_items pattern.negatives ≡ negatives.now) }
    {
        Ok(Pattern {
            head,
            positives: Body::of(positives)?,
            negatives: Body::of(negatives)?,
        })
    }
}
