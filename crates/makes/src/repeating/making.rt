// Making a repeating book, with its limits.
ghost use Rattle.std.specs.Prelude.{◌≡◌, ◌*◌, ◌<◌, [], length, nat_le, Err, None, OnOk, IfErr, IfOk};
ghost use Rattle.std.specs.List.{slice_get};
ghost use Rattle.books.specs.Check.{refused_by};
ghost use Rattle.std.specs.Option.{option_and_then};
ghost use Rattle.makes.specs.Repeats.{step_fault, steps, pattern_fault, patterns_fault, making_fault, repeating_meaning};

use crate::patterns::{Pattern, Slot, Step};
use crate::repeating::Repeating;
use books::check::MAX_ATOMS;
use books::fault::{CheckFault, Fault, MakeFault};
use books::walk::first_refusal;

// Whether the product is within the limit, however large the factors are.
fn is_within(a: usize, b: usize) -> bool
    ensures { result ≡ nat_le (a * b) 1024 }
{
    a.checked_mul(b).is_some_and(|product| product <= MAX_ATOMS)
}

// Step `index` of a pattern, positives first: by its number, since a refusal tells that number.
#[tactic(auto, using(crate::proofs::Appended::appended))]
fn step_at(pattern: &Pattern, index: usize) -> Option<Step>
    ensures { result ≡ slice_get (steps pattern.now) index }
{
    let positives = pattern.positives.count();
    if index < positives {
        pattern.positives.get(index)
    } else {
        pattern.negatives.get(index - positives)
    }
}

// One step: its slot is there, and it goes at most 3 ticks back.
// Pattern and width are two parameters, here and where a pattern becomes a rule: neither is a part of the other.
fn check_step(pattern: &Pattern, width: usize, number: usize, index: usize) -> Result<(), MakeFault>
    requires { index < 12 }
    ensures { result ≡ refused_by (option_and_then (step_fault width number index) (slice_get (steps pattern.now) index)) }
{
    match step_at(pattern, index) {
        Some(step) if step.slot >= width || step.back > 3 => Err(MakeFault::SlotMissing {
            pattern: number,
            literal: index + 1,
        }),
        _ => Ok(()),
    }
}

// A pattern's head, then its steps.
fn check_pattern(pattern: &Pattern, width: usize, number: usize) -> Result<(), MakeFault>
    ensures { result ≡ refused_by (pattern_fault width number pattern.now) }
{
    if pattern.head >= width {
        return Err(MakeFault::SlotMissing {
            pattern: number,
            literal: 0,
        });
    }
    let count = pattern.positives.count() + pattern.negatives.count();
    first_refusal(count, |index| check_step(pattern, width, number, index))
}

// The patterns in order, up to the first fault.
fn check_patterns(patterns: &[Pattern], width: usize) -> Result<(), MakeFault>
    ensures { result ≡ refused_by (patterns_fault width patterns.now) }
{
    first_refusal(
        patterns.len(),
        |number| check_pattern(&patterns[number], width, number),
    )
}

impl<'a> Repeating<'a> {
    // The book without slots, patterns and ticks. No program here begins with it; it is there for one that has no tables yet.
    pub fn empty() -> Repeating<'a>
        ensures { (result.slots.now ≡ []) × (result.ticks ≡ 0) × (result.patterns.now ≡ []) }
    {
        Repeating {
            slots: &[],
            ticks: 0,
            patterns: &[],
        }
    }

    // The book of these tables over so many ticks. Refused with `TooLarge` where slots or patterns times ticks are above 1,024,
    // and else with `SlotMissing` at the first pattern and literal whose slot is not there or whose step goes more than 3 ticks back.
    pub fn make(
        slots: &'a [Slot],
        ticks: usize,
        patterns: &'a [Pattern],
    ) -> Result<Repeating<'a>, Fault>
        ensures made { OnOk result (making_fault slots.now ticks patterns.now ≡ None) }
        ensures refused { IfErr result (λ fault. refused_by (making_fault slots.now ticks patterns.now) ≡ Err fault) }
        ensures slots { IfOk result (λ book. book.slots.now ≡ slots.now) }
        ensures ticks { IfOk result (λ book. book.ticks ≡ ticks) }
        ensures patterns { IfOk result (λ book. book.patterns.now ≡ patterns.now) }
        ensures meaning { IfOk result (λ book. repeating_meaning book.slots.now book.ticks book.patterns.now ≡ repeating_meaning slots.now ticks patterns.now) }
    {
        if !is_within(slots.len(), ticks) || !is_within(patterns.len(), ticks) {
            return Err(CheckFault::TooLarge.into());
        }
        check_patterns(patterns, slots.len())?;
        Ok(Repeating {
            slots,
            ticks,
            patterns,
        })
    }
}
