// What a pattern is at one tick.
ghost use Rattle.std.specs.Prelude.{◌≡◌, ◌+◌, ◌*◌, ◌<◌, ◌≤◌, true, map, length};
ghost use Rattle.std.specs.Option.{option_map};
ghost use Rattle.makes.specs.Bodies.{body_items};
ghost use Rattle.makes.specs.Flats.{rule_of};
ghost use Rattle.makes.specs.Repeats.{started_by, slots_there, atom_back, instance_of};

use crate::body::Body;
use crate::patterns::{Pattern, Step};
use crate::rows::RuleRow;

// Whether none of the steps from a tick falls before tick 0.
fn all_started(steps: &[Step], tick: usize) -> bool
    ensures { result ≡ started_by tick steps.now }
{
    steps.iter().all(|step| step.back <= tick)
}

// The atoms of the steps from a tick.
#[tactic(auto, using(crate::proofs::Instances::all_back, crate::proofs::Instances::atom_below))]
fn atoms_back(steps: &[Step], tick: usize, width: usize) -> Body
    requires few { length steps.now ≤ 6 }
    requires within { (tick + 1) * width ≤ 1024 }
    requires there { slots_there width steps.now ≡ true }
    requires started { started_by tick steps.now ≡ true }
    ensures { body_items result ≡ map (atom_back width tick) steps.now }
{
    // A loop, since it writes an array: a `collect` would allocate.
    let mut atoms = [0; 6];
    for (i, step) in steps.iter().enumerate() {
        atoms[i] = (tick - step.back) * width + step.slot;
    }
    Body::with(&atoms[..steps.len()])
}

// The pattern as a rule of that tick; none where it is vacant there.
#[tactic(auto, using(crate::proofs::Bodies::few_items))]
pub fn instance(pattern: &Pattern, tick: usize, width: usize) -> Option<RuleRow>
    requires within { (tick + 1) * width ≤ 1024 }
    requires head { pattern.now.head < width }
    requires positives { slots_there width (body_items pattern.now.positives) ≡ true }
    requires negatives { slots_there width (body_items pattern.now.negatives) ≡ true }
    ensures { option_map rule_of result ≡ instance_of width tick pattern.now }
{
    let positives = pattern.positives.as_slice();
    let negatives = pattern.negatives.as_slice();
    if !all_started(positives, tick) || !all_started(negatives, tick) {
        return None;
    }
    Some(RuleRow {
        head: tick * width + pattern.head,
        positives: atoms_back(positives, tick, width),
        negatives: atoms_back(negatives, tick, width),
    })
}
