// Stable models of a checked book: what is due, safe and ruled out, and why nothing told is taken back.
// Each function below computes nothing: its contract is a theorem about the definitions of this crate's specs/.
// The generic ones hold for every stamp order that keeps the laws of `Order`.
#![tactic(auto)]

ghost use Rattle.models.specs.Examples.{ExamplesHold};
ghost use Rattle.models.specs.Shortcuts.{ShortcutsAreWrong};
ghost use Rattle.models.specs.Theorems.{EachHasOneModel, RuledOutLasts, OpenMayCome, NothingTakenBack, DueGivesSafe, SweepingEnds, EndIsModel};

use stamps::order::Order;

// Every set of readings of a checked book has exactly one stable model, and sweeping computes it.
// Its lemma, named with `using`, does not close it: its answer cites the lemma.
pub fn each_has_one_model<O: Order>()
    ensures { EachHasOneModel O.Order.tests }
{}

// An atom once ruled out stays ruled out, whatever moves follow.
#[tactic(auto, using(crate::proofs::Theorems::ruled_out_lasts_lem))]
pub fn ruled_out_lasts<O: Order>()
    ensures { RuledOutLasts O.Order.tests }
{}

// Each held atom is in the stable model of every possible outcome, and each ruled out atom is in none;
// and whichever of the open readings come, they and the fed ones are such an outcome.
// Its lemmas, named with `using`, do not close it: its answer cites them.
pub fn nothing_is_taken_back<O: Order>()
    ensures possible { OpenMayCome O.Order.tests }
    ensures told { NothingTakenBack O.Order.tests }
{}

// With nothing open, something due gives something safe.
#[tactic(auto, using(crate::proofs::Theorems::due_gives_safe_lem))]
pub fn due_gives_safe<O: Order>()
    ensures { DueGivesSafe O.Order.tests }
{}

// With nothing open, as many sweeps as there are atoms leave nothing due.
#[tactic(auto, using(crate::proofs::Theorems::sweeping_ends_lem))]
pub fn sweeping_ends<O: Order>()
    ensures { SweepingEnds O.Order.tests }
{}

// With nothing due and nothing open the held set is the stable model of the fed readings, in whatever order the moves came.
#[tactic(auto, using(crate::proofs::Theorems::end_is_model))]
pub fn end_is_the_model<O: Order>()
    ensures { EndIsModel O.Order.tests }
{}

// Looking for blockers only strictly before the negative is wrong, and so is comparing them with the head.
#[tactic(auto, using(crate::proofs::ExamplesComputed::shortcuts_are_wrong_lem))]
pub fn shortcuts_are_wrong()
    ensures { ShortcutsAreWrong }
{}

// What the definitions say of three small books.
#[tactic(auto, using(crate::proofs::ExamplesComputed::examples_hold_lem))]
pub fn examples_hold()
    ensures { ExamplesHold }
{}
