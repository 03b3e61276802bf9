// The grammar of the text, stated apart from the reader, and the laws that tie reading and writing to it.
// The laws themselves are the contracts of crate `laws`, for every kind of stamp that keeps `Lawful`; their statements
// are in this crate's specs/, their proofs in its proofs/.
// Each function below computes nothing: its contract is a theorem about the definitions of specs/.
#![tactic(auto)]

ghost use Rattle.grammar.specs.Examples.{ExamplesHold};
ghost use Rattle.grammar.specs.Programs.{ProgramRefusesThere};

// What the definitions say of small texts.
#[tactic(auto, using(crate::proofs::ExamplesComputed::examples_hold_lem))]
pub fn examples_hold()
    ensures { ExamplesHold }
{}

// Where the program refuses a byte, what stands before it begins a text of the grammar's shape of one of the three kinds,
// and with it begins none.
// Its lemma, named with `using`, does not close it: its answer cites the lemma.
pub fn program_refuses_there()
    ensures { ProgramRefusesThere }
{}
