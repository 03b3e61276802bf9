// Refusals: what was refused, with its layer, number and values.
ghost use Rattle.std.specs.Prelude.{◌≡◌};
ghost use Rattle.books.specs.Faults.{read_refusal, check_refusal, make_refusal, refusal_of};
ghost use Rattle.books.specs.declared.fault.Fault.TheVariants.{Reading, Checking, Making};

use std::fmt;

// The part of the product that refused, as refusals are told; no fault of a running book is here yet.
#[derive(Clone, Copy, PartialEq, Eq, Debug)]
pub enum Layer {
    Reading,
    Checking,
    Running,
}

// What comes back with a refusal's number.
#[derive(Clone, Copy, PartialEq, Eq, Debug)]
pub enum Values {
    One(usize),
    RuleLiteral(usize, usize),
}

// A refusal as it is told, by its number in the table of refusals.
#[derive(Clone, Copy, PartialEq, Eq, Debug)]
pub struct Refusal {
    pub layer: Layer,
    pub number: u8,
    pub values: Values,
}

// What the reader of a text refuses. Places count bytes from 0; a rule's head is literal 0.
#[derive(Clone, Copy, PartialEq, Eq, Debug)]
pub enum ReadFault {
    Byte { place: usize },
    // An aisle that does not rise: numbered as a wrong byte, yet a text may go on with its digit, as (5 3 goes on to (5 30).
    NotRising { place: usize },
    Number { place: usize },
    TooMany { place: usize },
    AtomMissing { rule: usize, literal: usize },
}

// What the check refuses. Literals count from 1, positives first.
#[derive(Clone, Copy, PartialEq, Eq, Debug)]
pub enum CheckFault {
    TooLarge,
    BodyTooLong { rule: usize },
    HeadMissing { rule: usize },
    HeadIsReading { rule: usize },
    LiteralMissing { rule: usize, literal: usize },
    PositiveOutOfOrder { rule: usize, literal: usize },
    NegativeOutOfOrder { rule: usize, literal: usize },
}

// What making, striking and writing a book refuse besides. Literals count from 1; a pattern's head is literal 0.
#[derive(Clone, Copy, PartialEq, Eq, Debug)]
pub enum MakeFault {
    SlotMissing { pattern: usize, literal: usize },
    RuleMissing { rule: usize },
    // The bytes that the text needs.
    SheetTooShort { needed: usize },
}

// Every refusal of the product, by layer.
#[derive(Clone, Copy, PartialEq, Eq, Debug)]
pub enum Fault {
    Reading(ReadFault),
    Checking(CheckFault),
    // Told under the checking layer.
    Making(MakeFault),
}

impl From<ReadFault> for Fault {
    ghost from_gives = { λ fault all. all ≡ Reading fault };

    fn from(fault: ReadFault) -> Fault {
        Fault::Reading(fault)
    }
}

impl From<CheckFault> for Fault {
    ghost from_gives = { λ fault all. all ≡ Checking fault };

    fn from(fault: CheckFault) -> Fault {
        Fault::Checking(fault)
    }
}

impl From<MakeFault> for Fault {
    ghost from_gives = { λ fault all. all ≡ Making fault };

    fn from(fault: MakeFault) -> Fault {
        Fault::Making(fault)
    }
}

// The numbers of the refusals stand in the three functions below, and nowhere else.
impl ReadFault {
    fn refusal(&self) -> Refusal
        ensures { result ≡ read_refusal self.now }
    {
        let (number, values) = match *self {
            ReadFault::Byte { place } | ReadFault::NotRising { place } => (1, Values::One(place)),
            ReadFault::Number { place } => (2, Values::One(place)),
            ReadFault::TooMany { place } => (3, Values::One(place)),
            ReadFault::AtomMissing { rule, literal } => (4, Values::RuleLiteral(rule, literal)),
        };
        Refusal {
            layer: Layer::Reading,
            number,
            values,
        }
    }
}

impl CheckFault {
    fn refusal(&self) -> Refusal
        ensures { result ≡ check_refusal self.now }
    {
        let (number, rule, literal) = match *self {
            CheckFault::TooLarge => (3, 0, 0),
            CheckFault::BodyTooLong { rule } => (3, rule, 0),
            CheckFault::HeadMissing { rule } => (4, rule, 0),
            CheckFault::HeadIsReading { rule } => (5, rule, 0),
            CheckFault::LiteralMissing { rule, literal } => (4, rule, literal),
            CheckFault::PositiveOutOfOrder { rule, literal } => (6, rule, literal),
            CheckFault::NegativeOutOfOrder { rule, literal } => (7, rule, literal),
        };
        Refusal {
            layer: Layer::Checking,
            number,
            values: Values::RuleLiteral(rule, literal),
        }
    }
}

impl MakeFault {
    fn refusal(&self) -> Refusal
        ensures { result ≡ make_refusal self.now }
    {
        let (number, values) = match *self {
            MakeFault::SlotMissing { pattern, literal } => (
                4,
                Values::RuleLiteral(pattern, literal),
            ),
            MakeFault::RuleMissing { rule } => (4, Values::RuleLiteral(rule, 0)),
            MakeFault::SheetTooShort { needed } => (17, Values::One(needed)),
        };
        Refusal {
            layer: Layer::Checking,
            number,
            values,
        }
    }
}

impl Fault {
    // The refusal as it is told.
    pub fn refusal(&self) -> Refusal
        ensures { result ≡ refusal_of self.now }
    {
        match self {
            Fault::Reading(read) => read.refusal(),
            Fault::Checking(check) => check.refusal(),
            Fault::Making(make) => make.refusal(),
        }
    }
}

impl fmt::Display for Layer {
    fn fmt<W: fmt::Write>(&self, f: &mut fmt::Formatter<W>) -> fmt::Result {
        match self {
            Layer::Reading => write!(f, "reading"),
            Layer::Checking => write!(f, "checking"),
            Layer::Running => write!(f, "running"),
        }
    }
}

impl fmt::Display for Refusal {
    fn fmt<W: fmt::Write>(&self, f: &mut fmt::Formatter<W>) -> fmt::Result {
        let layer = self.layer;
        let number = self.number;
        match self.values {
            Values::One(value) => write!(f, "refusal {number} ({layer}): {value}"),
            Values::RuleLiteral(rule, literal) => {
                write!(
                    f,
                    "refusal {number} ({layer}) at rule {rule}, literal {literal}"
                )
            }
        }
    }
}
