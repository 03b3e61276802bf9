// The rows of a flat book's tables.
ghost use Rattle.std.specs.Prelude.{◌≡◌, ◌≤◌, ◌↔◌, length, IsOk, IfOk};
ghost use Rattle.books.specs.Meaning.{of_sign};
ghost use Rattle.makes.specs.Bodies.{body_items};
ghost use Rattle.makes.specs.Flats.{rule_of, rule_by};

use crate::body::{Body, TooLong};
use books::book::Sign;

// Whether it is a reading is a yes or no, as the question about it is.
#[derive(Clone, Copy, Debug)]
pub struct AtomRow<S> {
    pub stamp: S,
    pub reading: bool,
}

#[derive(Clone, Copy, Debug)]
pub struct RuleRow {
    pub head: usize,
    pub positives: Body,
    pub negatives: Body,
}

impl RuleRow {
    // A rule of these atoms, if neither list has more than six.
    pub fn of(head: usize, positives: &[usize], negatives: &[usize]) -> Result<RuleRow, TooLong>
        ensures fits { IsOk result ↔ (length positives.now ≤ 6) × (length negatives.now ≤ 6) }
        ensures rule { IfOk result (λ row. rule_of row ≡ rule_by head positives.now negatives.now) }
    {
        Ok(RuleRow {
            head,
            positives: Body::of(positives)?,
            negatives: Body::of(negatives)?,
        })
    }

    // The list of that sign.
    pub fn body(&self, sign: Sign) -> &Body
        ensures { body_items result.now ≡ of_sign sign (rule_of self.now) }
    {
        match sign {
            Sign::Positive => &self.positives,
            Sign::Negative => &self.negatives,
        }
    }
}
