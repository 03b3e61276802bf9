// Numbers in base ten.
ghost use Rattle.std.specs.Prelude.{◌≡◌, ◌<◌, ◌≤◌, length, IfSome, IfOk, OnSome};
ghost use Rattle.text.specs.Numbers.{digit_at, digits_from, number_at};
ghost use Rattle.text.specs.Cursors.{Took};

use crate::cursor::Cursor;
use books::fault::ReadFault;

// The largest number of a text, but for aisles. What is read is cast where it is used:
// the limit is proved, so a conversion that may fail would have nothing to refuse.
pub const MAX_NUMBER: u64 = 4_294_967_295;

// The digits that a number may have.
const MAX_DIGITS: usize = 10;

impl Cursor<'_> {
    // The digit at the place, if one stands there.
    fn digit(&self) -> Option<u8>
        ensures value { result ≡ digit_at self.now.text.now self.now.at }
        ensures small { IfSome result (λ d. d < 10) }
        ensures inside { OnSome result (self.now.at < length self.now.text.now) }
    {
        match self.text.get(self.at) {
            Some(byte) if byte.is_ascii_digit() => Some(*byte - b'0'),
            _ => None,
        }
    }

    // Passes over the first ten digits at most, and answers their number.
    fn digits(&mut self) -> u64
        ensures digits { (result, self.new.at) ≡ digits_from self.old.text.now self.old.at 10 }
        ensures same { self.new.text.now ≡ self.old.text.now }
    {
        let start = self.at;
        let mut value = 0;
        while let Some(digit) = self.digit() {
            if self.at - start == MAX_DIGITS {
                break;
            }
            value = value * 10 + u64::from(digit);
            self.at += 1;
        }
        value
    }

    // The number at the place, which is the whole run of digits there.
    #[tactic(auto, unfolding(crate::specs::Numbers::number_at))]
    pub(crate) fn number(&mut self, limit: u64) -> Result<u64, ReadFault>
        ensures value { Took result self.old self.new (number_at self.old.text.now self.old.at limit) }
        ensures within { IfOk result (λ n. n ≤ limit) }
    {
        let place = self.at;
        let value = self.digits();
        if self.at == place || self.digit().is_some() {
            return Err(ReadFault::Byte { place: self.at });
        }
        if value > limit {
            return Err(ReadFault::Number { place });
        }
        Ok(value)
    }
}
