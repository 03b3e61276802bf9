// A sheet, and the bytes and numbers that are written on it.
ghost use Rattle.std.specs.Prelude.{◌+◌, ◌^◌, ◌<◌, ◌≤◌, if◌then◌else◌, [], ◌++◌, length, decimal};

// A sheet, and the place that is written next. What falls beyond the sheet's end is only counted.
// No invariant bounds the place: each writing moves it, so each method's clauses do, and the count that `write` answers is exact.
// What is written and how far the place moves are two clauses: the outermost call needs the first alone.
#[derive(Drop)]
pub struct Sheet<'a> {
    pub bytes: &'a mut [u8],
    pub at: usize,
}

impl Sheet<'_> {
    ghost use Rattle.text.specs.Spelt.{space};
    ghost use Rattle.text.specs.Written.{Writes};

    // Writes the bytes.
    pub fn put(&mut self, bytes: &[u8])
        requires { self.old.at + length bytes.now < 2 ^ 63 }
        ensures { Writes self.old bytes.now self.new }
    {
        for byte in bytes {
            // Not `get_mut` (tried): a proof has no lasting name for what the lent byte holds in the end.
            // Not `copy_from_slice` of what fits: the place counts on beyond the end, so two cases would be told apart.
            if self.at < self.bytes.len() {
                self.bytes[self.at] = *byte;
            }
            self.at += 1;
        }
    }

    // Writes a number in base ten.
    pub fn number(&mut self, number: usize)
        requires { self.old.at < 2 ^ 62 }
        ensures wrote { Writes self.old (decimal number) self.new }
        ensures short { self.new.at ≤ self.old.at + 20 }
    {
        // A digit is cast to a byte, which holds it.
        if number < 10 {
            self.put(&[b'0' + number as u8]);
            return;
        }
        self.number(number / 10);
        self.put(&[b'0' + (number % 10) as u8]);
    }

    // Writes a number of a list, after a space unless it is the first.
    pub fn list_number(&mut self, first: bool, number: usize)
        requires { self.old.at < 2 ^ 61 }
        ensures wrote { Writes self.old ((if first then [] else space) ++ decimal number) self.new }
        ensures short { self.new.at ≤ self.old.at + 21 }
    {
        if !first {
            self.put(b" ");
        }
        self.number(number);
    }
}
