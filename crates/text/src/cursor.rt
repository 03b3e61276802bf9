// Reading a text from a place on.
ghost use Rattle.std.specs.Prelude.{◌≡◌};
ghost use Rattle.text.specs.Bytes.{pass_at};
ghost use Rattle.text.specs.Lists.{open_at, onward_at};
ghost use Rattle.text.specs.Words.{pass_word, agrees_to};

use books::fault::ReadFault;

// A place in a text, which what is read moves on. After a fault the methods here say nothing of the place; the text is the same.
#[derive(Clone, Copy, Debug)]
pub struct Cursor<'a> {
    pub text: &'a [u8],
    pub at: usize,
}

impl Cursor<'_> {
    ghost use Rattle.text.specs.Cursors.{Passed, Took};

    // Passes over one byte that must stand at the place.
    pub(crate) fn pass(&mut self, byte: u8) -> Result<(), ReadFault>
        ensures { Passed result self.old self.new (pass_at byte self.old.text.now self.old.at) }
    {
        match self.text.get(self.at) {
            Some(found) if *found == byte => {
                self.at += 1;
                Ok(())
            }
            _ => Err(ReadFault::Byte { place: self.at }),
        }
    }

    // Passes over the bytes of a word.
    pub(crate) fn word(&mut self, word: &[u8]) -> Result<(), ReadFault>
        ensures { Passed result self.old self.new (pass_word word.now self.old.text.now self.old.at) }
    {
        for byte in word {
            self.pass(*byte)?;
        }
        Ok(())
    }

    // The place up to which the text agrees with a word.
    // A loop: a chain that counts equal bytes says nothing of the place in the words of `agrees_to`.
    pub(crate) fn agreed(&self, word: &[u8]) -> usize
        ensures { result ≡ agrees_to word.now self.now.text.now self.now.at }
    {
        let mut next = self.at;
        for byte in word {
            match self.text.get(next) {
                Some(found) if *found == *byte => next += 1,
                _ => return next,
            }
        }
        next
    }

    // Opens a list, and says whether a number follows.
    #[tactic(auto, unfolding(crate::specs::Lists::open_at))]
    pub(crate) fn open_list(&mut self) -> Result<bool, ReadFault>
        ensures { Took result self.old self.new (open_at self.old.text.now self.old.at) }
    {
        self.pass(b'(')?;
        match self.text.get(self.at) {
            Some(b')') => {
                self.at += 1;
                Ok(false)
            }
            _ => Ok(true),
        }
    }

    // After a number of a list, says whether another follows.
    #[tactic(auto, unfolding(crate::specs::Lists::onward_at))]
    pub(crate) fn list_onward(&mut self) -> Result<bool, ReadFault>
        ensures { Took result self.old self.new (onward_at self.old.text.now self.old.at) }
    {
        let more = match self.text.get(self.at) {
            Some(b' ') => true,
            Some(b')') => false,
            _ => return Err(ReadFault::Byte { place: self.at }),
        };
        self.at += 1;
        Ok(more)
    }
}
