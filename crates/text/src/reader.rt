// Where a reader stands in a text.

// Before the order, among atoms, among rules, or past the end.
#[derive(Clone, Copy)]
pub enum Stage {
    Start,
    Atoms,
    Rules,
    End,
}

impl Stage {
    ghost use Rattle.std.specs.Prelude.{◌≡◌};
    ghost use Rattle.text.specs.Reads.{is_end};

    // Past the end form.
    pub(crate) fn is_end(self) -> bool
        ensures { result ≡ is_end self }
    {
        matches!(self, Stage::End)
    }
}

// The stage, the place of the next form, and the atoms and rules read so far.
#[derive(Clone, Copy)]
pub struct Reader {
    pub stage: Stage,
    pub next: usize,
    pub atoms: usize,
    pub rules: usize,
}

impl Reader {
    ghost use Rattle.std.specs.Prelude.{◌≡◌};
    ghost use Rattle.text.specs.Reads.{finished};

    // Past the end form, with no byte left.
    pub(crate) fn is_finished(&self, text: &[u8]) -> bool
        ensures { result ≡ finished text.now self.now }
    {
        self.stage.is_end() && self.next == text.len()
    }
}
