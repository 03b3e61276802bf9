// The worked cases that are proved of the definitions.
ghost use Rattle.samples.specs.Cases.{Cases};

pub fn cases_hold()
    ensures { Cases }
{}
