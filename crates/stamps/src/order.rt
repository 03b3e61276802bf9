// The two questions that are put to a stamp order, and the laws that every order keeps.
ghost use Rattle.std.specs.Prelude.{◌≡◌};
ghost use Rattle.stamps.specs.Orders.{IsLawful, Tests};

// A kind of stamp. Its meaning is two tests; each answer equals its test.
// Two stamps are level when each is not after the other, and unordered when neither is.
pub trait Order: Copy {
    // Whether the first stamp is before the second, and whether it is not after it.
    ghost tests: { Tests Self };

    fn before(&self, other: &Self) -> bool
        ensures { result ≡ tests.before self.now other.now };

    fn not_after(&self, other: &Self) -> bool
        ensures { result ≡ tests.not_after self.now other.now };

    ghost lawful: { IsLawful tests };
}
