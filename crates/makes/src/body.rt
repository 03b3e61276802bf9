// A row's list of at most six things: atoms, or steps of a pattern.
ghost use Rattle.std.specs.Prelude.{◌≡◌, ◌≤◌, length};

use std::alloc::AllocError;

mod filled;
mod listed;

// The list is longer than six.
#[derive(Clone, Copy, PartialEq, Eq, Debug)]
pub struct TooLong;

// The first `len` of the array: a list that grows would allocate, and rows are copied in lent tables.
// `within` follows from the array's type, yet a lemma over a body does not see that type.
#[derive(Debug)]
pub struct Body<T = usize> {
    items: [T; 6],
    len: usize,
    ghost few: { len ≤ 6 },
    ghost within: { len ≤ length items },
}

// By hand: `Clone` is not derived for this struct, which has ghost fields (tried).
impl<T: Copy> Clone for Body<T> {
    ghost is_clone = { λ x y. y ≡ x };

    ghost is_infallible = { λ _. Unit {0} };

    fn clone(&self) -> Result<Body<T>, AllocError> {
        Ok(*self)
    }
}

impl<T: Copy> Copy for Body<T> {}
