// What a body holds, by the list that it stands for.
ghost use Rattle.std.specs.Prelude.{◌≡◌, length};
ghost use Rattle.std.specs.List.{slice_get};
ghost use Rattle.makes.specs.Bodies.{body_items};

use crate::body::Body;

impl<T: Copy> Body<T> {
    // How many items there are.
    pub fn count(&self) -> usize
        ensures { result ≡ length (body_items self.now) }
    {
        self.len
    }

    // The items in order.
    pub fn as_slice(&self) -> &[T]
        ensures { result.now ≡ body_items self.now }
    {
        &self.items[..self.len]
    }

    // Item `i`; none beyond the length.
    pub fn get(&self, i: usize) -> Option<T>
        ensures { result ≡ slice_get (body_items self.now) i }
    {
        self.as_slice().get(i).copied()
    }
}
