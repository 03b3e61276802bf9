// Filling a body.
ghost use Rattle.std.specs.Prelude.{◌≡◌, ◌≤◌, ◌<◌, ◌↔◌, [], ◌∷◌, ◌++◌, length, IsOk, IfOk, OnOk, OnErr};
ghost use Rattle.makes.specs.Bodies.{body_items};

use crate::body::{Body, TooLong};
use books::check::MAX_BODY;

impl<T: Copy + Default> Body<T> {
    // A body without items.
    pub fn empty() -> Body<T>
        ensures { body_items result ≡ [] }
    {
        Body {
            items: [T::default(); 6],
            len: 0,
        }
    }

    // A body of these items.
    pub(crate) fn with(items: &[T]) -> Body<T>
        requires { length items.now ≤ 6 }
        ensures { body_items result ≡ items.now }
    {
        // Not `collect`, which would allocate.
        let mut places = [T::default(); 6];
        places[..items.len()].copy_from_slice(items);
        Body {
            items: places,
            len: items.len(),
        }
    }

    // A body of these items, if there are at most six.
    pub fn of(items: &[T]) -> Result<Body<T>, TooLong>
        ensures fits { IsOk result ↔ (length items.now ≤ 6) }
        ensures items { IfOk result (λ body. body_items body ≡ items.now) }
    {
        if items.len() > MAX_BODY {
            return Err(TooLong);
        }
        Ok(Body::with(items))
    }
}

impl<T: Copy> Body<T> {
    // Appends the item; a full body refuses it, and stays as it was.
    pub fn push(&mut self, item: T) -> Result<(), TooLong>
        ensures room { IsOk result ↔ (length (body_items self.old) < 6) }
        ensures pushed { OnOk result (body_items self.new ≡ body_items self.old ++ (item ∷ [])) }
        ensures full { OnErr result (self.new ≡ self.old) }
    {
        if self.len == MAX_BODY {
            return Err(TooLong);
        }
        self.items[self.len] = item;
        self.len += 1;
        Ok(())
    }
}
