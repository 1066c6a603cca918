// A short list that is kept in place, in a lent area or in a field: nothing is allocated.
ghost use Rattle.std.specs.Prelude.{◌≡◌, ◌<◌, ◌≤◌, [], ◌∷◌, ◌++◌, length, take, MatchOption, slice_get, ⊤};
ghost use Rattle.std.specs.Option.{option_map};

use std::alloc::AllocError;

// At most N elements, in their order.
#[derive(Debug)]
pub struct Few<T, const N: usize> {
    at: [T; N],
    len: usize,
    ghost within: { len ≤ N },
}

impl<T: Copy, const N: usize> Copy for Few<T, N> {}

impl<T: Copy, const N: usize> Clone for Few<T, N> {
    ghost is_clone = { λ x y. y ≡ x };

    ghost is_infallible = { λ _. ⊤ };

    fn clone(&self) -> Result<Few<T, N>, AllocError> {
        Ok(*self)
    }
}

impl<T: Copy, const N: usize> Few<T, N> {
    ghost use Rattle.relation.specs.Few.{items};

    // No element yet; `blank` fills the unused room.
    pub fn new(blank: T) -> Few<T, N>
        ensures { items result ≡ [] }
    {
        Few {
            at: [blank; N],
            len: 0,
        }
    }

    // The elements of a slice, if they are not too many; `blank` fills the unused room.
    pub fn from_slice(xs: &[T], blank: T) -> Option<Few<T, N>>
        ensures { MatchOption result (N < length xs.now) (λ f. (length xs.now ≤ N) × (items f ≡ xs.now)) }
    {
        if xs.len() > N {
            return None;
        }
        let mut at = [blank; N];
        at[..xs.len()].copy_from_slice(xs);
        Some(Few { at, len: xs.len() })
    }

    // One more element, where there is room for it.
    pub fn push(&mut self, x: T)
        requires { length (items self.old) < N }
        ensures { items self.new ≡ items self.old ++ x ∷ [] }
    {
        self.at[self.len] = x;
        self.len += 1;
    }

    pub fn as_slice(&self) -> &[T]
        ensures items { result.now ≡ items self.now }
        ensures few { length result.now ≤ N }
    {
        &self.at[..self.len]
    }

    // The element at i, which counts from 0.
    pub fn get(&self, i: usize) -> Option<T>
        ensures { result ≡ slice_get (items self.now) i }
    {
        self.as_slice().get(i).copied()
    }
}
