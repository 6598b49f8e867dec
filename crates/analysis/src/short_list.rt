//! Lists of a few items.
ghost use Rattle.std.specs.Prelude.{◌≡◌, ◌<◌, ◌≤◌, length, MatchOption, MatchResult};
ghost use Rattle.analysis.specs.ShortList.{no_items, with_item, emptied};

use std::marker::Model;

// Stays: an array with a length, since the kit's `ArrayVec` is not `Copy`, as the calls of a script and what they hold are (fixed memory).
/// A list of at most `N` items, which lie in the value itself.
#[derive(Clone, Copy)]
pub struct ShortList<T, const N: usize> {
    places: [T; N],
    len: usize,
}

impl<T, const N: usize> Model for ShortList<T, N> {
    ghost use Rattle.std.specs.Prelude.{◌≡◌, ◌≤◌, ◌++◌, length, take, drop};
    ghost use Rattle.std.proofs.Common.{take-append-drop, length-take-le};
    ghost use Rattle.analysis.specs.ShortList.{ShortList as Items, within_places};

    ghost Value = { Items T };

    ghost view = { λ s. record { items = take s.len s.places; spare = drop s.len s.places } };

    ghost invariant = { λ s. (s.len ≤ N) × (length s.places ≡ N) };

    ghost inverse = { λ s. record { places = s.items ++ s.spare; len = length s.items } };

    ghost inverse_ok = { λ s h i. record {
      places = take-append-drop s.len s.places i;
      len = length-take-le s.len s.places (within_places s.len _ _ h.0 h.1) i;
    } };
}

/// The list is full.
#[derive(Clone, Copy, Debug, PartialEq, Eq)]
pub struct Full;

impl<T: Copy, const N: usize> ShortList<T, N> {
    /// A list of no item, whose places hold the blank.
    pub fn new(blank: T) -> ShortList<T, N>
        ensures { result ≡ no_items N blank }
    {
        ShortList {
            places: [blank; N],
            len: 0,
        }
    }

    /// Adds an item at the end, where there is room.
    pub fn push(&mut self, item: T) -> Result<(), Full>
        ensures { MatchResult result (λ _. (length self.old.items < N) × (self.new ≡ with_item self.old item)) (λ _. (N ≤ length self.old.items) × (self.new ≡ self.old)) }
    {
        if self.len == N {
            return Err(Full);
        }
        self.places[self.len] = item;
        self.len += 1;
        Ok(())
    }

    /// Takes all items out, at the same cost however many there are.
    pub fn clear(&mut self)
        ensures { self.new ≡ emptied self.old }
    {
        self.len = 0;
    }

    /// The list of these items, whose other places hold the blank, where there is room for all.
    pub fn from_slice(items: &[T], blank: T) -> Option<ShortList<T, N>>
        ensures { MatchOption result (N < length items.now) (λ s. (length items.now ≤ N) × (s.items ≡ items.now)) }
    {
        if items.len() > N {
            return None;
        }
        let len = items.len();
        let mut places = [blank; N];
        places[..len].copy_from_slice(items);
        Some(ShortList { places, len })
    }

    /// The items.
    pub fn as_slice(&self) -> &[T]
        ensures is { result.now ≡ self.now.items }
        ensures few { length result.now ≤ N }
    {
        &self.places[..self.len]
    }
}
