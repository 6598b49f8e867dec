ghost use Rattle.std.specs.Prelude.{◌≡◌, ◌^◌, ◌<◌, ⊤};

use super::summing::{Addition, Maximum};
use std::alloc::AllocError;
use std::marker::PhantomData;

/// A whole number whose sums and products stop at the largest `u64`; `S` says what a sum is.
pub struct Stopped<S> {
    pub(crate) value: u64,
    pub(crate) summing: PhantomData<S>,
    ghost fits: { value < 2 ^ 64 },
}

// Stays: tried, and the proof did not close: `Clone` is not derived for a struct with a parameter and a ghost field.
impl<S> Clone for Stopped<S> {
    ghost is_clone = { λ s r. r ≡ s };

    ghost is_infallible = { λ _. ⊤ };

    fn clone(&self) -> Result<Stopped<S>, AllocError> {
        Ok(*self)
    }
}

impl<S> Copy for Stopped<S> {}

/// A number of which sums add.
pub type Count = Stopped<Addition>;

/// The largest of the weights that were summed.
pub type Heaviest = Stopped<Maximum>;

impl<S> Stopped<S> {
    pub fn new(value: u64) -> Stopped<S>
        ensures is { result.value ≡ value }
        ensures one { (x : Stopped S) → x.value ≡ value → result ≡ x }
    {
        Stopped {
            value,
            summing: PhantomData,
        }
    }

    pub fn value(self) -> u64
        ensures { result ≡ self.value }
    {
        self.value
    }
}
