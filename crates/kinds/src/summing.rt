//! How the kinds of stopped numbers sum.
ghost use Rattle.std.specs.Prelude.{◌≡◌, ℕ, ◌+◌, max};
ghost use Rattle.kinds.specs.Stopped.{stop};
ghost use Rattle.kinds.specs.Summing.{SumLaws, addition_laws, maximum_laws};

/// A sum of whole numbers, with the laws that products ask of it.
pub trait Summing: Copy {
    /// The sum, before it stops.
    ghost plus: { ℕ → ℕ → ℕ };

    ghost laws: { SumLaws plus };

    /// The sum, stopped at the largest `u64`.
    fn plus(one: u64, other: u64) -> u64
        ensures { result ≡ stop (plus one other) };
}

/// Numbers are added.
#[derive(Clone, Copy)]
pub struct Addition;

impl Summing for Addition {
    ghost plus = { λ a b. a + b };

    ghost laws = { addition_laws };

    fn plus(one: u64, other: u64) -> u64 {
        one.saturating_add(other)
    }
}

/// The larger number is kept.
#[derive(Clone, Copy)]
pub struct Maximum;

impl Summing for Maximum {
    ghost plus = { λ a b. max a b };

    ghost laws = { maximum_laws };

    fn plus(one: u64, other: u64) -> u64 {
        one.max(other)
    }
}
