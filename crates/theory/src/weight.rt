ghost use Rattle.std.specs.Prelude.{◌≡◌, ℕ};
ghost use Rattle.theory.specs.Semiring.{Ops, Laws};

/// A weight kind: what a cell of a sheet holds, with a sum, a product and their laws.
pub trait Weight: Copy {
    /// What the functions below answer.
    ghost ops: { Ops Self };

    /// `least x y`: x is at least y.
    ghost least: { Self → Self → Type 0 };

    ghost laws: { Laws ops least };

    /// The neutral element of the sum.
    fn nought() -> Self
        ensures { result ≡ ops.nought };

    /// The neutral element of the product.
    fn unit() -> Self
        ensures { result ≡ ops.unit };

    fn sum(self, other: Self) -> Self
        ensures { result ≡ ops.sum self other };

    fn product(self, other: Self) -> Self
        ensures { result ≡ ops.product self other };

    /// What a weight of a table is in the kind.
    fn read(weight: u32) -> Self
        ensures { result ≡ ops.read weight };

    /// Whether the element is the kind's top.
    fn is_top(self) -> bool
        ensures { result ≡ ops.top self };
}
