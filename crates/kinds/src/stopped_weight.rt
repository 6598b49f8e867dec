ghost use Rattle.kinds.specs.StoppedWeight.{stopped_ops, stopped_least, stopped_laws};

use super::stopped::Stopped;
use super::summing::Summing;
use theory::Weight;

impl<S: Summing> Weight for Stopped<S> {
    ghost ops = { stopped_ops S.plus };

    ghost least = { stopped_least };

    ghost laws = { stopped_laws S.laws };

    fn nought() -> Stopped<S> {
        Stopped::new(0)
    }

    fn unit() -> Stopped<S> {
        Stopped::new(1)
    }

    fn sum(self, other: Stopped<S>) -> Stopped<S> {
        Stopped::new(S::plus(self.value, other.value))
    }

    fn product(self, other: Stopped<S>) -> Stopped<S> {
        Stopped::new(self.value.saturating_mul(other.value))
    }

    fn read(weight: u32) -> Stopped<S> {
        Stopped::new(u64::from(weight))
    }

    fn is_top(self) -> bool {
        self.value == u64::MAX
    }
}
