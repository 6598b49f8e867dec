ghost use Rattle.kinds.specs.Possibles.{possible_ops, possible_least, possible_laws};

use super::possible::Possible;
use theory::Weight;

impl Weight for Possible {
    ghost ops = { possible_ops };

    ghost least = { possible_least };

    ghost laws = { possible_laws };

    fn nought() -> Possible {
        Self::No
    }

    fn unit() -> Possible {
        Self::Yes
    }

    fn sum(self, other: Possible) -> Possible {
        self.max(other)
    }

    fn product(self, other: Possible) -> Possible {
        self.min(other)
    }

    fn read(_weight: u32) -> Possible {
        Self::unit()
    }

    fn is_top(self) -> bool {
        false
    }
}
