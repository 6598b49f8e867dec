//! Time tables: what makes one, its totals and its tails.
ghost use Rattle.std.specs.Prelude.{◌≡◌, ◌≤◌, min, true, false, MatchOption};
ghost use Rattle.simulator.specs.Tables.{no_work, Holds, total, fits, rising, lawful};

/// A running time and its weight.
#[derive(Clone, Copy)]
pub struct SimPair {
    pub time: u32,
    pub weight: u32,
}

/// A time table: the first `len` of its pairs.
// Stays: a table, a task and a book are `Copy` and lie in fixed memory; the kit's ArrayVec isn't `Copy`, so callers would be promised less.
#[derive(Clone, Copy)]
pub struct SimTable {
    pub pairs: [SimPair; 16],
    pub len: usize,
}

// The sum of the weights, at most 2^32 − 1.
fn total_of(pairs: &[SimPair]) -> u32
    ensures { result ≡ min (total pairs.now) 4294967295 }
{
    pairs
        .iter()
        .fold(0, |total, pair| total.saturating_add(pair.weight))
}

// Whether the time is `least` to 255, and the weight 1 to 65,535.
fn fits(least: u32, pair: &SimPair) -> bool
    ensures answer { result ≡ fits least pair.now }
    ensures bound { result ≡ true → pair.now.time ≤ 255 }
{
    (least..=255).contains(&pair.time) && (1..=65_535).contains(&pair.weight)
}

// Whether every pair fits, and each time is above the one before it.
fn rising(pairs: &[SimPair]) -> bool
    ensures { result ≡ rising 0 pairs.now }
{
    let mut least = 0u32;
    for pair in pairs {
        if !fits(least, pair) {
            return false;
        }
        least = pair.time + 1;
    }
    true
}

// Whether the pairs make a time table.
fn lawful(pairs: &[SimPair]) -> bool
    ensures { result ≡ lawful pairs.now }
{
    !pairs.is_empty() && pairs.len() <= 16 && rising(pairs) && total_of(pairs) <= 65_535
}

impl SimTable {
    /// The table with the one pair (time 0, weight 1): no work.
    pub fn no_work() -> SimTable
        ensures { result ≡ no_work }
    {
        SimTable {
            pairs: [SimPair { time: 0, weight: 1 }; 16],
            len: 1,
        }
    }

    // The table of these pairs, or `None` if they make none.
    pub(crate) fn new(pairs: &[SimPair]) -> Option<SimTable>
        ensures { MatchOption result (lawful pairs.now ≡ false) (λ t. (lawful pairs.now ≡ true) × Holds t pairs.now) }
    {
        if !lawful(pairs) {
            return None;
        }
        let mut places = [SimPair { time: 0, weight: 1 }; 16];
        let len = pairs.len();
        places[0..len].copy_from_slice(pairs);
        Some(SimTable { pairs: places, len })
    }

    // The pairs of the table.
    pub(crate) fn pairs(&self) -> &[SimPair] {
        &self.pairs[..self.len.min(16)]
    }

    // The sum of the weights.
    pub(crate) fn total(&self) -> u32 {
        total_of(self.pairs())
    }

    // The largest weight.
    pub(crate) fn largest(&self) -> u32 {
        self.pairs()
            .iter()
            .map(|pair| pair.weight)
            .max()
            .unwrap_or(0)
    }

    // The sum of the weights of the times from `time` on.
    pub(crate) fn tail(&self, time: u32) -> u32 {
        self.pairs()
            .iter()
            .filter(|pair| pair.time >= time)
            .map(|pair| pair.weight)
            .fold(0, u32::saturating_add)
    }
}
