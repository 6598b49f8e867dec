//! Whether an answer of the book is that of the simulator.
use book::Refusal;
use simulator::{SimRefusal, SimTotals};

/// Whether two answers are the same, or refusals of the same number.
pub(crate) fn same<T: PartialEq + Drop>(
    ours: Result<T, Refusal>,
    theirs: Result<T, SimRefusal>,
) -> bool {
    ours.map_err(|refusal| u32::from(refusal.number())) == theirs.map_err(SimRefusal::number)
}

/// Whether a rounded late weight is at least the exact share, and above it by less than one for each table; `None` where a
/// number passes 128 bits.
pub(crate) fn is_close(rounded: u64, totals: &SimTotals) -> Option<bool> {
    if totals.whole == u128::MAX {
        return None;
    }
    let product = totals.whole.checked_mul(rounded as u128)?;
    let low = totals.late.checked_mul(1_048_576)?;
    let high = low.checked_add(totals.whole.checked_mul(totals.tables as u128)?)?;
    Some(low <= product && product < high)
}
