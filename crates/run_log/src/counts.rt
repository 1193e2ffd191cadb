//! How many entries each processor has.

ghost use Rattle.std.specs.Prelude.{◌≡◌, List, ℕ, All, ◌<◌, ◌++◌, length, IfOk};
ghost use Rattle.run_log.specs.Counts.{AreCountsOf};

use board_base::NoMemory;
use std::alloc::Global;

/// How many entries each of `processors` processors has, of entries whose processors are given.
pub(crate) fn counts_of(
    alloc: Global,
    processors: usize,
    order: &[u8],
) -> Result<Vec<usize>, NoMemory>
    requires callers { All (λ actor. actor < processors) order.now }
    ensures counts { IfOk result (λ counts. AreCountsOf counts.items order.now) }
    ensures each { IfOk result (λ counts. length counts.items ≡ processors) }
{
    let mut counts = vec![in alloc; 0; processors]?;
    for actor in order {
        counts[usize::from(*actor)] += 1;
    }
    Ok(counts)
}
