//! How many stays last through each minute of the two days.

ghost use Rattle.std.specs.Prelude.{◌≤◌, length, IfOk};
ghost use Rattle.optra_audit.specs.Stays.{AreCounts, HasRoom, IsOneMore};

use crate::stays::Stay;
use optra_network::NoMemory;
use std::alloc::Global;

/// The minutes of the two days.
pub const MINUTES: u32 = 2_880;

/// For each minute of the two days, how many of the stays last through it. The work is that of the minutes of the stays.
pub fn counts_of(alloc: Global, stays: &[Stay]) -> Result<Vec<u32>, NoMemory>
    requires { length stays.now ≤ 8000000 }
    ensures { IfOk result (λ counts. AreCounts stays.now counts.items) }
{
    let mut counts = vec![in alloc; 0; MINUTES as usize]?;
    'stays: for stay in stays {
        add_stay(&mut counts, *stay);
    }
    Ok(counts)
}

/// Counts one more in each minute through which a stay lasts.
fn add_stay(counts: &mut [u32], stay: Stay)
    requires { HasRoom counts.old }
    ensures { IsOneMore stay counts.old counts.new }
{
    let until = stay.until.min(MINUTES);
    let from = stay.from.min(until);
    'minutes: for minute in from..until {
        counts[minute as usize] += 1;
    }
}
