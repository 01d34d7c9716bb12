//! A glance at the console and at the recorded deliveries.

ghost use Rattle.std.specs.Prelude.{◌≡◌, ◌≤◌};
ghost use Rattle.mx_look.specs.Kept.{last_byte, kept_count, latest, latest_deliveries};

use mx_proc::{Console, Delivery, KEPT_BYTES, KEPT_DELIVERIES, Table};

/// The byte that was written to the console last.
#[tactic(auto, unfolding(crate::specs::Kept::last_byte))]
pub(crate) fn last_byte(console: &Console) -> Option<u8>
    ensures { result ≡ last_byte console.now }
{
    match console.count() {
        0 => None,
        count => console.get(count.min(KEPT_BYTES as u32) as usize - 1),
    }
}

/// How many deliveries are recorded: a table has at most 1,024.
fn kept_count(table: &Table) -> usize
    ensures count { result ≡ kept_count table.now.deliveries }
    ensures few { result ≤ 1024 }
{
    // By halving, because a table has no count of its recorded deliveries.
    let mut low = 0;
    let mut high = KEPT_DELIVERIES;
    while low < high {
        let middle = low + (high - low) / 2;
        match table.delivery(middle) {
            Some(_) => low = middle + 1,
            None => high = middle,
        }
    }
    low
}

/// Of `count` recorded deliveries the one at a place, counted back from the latest, which is at 0,
/// if it is among the latest `most`.
#[tactic(auto, unfolding(crate::specs::Kept::latest))]
fn latest(table: &Table, count: usize, most: usize, back: usize) -> Option<Delivery>
    ensures { result ≡ latest table.now.deliveries count most back }
{
    if back < most && back < count {
        table.delivery(count - 1 - back)
    } else {
        None
    }
}

/// Looks at the recorded deliveries, the latest first, and of these at most `most`, and at most 32.
pub(crate) fn look_at_deliveries(
    deliveries: &mut [Option<Delivery>; 32],
    table: &Table,
    most: usize,
)
    ensures { deliveries.new ≡ latest_deliveries table.now.deliveries most }
{
    let count = kept_count(table);
    for back in 0..32usize {
        deliveries[back] = latest(table, count, most, back);
    }
}
