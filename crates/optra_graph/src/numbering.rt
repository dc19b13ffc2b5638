//! The nodes of the places that are kept.
ghost use Rattle.std.specs.Prelude.{◌≡◌, ℕ, ◌+◌, ◌-◌, ◌<◌, ◌^◌, ◌≤◌, length, OnOk};
ghost use Rattle.optra_graph.specs.Nodes.{AreNumbers};
ghost use Rattle.optra_graph.specs.StepTables.{AreListed};

use optra_network::NoMemory;

/// For each place that is kept one more than the number of kept places before it, and so for the end. Node 0 is the start.
/// Only the listed places are looked at, of which there are far fewer than places: those that are kept are among them.
/// The numbers stand by place, and what the list had for other places stays there.
pub fn number(flags: &[bool], places: &[u32], numbers: &mut Vec<u32>) -> Result<(), NoMemory>
    requires few { length flags.now < 2 ^ 32 - 1 }
    requires some { 0 < length flags.now }
    requires listed { AreListed flags.now (length flags.now - 1) places.now }
    ensures { OnOk result (AreNumbers flags.now numbers.new.items) }
{
    if numbers.len() < flags.len() {
        numbers.resize(flags.len(), 0)?;
    }
    fill(numbers, flags, places);
    Ok(())
}

/// Puts the numbers into an array that has room for them.
fn fill(numbers: &mut [u32], flags: &[bool], places: &[u32])
    requires few { length flags.now < 2 ^ 32 - 1 }
    requires some { 0 < length flags.now }
    requires listed { AreListed flags.now (length flags.now - 1) places.now }
    requires room { length flags.now ≤ length numbers.old }
    ensures { AreNumbers flags.now numbers.new }
{
    let mut next = 1;
    for row in 0..places.len() {
        let place = places[row] as usize;
        numbers[place] = next;
        if flags[place] {
            next += 1;
        }
    }
    numbers[flags.len() - 1] = next;
}
