//! Which states come into walks: those that are reached from a start and lead on to the end.
ghost use Rattle.std.specs.Prelude.{◌≡◌, ℕ, ◌+◌, ◌-◌, ◌<◌, ◌≤◌, length, min, OnOk, All, count_by, nat_eq, slice_set, false, if◌then◌else◌};
ghost use Rattle.optra_graph.specs.Flags.{is_set, IsSet, IsReached, IsKept, Marks, AreStartsSet};
ghost use Rattle.optra_graph.specs.Places.{IsPlaced, IsLayout, deadline_of, place_of, places_of};
ghost use Rattle.optra_bid.specs.Specs.{IsWindow};
ghost use Rattle.optra_graph.specs.Settings.{IsSetting};
ghost use Rattle.optra_graph.specs.StepTables.{AreStepsTo};
ghost use Rattle.optra_walk.specs.Moves.{start_state};

use crate::passing::next_set;
use crate::states::Layout;
use crate::step_table::StepTable;
use crate::stepping::{Step, fill_steps};
use crate::strip::Strip;
use optra_bid::Bid;
use optra_network::{Minute, Network, NoMemory};
use optra_walk::State;

/// The first minute after those at which walks may begin.
pub fn starts_end(bid: &Bid, layout: Layout<'_>) -> Minute
    requires depart { IsWindow bid.now.path.depart }
    requires origin { bid.now.path.origin.0 < length layout.columns.now.deadlines.items }
    requires stopping { bid.now.path.origin.0 < length layout.columns.now.stopping.items }
    ensures { result ≡ min (bid.now.path.depart.to + 1) (deadline_of layout.entry 0
        bid.now.path.origin) }
{
    (bid.path.depart.to + 1).min(layout.deadline(0, bid.path.origin))
}

/// The state in which a walk begins that departs then.
pub fn make_start(bid: &Bid, minute: Minute) -> State
    ensures { result ≡ start_state bid.now.path minute }
{
    State {
        station: bid.path.origin,
        minute,
        halted: true,
        done: 0,
    }
}

/// A flag for each place and for the end: whether steps lead there from a start. One pass, from early to late, which
/// puts the steps of the places into the table. The flags, the table and the list of steps may hold anything before.
pub fn reach(
    net: &Network,
    bid: &Bid,
    layout: Layout<'_>,
    table: &mut StepTable,
    flags: &mut Vec<bool>,
    steps: &mut Vec<Step>,
) -> Result<(), NoMemory>
    requires setting { IsSetting net.now bid.now.path layout }
    ensures flags { OnOk result (IsReached net.now bid.now.path layout.entry flags.new.items) }
    ensures steps { OnOk result (AreStepsTo net.now bid.now.path layout.entry
        (places_of layout.entry) flags.new.items table.new) }
{
    let end = layout.places();
    table.clear()?;
    flags.clear();
    flags.resize(end as usize + 1, false)?;
    mark_starts(net, bid, layout, flags);
    let mut strip = Strip::first(layout);
    let mut place = next_set(flags, 0, end);
    while place < end {
        strip = strip.at(layout, place);
        fill_steps(net, bid, layout, strip.state(layout, place), steps)?;
        mark(flags, steps);
        table.add(place, steps)?;
        place = next_set(flags, place + 1, end);
    }
    Ok(())
}

fn mark_starts(net: &Network, bid: &Bid, layout: Layout<'_>, flags: &mut Vec<bool>)
    requires setting { IsSetting net.now bid.now.path layout }
    requires len { length flags.old.items ≡ places_of layout + 1 }
    ensures { AreStartsSet bid.now.path layout.entry (layout.entry.first + layout.entry.minutes)
        flags.old.items flags.new.items }
{
    for minute in layout.first..starts_end(bid, layout) {
        let place = layout.place(make_start(bid, minute));
        flags[place as usize] = true;
    }
}

/// Sets the flags of the places that the steps lead to.
fn mark(flags: &mut Vec<bool>, steps: &[Step])
    requires { All (λ step. step.to < length flags.old.items) steps.now }
    ensures { Marks steps.now flags.old.items flags.new.items }
{
    for step in steps {
        flags[step.to as usize] = true;
    }
}

/// Clears the flags of the places from which the end is not reached, and counts the steps between those that
/// stay. One pass, from late to early.
///
/// No clause speaks of the count: it only says for how many arcs room is taken at first.
pub fn trim(
    net: &Network,
    bid: &Bid,
    layout: Layout<'_>,
    flags: &mut Vec<bool>,
    table: &StepTable,
) -> usize
    requires setting { IsSetting net.now bid.now.path layout }
    requires reached { IsReached net.now bid.now.path layout flags.old.items }
    requires steps { AreStepsTo net.now bid.now.path layout (places_of layout) flags.old.items
        table.now }
    ensures flags { IsKept net.now bid.now.path layout.entry flags.new.items }
    ensures steps { AreStepsTo net.now bid.now.path layout.entry (places_of layout.entry)
        flags.new.items table.now }
{
    let mut arcs: usize = 0;
    let mut left = table.rows();
    while left > 0 {
        left -= 1;
        arcs = arcs.saturating_add(settle(flags, table.place(left), table.of(left)));
    }
    arcs
}

/// Clears the flag of the place where none of its steps leads to a place whose flag is set, and counts those that do.
fn settle(flags: &mut Vec<bool>, place: u32, steps: &[Step]) -> usize
    requires place { place < length flags.old.items }
    requires steps { All (λ step. step.to < length flags.old.items) steps.now }
    ensures count { result ≡ count_by (λ step. is_set flags.old.items step.to) steps.now }
    ensures flags { flags.new.items ≡ (if nat_eq result 0 then slice_set flags.old.items place false
        else flags.old.items) }
{
    let on = count_on(flags, steps);
    if on == 0 {
        flags[place as usize] = false;
    }
    on
}

/// How many of the steps lead to a place whose flag is set.
fn count_on(flags: &[bool], steps: &[Step]) -> usize
    requires { All (λ step. step.to < length flags.now) steps.now }
    ensures { result ≡ count_by (λ step. is_set flags.now step.to) steps.now }
{
    let mut count = 0;
    for step in steps {
        if flags[step.to as usize] {
            count += 1;
        }
    }
    count
}
