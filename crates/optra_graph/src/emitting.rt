//! The arcs of a graph: first those of the starts, then those of the kept places, place by place.
ghost use Rattle.std.specs.Prelude.{◌≡◌, ℕ, ◌+◌, ◌-◌, ◌<◌, ◌≤◌, ◌^◌, [], ◌++◌, All, length, map, filter, OnOk};
ghost use Rattle.optra_walk.specs.Legs.{dwell_of};
ghost use Rattle.optra_graph.specs.Arcs.{arc_of, is_kept, leg_of_step, Starts, Emits};
ghost use Rattle.optra_graph.specs.Nodes.{node_of};
ghost use Rattle.optra_graph.specs.Places.{places_of};
ghost use Rattle.optra_graph.specs.Settings.{IsSetting};
ghost use Rattle.optra_graph.specs.StepTables.{AreStepsTo};

use crate::kept::Kept;
use crate::legs::Legs;
use crate::reaching::{make_start, starts_end};
use crate::states::Layout;
use crate::step_table::StepTable;
use crate::stepping::Step;
use optra_bid::Bid;
use optra_dag::Dag;
use optra_network::{Minute, Network, NoMemory};

/// Adds a start arc for each minute at which a walk begins.
pub fn add_starts(
    net: &Network,
    bid: &Bid,
    layout: Layout<'_>,
    kept: Kept<'_>,
    dag: &mut Dag,
    minutes: &mut Vec<Minute>,
) -> Result<(), NoMemory>
    requires setting { IsSetting net.now bid.now.path layout }
    requires flags { length kept.flags.now ≡ places_of layout + 1 }
    requires arcs { dag.old.arcs ≡ [] }
    requires ends { length dag.old.ends ≡ node_of kept.flags.now (places_of layout) + 1 }
    requires minutes { minutes.old.items ≡ [] }
    ensures starts { OnOk result (Starts bid.now.path layout.entry kept.entry.flags.now
        (layout.entry.first + layout.entry.minutes) dag.new.arcs minutes.new.items) }
    ensures ends { OnOk result (dag.new.ends ≡ dag.old.ends) }
{
    for minute in layout.first..starts_end(bid, layout) {
        let place = layout.place(make_start(bid, minute)) as usize;
        if !kept.flags[place] {
            continue;
        }
        dag.arc(0, kept.numbers[place])?;
        minutes.push(minute)?;
    }
    Ok(())
}

/// Adds the arcs of the kept places.
pub fn add_legs(
    net: &Network,
    bid: &Bid,
    layout: Layout<'_>,
    kept: Kept<'_>,
    dag: &mut Dag,
    legs: &mut Legs,
    table: &StepTable,
) -> Result<(), NoMemory>
    requires setting { IsSetting net.now bid.now.path layout }
    requires steps { AreStepsTo net.now bid.now.path layout
        (places_of layout) kept.flags.now table.now }
    requires flags { length kept.flags.now ≡ places_of layout + 1 }
    requires starts { All (λ arc. arc.from ≡ 0) dag.old.arcs }
    requires few { length dag.old.arcs ≤ 2880 }
    requires ends { length dag.old.ends ≡ node_of kept.flags.now (places_of layout) + 1 }
    requires legs { legs.old ≡ [] }
    ensures arcs { OnOk result (Emits net.now bid.now.path layout.entry kept.entry.flags.now
        (places_of layout.entry) dag.old.arcs dag.new.arcs legs.new) }
    ensures ends { OnOk result (dag.new.ends ≡ dag.old.ends) }
{
    for row in 0..table.rows() {
        let place = table.place(row) as usize;
        if !kept.flags[place] {
            continue;
        }
        add_arcs(dag, legs, kept.numbers[place], table.of(row), kept)?;
    }
    Ok(())
}

/// Adds an arc from the node for each of the steps that lead to a place that is kept.
fn add_arcs(
    dag: &mut Dag,
    legs: &mut Legs,
    from: u32,
    steps: &[Step],
    kept: Kept<'_>,
) -> Result<(), NoMemory>
    requires within { All (λ step. step.to < length kept.flags.now) steps.now }
    requires dwells { All (λ step. dwell_of step.leg.action < 256) steps.now }
    requires forward { All (λ step. from < node_of kept.flags.now step.to) steps.now }
    requires nodes { All (λ step. node_of kept.flags.now step.to < length dag.old.ends) steps.now }
    requires sorted { All (λ before. before.from ≤ from) dag.old.arcs }
    requires room { length dag.old.arcs + length steps.now ≤ 2 ^ 32 - 1 }
    ensures arcs { OnOk result (dag.new.arcs ≡ dag.old.arcs ++ map
        (arc_of kept.entry.flags.now from) (filter (is_kept kept.entry.flags.now) steps.now)) }
    ensures legs { OnOk result (legs.new ≡ legs.old
        ++ map leg_of_step (filter (is_kept kept.entry.flags.now) steps.now)) }
    ensures ends { OnOk result (dag.new.ends ≡ dag.old.ends) }
{
    for step in steps {
        let to = step.to as usize;
        if !kept.flags[to] {
            continue;
        }
        dag.arc(from, kept.numbers[to])?;
        legs.push(step.leg)?;
    }
    Ok(())
}
