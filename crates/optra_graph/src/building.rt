//! The graph of a bid.
ghost use Rattle.std.specs.Prelude.{◌≡◌, ◌+◌, ◌<◌, min, IfOk, is_ok, if◌then◌else◌};
ghost use Rattle.optra_bid.specs.Specs.{IsPathOn};
ghost use Rattle.optra_graph.specs.Flags.{IsKept};
ghost use Rattle.optra_graph.specs.Places.{places_of};
ghost use Rattle.optra_graph.specs.Settings.{IsSetting};
ghost use Rattle.optra_graph.specs.StepTables.{AreStepsTo};
ghost use Rattle.optra_graph.specs.Timed.{IsGraphOf};

use crate::columns::Columns;
use crate::emitting::{add_legs, add_starts};
use crate::kept::Kept;
use crate::legs::Legs;
use crate::numbering::number;
use crate::reaching::{reach, trim};
use crate::states::{Layout, make_layout};
use crate::step_table::StepTable;
use crate::timegraphs::TimeGraph;
use crate::workspace::Workspace;
use optra_bid::Bid;
use optra_dag::Dag;
use optra_network::{Network, NoMemory};
use std::alloc::Global;
use std::marker::Model;

/// How often a graph was built. It stands once it is at the greatest u64.
#[derive(Drop)]
pub struct Builds {
    count: u64,
}

impl Model for Builds {
    ghost use Rattle.std.specs.Prelude.{ℕ};

    ghost Value = { ℕ };

    ghost view = { λ a. a.count };
}

impl Builds {
    /// Nothing was built yet.
    pub fn new() -> Builds
        ensures { result ≡ 0 }
    {
        Builds { count: 0 }
    }

    pub fn count(&self) -> u64
        ensures { result ≡ self.now }
    {
        self.count
    }

    fn raise(&mut self)
        ensures { self.new ≡ min (self.old + 1) u64.MAX }
    {
        self.count = self.count.saturating_add(1);
    }
}

/// Builds the time-expanded graph of the bid, and counts it.
///
/// Its paths from the start to an end are the bid's timed walks, one for each, in walk order: the first arc of a
/// path is a start arc with the walk's first departure, and the others have the walk's legs. Every arc lies on
/// such a path. The bid's stations and its type must be positions of the network.
pub fn build(
    alloc: Global,
    net: &Network,
    bid: &Bid,
    builds: &mut Builds,
) -> Result<TimeGraph, NoMemory>
    requires { IsPathOn net.now bid.now.path }
    ensures graph { IfOk result (λ graph. IsGraphOf net.now bid.now.path graph) }
    ensures counted { builds.new ≡ (if is_ok result then min (builds.old + 1) u64.MAX else
        builds.old) }
{
    let mut workspace = Workspace::new(alloc);
    build_in(alloc, net, bid, builds, &mut workspace)
}

/// Builds the graph as `build` does, in buffers that may hold anything.
pub(crate) fn build_in(
    alloc: Global,
    net: &Network,
    bid: &Bid,
    builds: &mut Builds,
    workspace: &mut Workspace,
) -> Result<TimeGraph, NoMemory>
    requires { IsPathOn net.now bid.now.path }
    ensures graph { IfOk result (λ graph. IsGraphOf net.now bid.now.path graph) }
    ensures counted { builds.new ≡ (if is_ok result then min (builds.old + 1) u64.MAX else
        builds.old) }
{
    let graph = make_graph(alloc, net, bid, workspace)?;
    builds.raise();
    Ok(graph)
}

fn make_graph(
    alloc: Global,
    net: &Network,
    bid: &Bid,
    workspace: &mut Workspace,
) -> Result<TimeGraph, NoMemory>
    requires { IsPathOn net.now bid.now.path }
    ensures { IfOk result (λ graph. IsGraphOf net.now bid.now.path graph) }
{
    let columns = Columns::new(alloc, net, bid)?;
    let layout = make_layout(net, bid, &columns);
    let Workspace {
        flags,
        numbers,
        steps,
        table,
    } = workspace;
    reach(net, bid, layout, table, flags, steps)?;
    let arcs = trim(net, bid, layout, flags, table);
    number(flags, &table.places, numbers)?;
    let kept = Kept { flags, numbers };
    emit(alloc, net, bid, layout, kept, arcs, table)
}

/// The graph of the kept places, with room for so many arcs of legs.
fn emit(
    alloc: Global,
    net: &Network,
    bid: &Bid,
    layout: Layout<'_>,
    kept: Kept<'_>,
    arcs: usize,
    table: &StepTable,
) -> Result<TimeGraph, NoMemory>
    requires setting { IsSetting net.now bid.now.path layout }
    requires kept { IsKept net.now bid.now.path layout kept.flags.now }
    requires steps { AreStepsTo net.now bid.now.path layout (places_of layout) kept.flags.now
        table.now }
    ensures { IfOk result (λ graph. IsGraphOf net.now bid.now.path graph) }
{
    let end = kept.numbers[layout.places() as usize];
    let mut dag = Dag::new(alloc, end + 1)?;
    dag.set_end(end);
    let mut minutes = Vec::new(alloc);
    add_starts(net, bid, layout, kept, &mut dag, &mut minutes)?;
    dag.reserve(arcs)?;
    let mut legs = Legs::with_room(alloc, arcs)?;
    add_legs(net, bid, layout, kept, &mut dag, &mut legs, table)?;
    let _arcs = dag.arcs();
    Ok(TimeGraph { dag, minutes, legs })
}
