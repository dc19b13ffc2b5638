//! The tables of a network, in order.

ghost use Rattle.std.specs.Prelude.{◌≡◌, [], None, OnOk, IfErr, IfOk};
ghost use Rattle.optra_network.specs.Net.{empty_net, HasAllHeadways};
ghost use Rattle.optra_tables.specs.Networks.{HasFew, HasHeadwaysAlone, HasItsVersion, IsWhole, after_stations, crossings_outcome, files_of, first_network_of, headways_outcome, network_of, second_network_of};
ghost use Rattle.optra_tables.specs.Outcomes.{Fails, Gives};

use crate::crossings::read_crossings;
use crate::headways::read_headways;
use crate::limited_stations::read_limited_stations;
use crate::outcomes::{fails, net_answer};
use crate::running::read_running;
use crate::stations::read_stations;
use crate::tracks::read_tracks;
use crate::types::read_types;
use crate::{Kind, NetFiles, ReadError, Table};
use csv::ByteRecord;
use optra_network::{Builder, NetRefusal, Network};
use std::alloc::Global;

/// The network that was built, unless a headway is missing. It has no crossing.
fn finish_first(net: Builder) -> Result<Network, ReadError>
    requires { net.crossings ≡ [] }
    ensures { Gives (λ done. done) result (headways_outcome net) }
{
    net_answer(Table::Headways, 0, net.finish())
}

/// The network that was built, unless a direction of a crossing is missing or crossings reach too far. No headway is missing.
fn finish_second(net: Builder) -> Result<Network, ReadError>
    requires { HasAllHeadways net }
    ensures { Gives (λ done. done) result (crossings_outcome net) }
{
    net_answer(Table::Crossings, 0, net.finish())
}

/// Reads the tables from the tracks to the headways. The first fault ends it; what is left then is whether a headway is
/// missing.
#[tactic(auto, unfolding(crate::specs::Networks::after_stations))]
fn read_after_stations(
    alloc: Global,
    net: &mut Builder,
    cells: &mut ByteRecord,
    files: &NetFiles<'_>,
) -> Result<(), ReadError>
    requires { HasFew net.old }
    ensures ok { OnOk result (after_stations net.old (files_of files.now)
        ≡ headways_outcome net.new) }
    ensures few { OnOk result (HasFew net.new) }
    ensures alone { OnOk result (HasHeadwaysAlone net.old → HasHeadwaysAlone net.new) }
    ensures err { IfErr result (λ e. Fails e (after_stations net.old (files_of files.now))) }
{
    read_tracks(alloc, net, cells, files.tracks)?;
    read_types(alloc, net, cells, files.types)?;
    read_running(alloc, net, cells, files.running)?;
    read_headways(alloc, net, cells, files.headways)
}

/// Refuses a missing headway.
fn require_headways(net: &Builder) -> Result<(), ReadError>
    ensures gives { Gives (λ _. net.now) result (headways_outcome net.now) }
    ensures complete { OnOk result (HasAllHeadways net.now) }
{
    if net.headways_whole() {
        Ok(())
    } else {
        fails(Table::Headways, 0, Kind::Net(NetRefusal::MissingHeadway))
    }
}

/// Reads the tables of version 1 into a builder that has nothing yet, in order. The first fault ends it; what is left then
/// is whether a headway is missing.
#[tactic(auto, unfolding(crate::specs::Networks::first_network_of))]
fn read_first(alloc: Global, net: &mut Builder, files: &NetFiles<'_>) -> Result<(), ReadError>
    requires { net.old ≡ empty_net }
    ensures ok { OnOk result (first_network_of (files_of files.now) ≡ headways_outcome net.new) }
    ensures alone { OnOk result (HasHeadwaysAlone net.new) }
    ensures err { IfErr result (λ e. Fails e (first_network_of (files_of files.now))) }
{
    let mut cells = ByteRecord::new(alloc);
    read_stations(alloc, net, &mut cells, files.stations)?;
    read_after_stations(alloc, net, &mut cells, files)
}

/// Reads the tables of version 2 into a builder that has nothing yet, in order. The first fault ends it, a missing headway
/// before any of the crossings; what is left then is whether the crossings as a whole are refused.
#[tactic(auto, unfolding(crate::specs::Networks::second_network_of))]
fn read_second(
    alloc: Global,
    net: &mut Builder,
    files: &NetFiles<'_>,
    crossings: &[u8],
) -> Result<(), ReadError>
    requires { net.old ≡ empty_net }
    ensures ok { OnOk result (second_network_of (files_of files.now) crossings.now
        ≡ crossings_outcome net.new) }
    ensures whole { OnOk result (IsWhole net.new) }
    ensures err { IfErr result (λ e. Fails e (second_network_of (files_of files.now)
        crossings.now)) }
{
    let mut cells = ByteRecord::new(alloc);
    read_limited_stations(alloc, net, &mut cells, files.stations)?;
    read_after_stations(alloc, net, &mut cells, files)?;
    require_headways(net)?;
    read_crossings(alloc, net, &mut cells, crossings)
}

/// The network of tables of version 1.
fn first_network(alloc: Global, files: &NetFiles<'_>) -> Result<Network, ReadError>
    ensures gives { Gives (λ net. net) result (first_network_of (files_of files.now)) }
    ensures alone { IfOk result (λ net. HasHeadwaysAlone net) }
{
    let mut net = Builder::new(alloc)?;
    read_first(alloc, &mut net, files)?;
    finish_first(net)
}

/// The network of tables of version 2 with these crossings.
fn second_network(
    alloc: Global,
    files: &NetFiles<'_>,
    crossings: &[u8],
) -> Result<Network, ReadError>
    ensures { Gives (λ net. net) result (second_network_of (files_of files.now) crossings.now) }
{
    let mut net = Builder::new(alloc)?;
    read_second(alloc, &mut net, files, crossings)?;
    finish_second(net)
}

/// The network that the tables mean, or exactly their first fault. The tables are read in the order stations, tracks,
/// types, running, headways and, in version 2, crossings; rows count the records of a table from 1, which is the header.
///
/// - `Header` at row 1, where the first record isn't the table's header, or there is none.
/// - For each further record in order: `Csv`, where it has another number of fields or one that isn't UTF-8; then from
///   left to right `Name`, where a name isn't 1 to 64 bytes without a control character, and `Number`, where a number
///   isn't 1 to 10 ASCII digits; then what the network's builder refuses.
/// - `Net(MissingHeadway)` of the headways at row 0, where two types that may both use a track have no headway on it. It
///   comes before any fault of the crossings.
/// - In version 2, of the crossings at row 0, `Net(OneWayCrossing)` where a crossing isn't there in its other direction,
///   and else `Net(Reach)` where more than 4,000 uses of other tracks break a crossing with one use of a type on a track.
///
/// The network of tables of version 1 has no crossing and no station with a limit.
pub fn read_network(alloc: Global, files: &NetFiles<'_>) -> Result<Network, ReadError>
    requires version { HasItsVersion (files_of files.now) }
    ensures gives { Gives (λ net. net) result (network_of (files_of files.now)) }
    ensures alone { IfOk result (λ net. files.now.crossings ≡ None → HasHeadwaysAlone net) }
{
    match files.crossings {
        Some(crossings) => second_network(alloc, files, crossings),
        None => first_network(alloc, files),
    }
}
