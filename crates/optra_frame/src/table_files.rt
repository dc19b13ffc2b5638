//! The tables that a command over a network and its bids gets, and what they mean.
ghost use Rattle.std.specs.Prelude.{◌≡◌, ◌<◌, ◌++◌, length, map, option_map, slice_get, string_bytes, IfOk, IfSome};
ghost use Rattle.optra_network.specs.Names.{AllDiffer};
ghost use Rattle.optra_bid.specs.Instances.{IsInstance};
ghost use Rattle.optra_tables.specs.Outcomes.{Gives};
ghost use Rattle.optra_tables.specs.Networks.{HasHeadwaysAlone, network_of};
ghost use Rattle.optra_frame.specs.ContentsGot.{contents_of};
ghost use Rattle.optra_frame.specs.Files.{file_asked};
ghost use Rattle.optra_frame.specs.VersionsTold.{version_in};
ghost use Rattle.optra_frame.specs.TableFiles.{crossings_in, meaning_of, net_files, next_table_file, table_content, table_file_name};
ghost use Rattle.optra_frame.specs.TablesRead.{tables_seen};

use crate::files::{Asked, Role};
use crate::files_got::FilesGot;
use crate::version::{MOST_TABLES, Version};
use optra_bid::Bid;
use optra_network::Network;
use optra_tables::{NetFiles, ReadError, Table, read_bids, read_network};
use std::alloc::{AllocError, Global};

/// The file of the next table after these files, or `None` once all are got. The words name the network's folder, the
/// bids and the stops.
pub fn next_table_file(
    alloc: Global,
    net: &str,
    bids: &str,
    stops: &str,
    got: &FilesGot,
) -> Result<Option<Asked>, AllocError>
    ensures next { IfOk result (λ next. option_map file_asked next
        ≡ next_table_file net.now bids.now stops.now (contents_of got.now)) }
    ensures few { IfOk result (λ next. IfSome next
        (λ _. length (contents_of got.now) < MOST_TABLES)) }
{
    let Some(table) = got.version().table_at(got.count()) else {
        return Ok(None);
    };
    let name = file_name(alloc, net, bids, stops, table)?;
    let role = Role::Table(table);
    Ok(Some(Asked { role, name }))
}

/// The name of a table's file. The tables of an auction have none among these words.
fn file_name(
    alloc: Global,
    net: &str,
    bids: &str,
    stops: &str,
    table: Table,
) -> Result<String, AllocError>
    ensures { IfOk result (λ name. string_bytes name ≡ table_file_name net.now bids.now stops.now
        table) }
{
    match table {
        Table::Stations => joined(alloc, net, "/stations.csv"),
        Table::Tracks => joined(alloc, net, "/tracks.csv"),
        Table::Types => joined(alloc, net, "/types.csv"),
        Table::Running => joined(alloc, net, "/running.csv"),
        Table::Headways => joined(alloc, net, "/headways.csv"),
        Table::Crossings => joined(alloc, net, "/crossings.csv"),
        Table::Bids => joined(alloc, bids, ""),
        Table::Stops => joined(alloc, stops, ""),
        Table::Rules | Table::Actions => Ok(String::new(alloc)),
    }
}

/// One text behind another.
fn joined(alloc: Global, front: &str, back: &str) -> Result<String, AllocError>
    ensures { IfOk result (λ text. string_bytes text ≡ front.now ++ back.now) }
{
    let mut text = String::from_str(alloc, front)?;
    text.push_str(back)?;
    Ok(text)
}

/// A network and its bids, and the version of their tables.
#[derive(Drop)]
pub struct Tables {
    pub version: Version,
    pub net: Network,
    pub bids: Vec<Bid>,
}

/// The tables that the files mean. It errs by their first fault, or by want of memory.
pub fn read_tables(alloc: Global, files: &FilesGot) -> Result<Tables, ReadError>
    ensures read { Gives tables_seen result (meaning_of (contents_of files.now)) }
    ensures instance { IfOk result (λ tables. IsInstance tables.net tables.bids.items) }
    ensures names { IfOk result (λ tables. AllDiffer (map (λ bid. bid.name) tables.bids.items)) }
    ensures alone { IfOk result (λ tables. tables.version ≡ Version.First
        → HasHeadwaysAlone tables.net) }
{
    let version = files.version();
    let net = read_net(alloc, version, files)?;
    let bids = files.table(Table::Bids);
    let stops = files.table(Table::Stops);
    match read_bids(alloc, &net, bids, stops) {
        Ok(bids) => Ok(Tables { version, net, bids }),
        Err(error) => {
            drop(net);
            Err(error)
        }
    }
}

/// The network that its tables mean.
fn read_net(alloc: Global, version: Version, files: &FilesGot) -> Result<Network, ReadError>
    requires { version ≡ version_in (contents_of files.now) }
    ensures gives { Gives (λ net. net) result (network_of (net_files (contents_of files.now))) }
    ensures alone { IfOk result (λ net. version ≡ Version.First → HasHeadwaysAlone net) }
{
    let tables = NetFiles {
        stations: files.table(Table::Stations),
        tracks: files.table(Table::Tracks),
        types: files.table(Table::Types),
        running: files.table(Table::Running),
        headways: files.table(Table::Headways),
        crossings: crossings_in(version, files),
    };
    read_network(alloc, &tables)
}

/// The content of the crossings, in version 2.
fn crossings_in(version: Version, files: &FilesGot) -> Option<&[u8]>
    ensures { option_map (λ bytes. bytes.now) result ≡ crossings_in version (contents_of files.now) }
{
    match version {
        Version::First => None,
        Version::Second => Some(files.table(Table::Crossings)),
    }
}
