//! The stations that a walk may leave in time.
ghost use Rattle.std.specs.Prelude.{◌≡◌, ◌+◌, ◌≤◌, length, IfOk, OnOk};
ghost use Rattle.optra_bid.specs.Specs.{IsPathOn};
ghost use Rattle.optra_graph.specs.Columns.{AreColumns, AreColumnsTo};

use crate::deadlines::{end_target, make_deadlines, make_stopping};
use optra_bid::Bid;
use optra_network::{Minute, Network, NoMemory, StationId};
use std::alloc::Global;

/// The stations that a walk may leave in time, by station position. Each has a column, numbered from 0.
#[derive(Drop)]
pub struct Columns {
    /// For each station of the network the first minute at which it is too late to leave it.
    pub deadlines: Vec<Minute>,
    /// The same where stops are left.
    pub stopping: Vec<Minute>,
    /// The station of each column.
    pub stations: Vec<StationId>,
    /// For each station of the network its column, where it has one.
    pub numbers: Vec<u16>,
}

impl Columns {
    pub fn new(alloc: Global, net: &Network, bid: &Bid) -> Result<Columns, NoMemory>
        requires { IsPathOn net.now bid.now.path }
        ensures { IfOk result (λ columns. AreColumns net.now bid.now.path columns) }
    {
        let deadlines = make_deadlines(alloc, net, bid, end_target(bid))?;
        let stopping = make_stopping(alloc, net, bid, &deadlines)?;
        let mut columns = Columns {
            deadlines,
            stopping,
            stations: Vec::new(alloc),
            numbers: Vec::with_capacity(alloc, net.station_count() as usize)?,
        };
        for station in 0..net.station_count() {
            columns.add(StationId(station), bid.path.depart.from)?;
        }
        Ok(columns)
    }

    /// Adds the next station. It has a column where it may be left at the minute.
    fn add(&mut self, station: StationId, minute: Minute) -> Result<(), NoMemory>
        requires before { AreColumnsTo minute station.0 self.old }
        requires there { station.0 + 1 ≤ length self.old.deadlines.items }
        ensures columns { OnOk result (AreColumnsTo minute (station.0 + 1) self.new) }
        ensures deadlines { self.new.deadlines ≡ self.old.deadlines }
        ensures stopping { self.new.stopping ≡ self.old.stopping }
    {
        self.numbers.push(self.stations.len() as u16)?;
        if minute < self.deadlines[station.0 as usize] {
            self.stations.push(station)?;
        }
        Ok(())
    }
}
