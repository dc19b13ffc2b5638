//! What `finish` makes once its tests passed: the dense tables.
ghost use Rattle.std.specs.Prelude.{◌≡◌, ℕ, ◌*◌, ◌<◌, ◌↔◌, length, map, IfErr, IfOk, IsTrue, OnOk, true};
ghost use Rattle.std.specs.List.{range_with_len};
ghost use Rattle.optra_network.specs.Headways.{type_id, lesser, hmin_or_0, headway_before};
ghost use Rattle.optra_network.specs.Net.{HasAllHeadways, HasBothWays, IsWithinReach};
ghost use Rattle.optra_network.specs.Refusals.{IsFinishFault};
ghost use Rattle.optra_network.specs.Tables.{AreRows, AreTables, least_at};

use super::Builder;
use crate::dense::{Outgoing, Rows, Tables, above_zero};
use crate::{NetFault, NetRefusal, NoMemory, TrackId, TypeId};
use std::alloc::Global;

impl Builder {
    /// The dense tables, where no headway is missing, and no direction of a crossing, and none reaches too far.
    pub(super) fn complete_tables(&self) -> Result<Tables, NetFault>
        ensures tables { IfOk result (AreTables self.now) }
        ensures complete { OnOk result (HasAllHeadways self.now) }
        ensures both_ways { OnOk result (HasBothWays self.now) }
        ensures within_reach { OnOk result (IsWithinReach self.now) }
        ensures err { IfErr result (IsFinishFault self.now) }
    {
        let alloc = *self.tracks.allocator();
        if !self.headways_whole() {
            return Err(NetFault::Refused(NetRefusal::MissingHeadway));
        }
        self.whole_crossings(alloc)?;
        let rows = self.rows(alloc)?;
        Ok(self.tables(alloc, rows)?)
    }

    fn rows(&self, alloc: Global) -> Result<Rows, NoMemory>
        ensures { IfOk result (AreRows self.now) }
    {
        Rows::new(alloc, self.tracks.len(), &self.running, &self.headways)
    }

    fn tables(&self, alloc: Global, rows: Rows) -> Result<Tables, NoMemory>
        requires { AreRows self.now rows }
        ensures { IfOk result (AreTables self.now) }
    {
        let leasts = self.leasts(alloc, &rows)?;
        let out = Outgoing::new(alloc, self.stations.len(), &self.tracks)?;
        let partners = self.partners(alloc, &rows, &leasts)?;
        let crossers = self.crossers(alloc, &rows)?;
        Ok(Tables {
            rows,
            leasts,
            out,
            partners,
            crossers,
        })
    }

    /// The least headways by track and type.
    fn leasts(&self, alloc: Global, rows: &Rows) -> Result<Vec<u16>, NoMemory>
        requires { AreRows self.now rows.now }
        ensures { IfOk result (λ leasts. leasts.items ≡ map (least_at self.now) (range_with_len 0
            (length self.now.tracks * 16))) }
    {
        let mut leasts = Vec::new(alloc);
        for place in 0..self.tracks.len() * 16 {
            let track = TrackId((place / 16) as u16);
            leasts.push(self.least(rows, track, TypeId((place % 16) as u16)))?;
        }
        Ok(leasts)
    }

    /// The least headway after a type, over the types that may use the track; 0 where it may not itself.
    fn least(&self, rows: &Rows, track: TrackId, kind: TypeId) -> u16
        requires { AreRows self.now rows.now }
        ensures { result ≡ hmin_or_0 self.now track kind }
    {
        if !rows.may_use(track, kind) {
            return 0;
        }
        let mut least = None;
        for other in 0..self.types.len() {
            least = lesser(
                least,
                self.headway_before(rows, track, kind, TypeId(other as u16)),
            );
        }
        least.unwrap_or(0)
    }

    fn headway_before(
        &self,
        rows: &Rows,
        track: TrackId,
        kind: TypeId,
        other: TypeId,
    ) -> Option<u16>
        requires { AreRows self.now rows.now }
        ensures { result ≡ headway_before self.now track kind other }
    {
        if rows.may_use(track, other) {
            above_zero(rows.headway(track, kind, other))
        } else {
            None
        }
    }
}

fn lesser(a: Option<u16>, b: Option<u16>) -> Option<u16>
    ensures { result ≡ lesser a b }
{
    match (a, b) {
        (Some(a), Some(b)) => Some(a.min(b)),
        (Some(a), None) => Some(a),
        (None, b) => b,
    }
}
