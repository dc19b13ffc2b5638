//! The uses of other tracks that break a crossing with a use, one by one in the order of rows.
//!
//! A use has a place: its track, its minute and its type as one number. A type that has a crossing with the use's type
//! breaks it in one run of minutes, so how many uses stand below a place is found without a list of them.
ghost use Rattle.std.specs.Prelude.{◌≡◌, ◌<◌, ◌≤◌, All, length, MatchOption};
ghost use Rattle.optra_network.specs.Crossers.{TracksRise};
ghost use Rattle.optra_cross.specs.Places.{IsCrosser, IsGroup, IsInTrack, IsPlace, count_below, from_minute, until_minute, rank, total};

use optra_network::{Crosser, Minute, TrackId};

/// Every minute of the two days is below it.
pub(crate) const DAYS_END: u32 = 2880;

/// So many places a minute.
pub(crate) const TYPES: u32 = 16;

/// So many places a track.
pub(crate) const TRACK_PLACES: u32 = DAYS_END * TYPES;

/// No minutes of a crossing are more.
const MOST_MINUTES: u32 = 120;

/// The place of the k-th use, from 0, of those of the crossers that break a crossing with a use at the time. None where
/// there are at most k.
///
/// The crossers of one track stand together, so whole tracks are passed over first.
pub(crate) fn place_at(crossers: &[Crosser], time: Minute, k: u32) -> Option<u32>
    requires time { time ≤ 2879 }
    requires each { All IsCrosser crossers.now }
    requires few { total time crossers.now ≤ 4000 }
    requires order { TracksRise crossers.now }
    ensures { MatchOption result (total time crossers.now ≤ k) (IsPlace time crossers.now k) }
{
    let mut start = 0;
    let mut left = k;
    'tracks: while start < crossers.len() {
        let end = group_end(crossers, start);
        let group = &crossers[start..end];
        let count = total(group, time);
        if left < count {
            return Some(search(group, crossers[start].track, time, left));
        }
        left -= count;
        start = end;
    }
    None
}

/// Where the crossers of the track of the one at a position end.
fn group_end(crossers: &[Crosser], start: usize) -> usize
    requires { start < length crossers.now }
    ensures { IsGroup crossers.now start result }
{
    let track = crossers[start].track.0;
    'crossers: for end in start + 1..crossers.len() {
        if crossers[end].track.0 != track {
            return end;
        }
    }
    crossers.len()
}

/// The place of the k-th use of the crossers of one track. There are more than k.
fn search(group: &[Crosser], track: TrackId, time: Minute, k: u32) -> u32
    requires time { time ≤ 2879 }
    requires each { All IsCrosser group.now }
    requires few { total time group.now ≤ 4000 }
    requires track { track.0 < 1000 }
    requires of_track { All (λ c. c.track.0 ≡ track.0) group.now }
    requires more { k < total time group.now }
    ensures place { IsPlace time group.now k result }
    ensures inside { IsInTrack track.0 result }
{
    let first = u32::from(track.0) * TRACK_PLACES;
    let mut low = first + (u32::from(time) + 1).saturating_sub(MOST_MINUTES) * TYPES;
    let mut high = first + (u32::from(time) + MOST_MINUTES).min(DAYS_END) * TYPES - 1;
    'halves: while low < high {
        let middle = low + (high - low) / 2;
        if rank(group, time, middle + 1) <= k {
            low = middle + 1;
        } else {
            high = middle;
        }
    }
    low
}

/// How many uses of the crossers break a crossing with a use at the time.
pub(crate) fn total(crossers: &[Crosser], time: Minute) -> u32
    requires time { time ≤ 2879 }
    requires each { All IsCrosser crossers.now }
    requires few { total time crossers.now ≤ 4000 }
    ensures { result ≡ total time crossers.now }
{
    let mut sum = 0;
    'crossers: for crosser in crossers {
        sum += until_minute(crosser, time).saturating_sub(from_minute(crosser, time));
    }
    sum
}

/// How many uses of the crossers that break a crossing with a use at the time stand below the place.
fn rank(crossers: &[Crosser], time: Minute, place: u32) -> u32
    requires time { time ≤ 2879 }
    requires place { place ≤ 46080000 }
    requires each { All IsCrosser crossers.now }
    requires few { total time crossers.now ≤ 4000 }
    ensures { result ≡ rank time place crossers.now }
{
    let mut sum = 0;
    'crossers: for crosser in crossers {
        sum += count_below(crosser, time, place);
    }
    sum
}

/// The same of one crosser.
fn count_below(crosser: &Crosser, time: Minute, place: u32) -> u32
    requires place { place ≤ 46080000 }
    requires crosser { IsCrosser crosser.now }
    ensures { result ≡ count_below time place crosser.now }
{
    let start = u32::from(crosser.track.0) * TRACK_PLACES + u32::from(crosser.kind.0);
    let minute = (place + TYPES - 1).saturating_sub(start) / TYPES;
    minute
        .min(until_minute(crosser, time))
        .saturating_sub(from_minute(crosser, time))
}

/// The first minute at which a use of the crosser breaks the crossing.
fn from_minute(crosser: &Crosser, time: Minute) -> u32
    ensures { result ≡ from_minute time crosser.now }
{
    (u32::from(time) + 1).saturating_sub(u32::from(crosser.before))
}

/// The first minute after those.
fn until_minute(crosser: &Crosser, time: Minute) -> u32
    ensures { result ≡ until_minute time crosser.now }
{
    (u32::from(time) + u32::from(crosser.after)).min(DAYS_END)
}
