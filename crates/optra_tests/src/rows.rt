//! Rows of headways, loads of rows, and two families together, at values worked by hand.
ghost use Rattle.std.specs.Prelude.{◌≡◌, IfOk};
ghost use Rattle.optra_rows.specs.declared.HRow.{HRow};
ghost use Rattle.optra_rows.specs.Headways.{use_in};
ghost use Rattle.optra_walk.specs.Families.{total_of};
ghost use Rattle.optra_rows.specs.TouchedLemmas.{row_cmp};

use crate::decisions::AB;
use crate::instances::{Check, PAIRS, PLAIN, Rows, check_read, same};
use optra_network::{Network, NoMemory, TrackId, TrackUse, TypeId, conflict};
use optra_rows::HRow::{Pair, Window};
use optra_rows::{Both, Either, HRow, HeadwayRows, Load};
use optra_walk::{Action, CodedRow, Instance, Leg, RowFamily, RowList};
use std::alloc::Global;
use std::process::Abort;
use std::test::Fail;

const X: TypeId = TypeId(0);

const Y: TypeId = TypeId(1);

const Z: TypeId = TypeId(2);

/// Headways of two types that differ both ways.
static TWO_TYPES: Rows = Rows {
    types: "x\ny\n",
    running: "ab,x,5,5,5,5\nab,y,5,5,5,5\n",
    headways: "ab,x,x,2\nab,x,y,7\nab,y,x,3\nab,y,y,5\n",
    ..PLAIN
};

/// The last leg of a train, which departs on the track at a minute.
fn leg(depart: u16) -> Leg
    ensures track { result.track ≡ AB }
    ensures depart { result.depart ≡ depart }
    ensures finish { result.action ≡ Action.Finish }
{
    Leg {
        track: AB,
        depart,
        from_halt: true,
        action: Action::Finish,
    }
}

/// The row at a place of those that a type uses which departs at a minute.
fn touched(rt: &impl Abort, net: &Network, kind: TypeId, depart: u16, k: u32) -> Option<HRow> {
    assert!(rt; depart <= 2879);
    assert!(rt; net.run(AB, kind, false, false).is_some());
    net.laws();
    HeadwayRows::new().touched(net, kind, leg(depart), k)
}

fn used(rt: &impl Abort, net: &Network, kind: TypeId, depart: u16, row: HRow) -> u32 {
    assert!(rt; depart <= 2879);
    assert!(rt; net.run(AB, kind, false, false).is_some());
    net.laws();
    HeadwayRows::new().leg_use(net, kind, leg(depart), row)
}

/// A row of the track: a minute, or two uses by minute and type.
#[derive(Clone, Copy, Debug)]
enum Case {
    At(u16),
    Two(u16, TypeId, u16, TypeId),
}

use Case::{At, Two};

fn row_of(case: Case) -> HRow {
    match case {
        At(minute) => Window { track: AB, minute },
        Two(first_at, first, second_at, second) => Pair {
            track: AB,
            first_at,
            first,
            second_at,
            second,
        },
    }
}

/// The uses of a row by x at 0, y at 3 and z at 6, of which every two are in conflict and none share a window minute.
static USES: [(Case, [u32; 3]); 8] = [
    (Two(0, X, 3, Y), [1, 1, 0]),
    (Two(3, Y, 6, Z), [0, 1, 1]),
    (Two(0, X, 6, Z), [1, 0, 1]),
    (Two(3, Y, 0, X), [0, 0, 0]),
    (At(0), [1, 0, 0]),
    (At(1), [0, 0, 0]),
    (At(3), [0, 1, 0]),
    (At(6), [0, 0, 1]),
];

/// The three trains.
static TRAINS: [(TypeId, u16); 3] = [(X, 0), (Y, 3), (Z, 6)];

/// The uses of a row by the three trains.
fn check_uses(rt: &impl Abort, net: &Network, case: Case, uses: &[u32; 3]) {
    let row = row_of(case);
    for ((kind, depart), want) in TRAINS.iter().zip(uses) {
        assert_eq!(rt;
            used(rt, net, *kind, *depart, row),
            *want,
            "{depart} at {case:?}"
        );
    }
}

struct Uses;

impl Check for Uses {
    fn check<R: Abort + AllocGlobal>(&self, rt: &R, inst: Instance<'_>) -> Result<(), Fail> {
        for (case, uses) in &USES {
            check_uses(rt, inst.net, *case, uses);
        }
        Ok(())
    }
}

#[test]
fn three_uses_have_three_pair_rows_and_no_common_window(rt: HostRuntime) -> Result<(), Fail> {
    check_read(&rt, &PAIRS, &Uses)
}

/// The rows of a type's use by place: in the day, at its first minutes, and at its last one.
static TOUCHED: [(TypeId, u16, u32, Option<Case>); 18] = [
    (X, 0, 0, Some(At(0))),
    (X, 0, 1, Some(Two(0, X, 1, Y))),
    (X, 0, 2, Some(Two(0, X, 1, Z))),
    (X, 0, 9, Some(Two(0, X, 6, Z))),
    (X, 0, 10, None),
    (Y, 3, 0, Some(At(3))),
    (Y, 3, 1, Some(Two(0, X, 3, Y))),
    (Y, 3, 3, Some(Two(2, X, 3, Y))),
    (Y, 3, 4, Some(Two(3, Y, 4, Z))),
    (Y, 3, 7, None),
    (Y, 1, 1, Some(Two(0, X, 1, Y))),
    (Y, 1, 2, Some(Two(1, Y, 2, Z))),
    (Y, 1, 5, None),
    (Y, 2879, 0, Some(At(2879))),
    (Y, 2879, 1, Some(Two(2876, X, 2879, Y))),
    (Y, 2879, 3, Some(Two(2878, X, 2879, Y))),
    (Y, 2879, 4, None),
    (Y, 2879, 8192, None),
];

struct Listed;

impl Check for Listed {
    fn check<R: Abort + AllocGlobal>(&self, rt: &R, inst: Instance<'_>) -> Result<(), Fail> {
        for (kind, depart, k, case) in &TOUCHED {
            let row = case.map(row_of);
            assert_eq!(rt;
                touched(rt, inst.net, *kind, *depart, *k),
                row,
                "{depart} {k}"
            );
        }
        Ok(())
    }
}

#[test]
fn rows_are_listed_in_their_order_and_end_with_the_day(rt: HostRuntime) -> Result<(), Fail> {
    check_read(&rt, &PAIRS, &Listed)
}

/// Values that are rows, and values that are none.
static ROWS: [(Case, bool); 7] = [
    (At(0), true),
    (At(2998), true),
    (At(2999), false),
    (Two(0, X, 3, Y), true),
    (Two(0, X, 4, Y), false),
    (Two(2876, X, 2879, Y), true),
    (Two(2877, X, 2880, Y), false),
];

struct AreRows;

impl Check for AreRows {
    fn check<R: Abort + AllocGlobal>(&self, rt: &R, inst: Instance<'_>) -> Result<(), Fail> {
        for (case, expected) in &ROWS {
            let row = row_of(*case);
            assert_eq!(rt;
                HeadwayRows::new().is_row(inst.net, row),
                *expected,
                "{case:?}"
            );
        }
        let elsewhere = Window {
            track: TrackId(1),
            minute: 0,
        };
        assert!(rt; !HeadwayRows::new().is_row(inst.net, elsewhere));
        Ok(())
    }
}

#[test]
fn rows_are_minutes_and_pairs(rt: HostRuntime) -> Result<(), Fail> {
    check_read(&rt, &PAIRS, &AreRows)
}

/// Whether x at 100 and y at a minute share a row.
fn share(rt: &impl Abort, net: &Network, depart: u16) -> bool {
    for k in 0..8192 {
        match touched(rt, net, X, 100, k) {
            Some(row) => {
                if used(rt, net, Y, depart, row) > 0 {
                    return true;
                }
            }
            None => return false,
        }
    }
    false
}

/// Whether x at 100 and y at a minute are in conflict.
fn meet(rt: &impl Abort, net: &Network, depart: u16) -> bool {
    assert!(rt; net.run(AB, X, false, false).is_some());
    net.laws();
    assert!(rt; net.run(AB, Y, false, false).is_some());
    net.laws();
    let x = TrackUse {
        track: AB,
        kind: X,
        time: 100,
    };
    let y = TrackUse {
        track: AB,
        kind: Y,
        time: depart,
    };
    conflict(net, x, y)
}

/// The two share a row, and are in conflict, from 98 to 106.
fn check_shared(rt: &impl Abort, net: &Network, depart: u16) {
    let expected = depart > 97 && depart < 107;
    assert_eq!(rt; share(rt, net, depart), expected, "rows at {depart}");
    assert_eq!(rt; meet(rt, net, depart), expected, "conflict at {depart}");
}

struct Shared;

impl Check for Shared {
    fn check<R: Abort + AllocGlobal>(&self, rt: &R, inst: Instance<'_>) -> Result<(), Fail> {
        for depart in 92..=108 {
            check_shared(rt, inst.net, depart);
        }
        Ok(())
    }
}

#[test]
fn uses_share_a_row_exactly_where_they_are_in_conflict(rt: HostRuntime) -> Result<(), Fail> {
    check_read(&rt, &TWO_TYPES, &Shared)
}

/// Whether a type that departs at a minute fits.
fn fits(
    rt: &impl Abort,
    load: &Load<HeadwayRows>,
    net: &Network,
    kind: TypeId,
    depart: u16,
) -> bool {
    assert!(rt; depart <= 2879);
    assert!(rt; net.run(AB, kind, false, false).is_some());
    net.laws();
    load.fits(net, &HeadwayRows::new(), kind, leg(depart))
}

/// A load of x at 0 alone.
fn loaded(rt: &impl Abort, alloc: Global, net: &Network) -> Result<Load<HeadwayRows>, NoMemory>
    ensures { IfOk result (λ load. (row : HRow) → total_of row_cmp load.totals.sums row
        ≡ use_in net.now X AB 0 row) }
{
    assert!(rt; net.run(AB, X, false, false).is_some());
    net.laws();
    let mut load = Load::new(alloc);
    load.add(net, &HeadwayRows::new(), X, leg(0))?;
    Ok(load)
}

/// Takes x at 0 away again.
fn unload(rt: &impl Abort, net: &Network, load: &mut Load<HeadwayRows>)
    requires { (row : HRow) → total_of row_cmp load.old.totals.sums row ≡ use_in net.now X AB 0 row }
{
    assert!(rt; net.run(AB, X, false, false).is_some());
    net.laws();
    load.take(net, &HeadwayRows::new(), X, leg(0));
}

struct Loads;

impl Check for Loads {
    fn check<R: Abort + AllocGlobal>(&self, rt: &R, inst: Instance<'_>) -> Result<(), Fail> {
        let mut load = loaded(rt, rt.alloc(), inst.net)?;
        assert!(rt; !fits(rt, &load, inst.net, X, 0));
        assert!(rt; !fits(rt, &load, inst.net, Y, 3));
        assert!(rt; fits(rt, &load, inst.net, Y, 4));
        unload(rt, inst.net, &mut load);
        assert!(rt; fits(rt, &load, inst.net, X, 0));
        assert!(rt; fits(rt, &load, inst.net, Y, 3));
        Ok(())
    }
}

#[test]
fn a_row_takes_one_use_and_no_more(rt: HostRuntime) -> Result<(), Fail> {
    check_read(&rt, &PAIRS, &Loads)
}

fn doubled() -> Both<HeadwayRows, HeadwayRows> {
    Both::new(HeadwayRows::new(), HeadwayRows::new())
}

/// The row of both families at a place of those that x uses which departs at 0.
fn touched_of_both(rt: &impl Abort, net: &Network, k: u32) -> Option<Either<HRow, HRow>> {
    assert!(rt; net.run(AB, X, false, false).is_some());
    net.laws();
    doubled().touched(net, X, leg(0), k)
}

/// The row of both families at a place.
fn check_touched(rt: &impl Abort, net: &Network, k: u32, want: Option<Either<HRow, HRow>>) {
    same(rt, &touched_of_both(rt, net, k), &want);
}

/// A row of the second family takes one use.
fn check_last(rt: &impl Abort, net: &Network, row: Either<HRow, HRow>) {
    assert!(rt; doubled().is_row(net, row));
    same(rt, &doubled().cap(net, row), &1);
}

struct SecondFamily;

impl Check for SecondFamily {
    fn check<R: Abort + AllocGlobal>(&self, rt: &R, inst: Instance<'_>) -> Result<(), Fail> {
        let first = Either::First(row_of(At(0)));
        let second = Either::Second(row_of(Two(0, X, 6, Z)));
        check_touched(rt, inst.net, 0, Some(first));
        check_touched(rt, inst.net, 19, Some(second));
        check_touched(rt, inst.net, 20, None);
        assert!(rt; first < second);
        check_last(rt, inst.net, second);
        Ok(())
    }
}

#[test]
fn the_rows_of_the_second_family_come_after_the_first(rt: HostRuntime) -> Result<(), Fail> {
    check_read(&rt, &PAIRS, &SecondFamily)
}

/// The rows that x uses which departs at a minute, from a place on, are listed as they are told one by one.
fn check_listed<F: RowFamily>(
    rt: &impl Abort,
    alloc: Global,
    net: &Network,
    rows: &F,
    depart: u16,
    from: u32,
) -> Result<(), NoMemory> {
    assert!(rt; depart <= 2879);
    assert!(rt; net.run(AB, X, false, false).is_some());
    net.laws();
    let mut list = RowList::new(alloc);
    rows.list_touched(net, X, leg(depart), from, &mut list)?;
    let count = rows.used_count(net, X, leg(depart));
    assert!(rt; list.len() == count.saturating_sub(from) as usize);
    for k in from..count {
        let listed = list.at((k - from) as usize);
        assert!(rt; Some(listed) == rows.touched(net, X, leg(depart), k));
    }
    Ok(())
}

struct AtOnce;

impl Check for AtOnce {
    fn check<R: Abort + AllocGlobal>(&self, rt: &R, inst: Instance<'_>) -> Result<(), Fail> {
        for from in [0, 1, 3, 20] {
            check_listed(rt, rt.alloc(), inst.net, &HeadwayRows::new(), 0, from)?;
            check_listed(rt, rt.alloc(), inst.net, &HeadwayRows::new(), 100, from)?;
            check_listed(rt, rt.alloc(), inst.net, &HeadwayRows::new(), 2879, from)?;
            check_listed(rt, rt.alloc(), inst.net, &doubled(), 100, from)?;
        }
        same(
            rt,
            &HeadwayRows::new().lasting_count(inst.net, X, leg(0)),
            &1,
        );
        same(rt, &doubled().lasting_count(inst.net, X, leg(0)), &8_192);
        Ok(())
    }
}

#[test]
fn rows_are_listed_at_once_as_one_by_one(rt: HostRuntime) -> Result<(), Fail> {
    check_read(&rt, &TWO_TYPES, &AtOnce)
}

/// A window of a track that is one too many for a number.
const FAR: HRow = Window {
    track: TrackId(1_024),
    minute: 0,
};

/// Minute 7 of the track with number 2.
const NEAR: HRow = Window {
    track: TrackId(2),
    minute: 7,
};

/// Two uses of the track with number 1.
const BOTH_USES: HRow = Pair {
    track: TrackId(1),
    first_at: 3,
    first: X,
    second_at: 5,
    second: Z,
};

#[test]
fn a_number_tells_a_row(rt: HostRuntime) -> Result<(), Fail> {
    // 2 · 4,096 + 7 = 8,199, times 65,536.
    same(&rt, &NEAR.code(), &Some(537_329_664));
    // 2^38 and 65,536 + 3 · 16 + 0 = 65,584, times 65,536, and 5 · 16 + 2 = 82.
    same(&rt, &BOTH_USES.code(), &Some(279_176_020_050));
    same(&rt, &FAR.code(), &None);
    same(&rt, &HRow::of_code(537_329_664), &NEAR);
    same(&rt, &HRow::of_code(279_176_020_050), &BOTH_USES);
    Ok(())
}

#[test]
fn a_list_keeps_rows_that_no_number_tells(rt: HostRuntime) -> Result<(), Fail> {
    let mut list = RowList::new(rt.alloc());
    list.push(NEAR)?;
    same(&rt, &list.codes().is_some(), &true);
    list.push(FAR)?;
    list.push(BOTH_USES)?;
    assert!(&rt; list.len() == 3);
    same(&rt, &list.at(0), &NEAR);
    same(&rt, &list.at(1), &FAR);
    same(&rt, &list.at(2), &BOTH_USES);
    same(&rt, &list.has(1, FAR), &true);
    same(&rt, &list.has(2, BOTH_USES), &true);
    same(&rt, &list.has(0, FAR), &false);
    same(&rt, &list.has(3, FAR), &false);
    same(&rt, &list.codes().is_some(), &false);
    Ok(())
}

/// A leg by which a train that passed the tail passes the head.
fn passing(depart: u16) -> Leg
    ensures track { result.track ≡ AB }
    ensures depart { result.depart ≡ depart }
    ensures pass { result.action ≡ Action.Pass }
{
    Leg {
        track: AB,
        depart,
        from_halt: false,
        action: Action::Pass,
    }
}

/// Whether a family says that legs of x which depart at two minutes, one of which ends the walk, use the same.
fn alike<F: RowFamily>(rt: &impl Abort, net: &Network, rows: &F, first: u16, second: u16) -> bool {
    assert!(rt; first <= 2879);
    assert!(rt; second <= 2879);
    assert!(rt; net.run(AB, X, false, false).is_some());
    net.laws();
    rows.use_alike(net, X, leg(first), passing(second))
}

struct UseAlike;

impl Check for UseAlike {
    fn check<R: Abort + AllocGlobal>(&self, rt: &R, inst: Instance<'_>) -> Result<(), Fail> {
        assert!(rt; alike(rt, inst.net, &HeadwayRows::new(), 5, 5));
        assert!(rt; !alike(rt, inst.net, &HeadwayRows::new(), 5, 6));
        assert!(rt; alike(rt, inst.net, &doubled(), 5, 5));
        assert!(rt; !alike(rt, inst.net, &doubled(), 6, 5));
        Ok(())
    }
}

#[test]
fn legs_that_enter_a_track_at_one_minute_use_alike(rt: HostRuntime) -> Result<(), Fail> {
    check_read(&rt, &PAIRS, &UseAlike)
}
