//! First best paths by the narrow search, over small graphs whose paths a script listed one by one.
ghost use Rattle.std.specs.Prelude.{◌≡◌, ◌<◌, ◌≤◌, IfOk, length};

use optra_dag::{
    Buffers, Dag, FAR, NARROW_ROOM, NarrowWeight, NoMemory, is_narrow, narrow_best_in,
};
use std::alloc::Global;
use std::process::Abort;
use std::test::Fail;

/// A mark for each arc: 0 closes it, and another, below 16, lets it add so much less 8.
#[derive(Clone, Copy)]
struct Marks {
    marks: [u8; 10],
}

impl NarrowWeight for Marks {
    ghost use Rattle.std.specs.Prelude.{pos, ◌-ℤ◌, ◌%◌, nat_lt, slice_index_or};

    ghost asked = { λ _. 10 };

    ghost allows = { λ m arc. nat_lt 0 (slice_index_or m.marks arc 0 % 16) };

    ghost weight = { λ m arc. pos (slice_index_or m.marks arc 0 % 16) -ℤ pos 8 };

    fn of(&self, arc: u32) -> i64 {
        let mark = self.marks[arc as usize] % 16;
        if mark > 0 { i64::from(mark) - 8 } else { FAR }
    }

    fn copied(&self) -> Marks {
        *self
    }
}

/// Five nodes, each with an arc to each later one; the nodes that are told are ends.
fn fan(alloc: Global, ends: &[u32]) -> Result<Dag, NoMemory>
    ensures { IfOk result (λ dag. (length dag.arcs ≤ 10) × (length dag.ends ≡ 5)) }
{
    let mut dag = Dag::new(alloc, 5)?;
    dag.arc(0, 1)?;
    dag.arc(0, 2)?;
    dag.arc(0, 3)?;
    dag.arc(0, 4)?;
    dag.arc(1, 2)?;
    dag.arc(1, 3)?;
    dag.arc(1, 4)?;
    dag.arc(2, 3)?;
    dag.arc(2, 4)?;
    dag.arc(3, 4)?;
    for node in ends {
        if *node < 5 {
            dag.set_end(*node);
        }
    }
    Ok(dag)
}

fn search(buffers: &mut Buffers, dag: &Dag, marks: &Marks) -> Result<Option<i64>, NoMemory>
    requires arcs { length dag.now.arcs ≤ 10 }
    requires nodes { length dag.now.ends ≤ 5 }
{
    narrow_best_in(buffers, dag, marks, 8)
}

/// The marks, the ends, the best sum, and the first path that has it.
type Case = ([u8; 10], &'static [u32], Option<i64>, &'static [u32]);

static CASES: [Case; 16] = [
    ([8, 8, 8, 8, 8, 8, 8, 8, 8, 8], &[4], Some(0), &[0, 4, 7, 9]),
    (
        [8, 8, 8, 8, 8, 8, 8, 8, 8, 8],
        &[0, 1, 2, 3, 4],
        Some(0),
        &[0],
    ),
    ([8, 8, 8, 8, 8, 8, 8, 8, 8, 8], &[0], None, &[]),
    ([0, 0, 0, 0, 0, 0, 0, 0, 0, 0], &[1, 2, 3, 4], None, &[]),
    ([7, 7, 7, 7, 7, 7, 7, 7, 7, 7], &[1, 4], Some(-1), &[0]),
    (
        [9, 9, 9, 9, 9, 9, 9, 9, 9, 9],
        &[1, 4],
        Some(4),
        &[0, 4, 7, 9],
    ),
    ([6, 8, 8, 1, 7, 7, 1, 8, 15, 0], &[3], Some(0), &[1, 7]),
    (
        [8, 6, 10, 10, 8, 10, 0, 10, 8, 7],
        &[2, 3],
        Some(2),
        &[0, 4, 7],
    ),
    ([6, 8, 8, 0, 8, 6, 8, 8, 15, 6], &[2, 3], Some(0), &[1]),
    ([9, 9, 8, 6, 8, 0, 0, 8, 7, 0], &[1, 3], Some(1), &[0]),
    ([1, 8, 0, 1, 15, 0, 9, 0, 8, 6], &[2, 4], Some(0), &[0, 4]),
    ([9, 8, 0, 8, 8, 8, 9, 0, 8, 8], &[2, 3], Some(1), &[0, 4]),
    ([8, 7, 8, 8, 6, 0, 8, 9, 0, 15], &[0, 1, 3], Some(0), &[0]),
    ([8, 8, 8, 10, 7, 1, 8, 8, 10, 9], &[0, 4], Some(2), &[1, 8]),
    (
        [7, 6, 7, 10, 9, 0, 10, 15, 15, 8],
        &[1, 3, 4],
        Some(7),
        &[0, 4, 7],
    ),
    ([1, 6, 9, 9, 8, 10, 0, 8, 6, 8], &[0, 4], Some(1), &[2, 9]),
];

/// The best path of the fan in these buffers.
fn check_path(
    rt: &impl Abort,
    buffers: &mut Buffers,
    dag: &Dag,
    case: &Case,
) -> Result<(), NoMemory>
    requires arcs { length dag.now.arcs ≤ 10 }
    requires nodes { length dag.now.ends ≤ 5 }
{
    let (marks, _, sum, path) = *case;
    assert!(rt; is_narrow(dag, 8));
    assert_eq!(rt; search(buffers, dag, &Marks { marks })?, sum);
    if sum.is_some() {
        assert_eq!(rt; buffers.path(), path);
    }
    Ok(())
}

#[test]
fn finds_the_first_of_the_best_paths_in_64_bits(rt: HostRuntime) -> Result<(), Fail> {
    let mut buffers = Buffers::new(rt.alloc());
    for case in &CASES {
        let dag = fan(rt.alloc(), case.1)?;
        check_path(&rt, &mut buffers, &dag, case)?;
    }
    Ok(())
}

#[test]
fn one_node_has_no_path(rt: HostRuntime) -> Result<(), Fail> {
    let mut buffers = Buffers::new(rt.alloc());
    let mut dag = Dag::new(rt.alloc(), 1)?;
    dag.set_end(0);
    let marks = Marks { marks: [8; 10] };
    assert_eq!(rt; search(&mut buffers, &dag, &marks)?, None);
    assert!(rt; is_narrow(&dag, NARROW_ROOM));
    assert!(rt; !is_narrow(&dag, NARROW_ROOM + 1));
    Ok(())
}
