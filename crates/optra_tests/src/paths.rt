//! First best paths over one small graph, worked by hand.
ghost use Rattle.std.specs.Prelude.{◌≡◌, ◌<◌, ◌≤◌, pos, IfOk, length, not, nat_eq, if◌then◌else◌};

use crate::instances::same;
use optra_dag::{Buffers, Dag, NoMemory, Weight, first_best, first_best_in};
use std::alloc::Global;
use std::process::Abort;
use std::test::Fail;

/// One arc is closed, and one is worth ten times the others.
#[derive(Clone, Copy)]
struct Tolls {
    closed: u32,
    dear: u32,
}

impl Weight for Tolls {
    ghost use Rattle.std.specs.Prelude.{pos, not, nat_eq, if◌then◌else◌};

    ghost asked = { λ _. 4294967295 };

    ghost allows = { λ tolls arc. not (nat_eq arc tolls.closed) };

    ghost weight = { λ tolls arc. if nat_eq arc tolls.dear then pos 10 else pos 1 };

    fn allowed(&self, arc: u32) -> bool {
        arc != self.closed
    }

    fn of(&self, arc: u32) -> i128 {
        if arc == self.dear { 10 } else { 1 }
    }
}

/// From 0 over 1 or 2 to 3, and from 0 straight to 3; the node is the end.
fn diamond(alloc: Global, end: u32) -> Result<Dag, NoMemory>
    requires { end < 4 }
    ensures { IfOk result (λ dag. length dag.arcs ≤ 5) }
{
    let mut dag = Dag::new(alloc, 4)?;
    dag.arc(0, 1)?;
    dag.arc(0, 2)?;
    dag.arc(0, 3)?;
    dag.arc(1, 3)?;
    dag.arc(2, 3)?;
    dag.set_end(end);
    Ok(dag)
}

/// The end, the closed arc and the dear one, what the best path is worth, if there is one, and its arcs. No path ends where
/// all begin.
type Case = (u32, u32, u32, Option<i128>, &'static [u32]);

static CASES: [Case; 6] = [
    (3, 9, 9, Some(2), &[0, 3]),
    (3, 3, 9, Some(2), &[1, 4]),
    (3, 9, 2, Some(10), &[2]),
    (3, 9, 4, Some(11), &[1, 4]),
    (2, 9, 9, Some(1), &[1]),
    (0, 9, 9, None, &[]),
];

/// The best path of a graph, in buffers of its own and in these.
fn check_paths(
    rt: &(impl Abort + AllocGlobal),
    buffers: &mut Buffers,
    dag: &Dag,
    case: &Case,
) -> Result<(), NoMemory>
    requires { length dag.now.arcs ≤ 5 }
{
    let (_, closed, dear, sum, path) = *case;
    let tolls = Tolls { closed, dear };
    match &first_best(rt.alloc(), dag, &tolls)? {
        Some((total, arcs)) => {
            same(rt, &Some(*total), &sum);
            same(rt, &arcs.as_slice(), &path);
        }
        None => same(rt, &sum, &None),
    }
    let again = first_best_in(buffers, dag, &tolls)?;
    same(rt, &again, &sum);
    if sum.is_some() {
        same(rt, &buffers.path(), &path);
    }
    Ok(())
}

#[test]
fn finds_the_first_of_the_best_paths(rt: HostRuntime) -> Result<(), Fail> {
    let mut buffers = Buffers::new(rt.alloc());
    for case in &CASES {
        assert!(rt; case.0 < 4);
        let dag = diamond(rt.alloc(), case.0)?;
        check_paths(&rt, &mut buffers, &dag, case)?;
    }
    Ok(())
}
