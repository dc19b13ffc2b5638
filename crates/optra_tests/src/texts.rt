//! The text of a plan that no command makes: one with amounts below zero.
use crate::instances::{Check, PLAIN, Rows, are_walks, check_read};
use optra_outside::{MemoryPen, Pen};
use optra_text::{FaultView, PlanView, fault_text, plan_text, text_tells_plan};
use optra_walk::{Action, Choice, Instance, Leg, Walk};
use std::alloc::{AllocError, Global};
use std::process::Abort;
use std::test::Fail;

/// The second bid's walk costs more than it brings.
static BIDS: Rows = Rows {
    bids: "b1,ann,ic,A,B,0,0,200,0,0,300,1000,0,0,0,0,0,0,0\nb2,\"bob \"\"b\"\"\",ic,A,B,5,5,5,0,0,300,10,0,0,0,0,1,0,0\n",
    ..PLAIN
};

const PLAN: &str = "status,gap
revenue,-4
bound,17
nodes,12
train,2,b2,\"bob \"\"b\"\"\",-4
leg,ab,A,5,B,19,finish,0
";

/// The second bid alone is served.
fn choice(alloc: Global) -> Result<Choice, AllocError> {
    let mut legs = Vec::new(alloc);
    legs.push(Leg {
        track: crate::decisions::AB,
        depart: 5,
        from_halt: true,
        action: Action::Finish,
    })?;
    let mut walks = Vec::new(alloc);
    walks.push(None)?;
    walks.push(Some(Walk { legs }))?;
    Ok(Choice { walks })
}

/// The text of the choice, with these amounts.
fn check_text(
    rt: &(impl Abort + AllocGlobal),
    inst: Instance<'_>,
    choice: &Choice,
) -> Result<(), Fail> {
    assert!(rt; are_walks(inst.net, inst.bids, &choice.walks));
    text_tells_plan(inst);
    let view = PlanView {
        inst,
        choice,
        revenue: -4,
        bound: 17,
        nodes: 12,
    };
    let text = plan_text(rt.alloc(), view)?;
    assert_eq!(rt; text.as_slice(), PLAN.as_bytes());
    Ok(())
}

struct BelowZero;

impl Check for BelowZero {
    fn check<R: Abort + AllocGlobal>(&self, rt: &R, inst: Instance<'_>) -> Result<(), Fail> {
        let choice = choice(rt.alloc())?;
        check_text(rt, inst, &choice)
    }
}

#[test]
fn amounts_below_zero_are_printed(rt: HostRuntime) -> Result<(), Fail> {
    check_read(&rt, &BIDS, &BelowZero)
}

#[test]
fn a_failing_pen_has_a_first_part_of_a_line(rt: HostRuntime) -> Result<(), Fail> {
    let alloc = rt.alloc();
    let mut pen = MemoryPen::new(alloc, 1000, vec![in alloc; 2]?, 3)?;
    assert!(rt; fault_text(&mut pen, FaultView::Read("net/tracks.csv")).is_err());
    assert_eq!(rt; pen.bytes(), b"read fault: net".as_slice());
    Ok(())
}
