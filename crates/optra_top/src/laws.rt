//! Laws of the printed plan, of the verdict on what it puts, and of demos, each as the contract of a call that does nothing else.
ghost use Rattle.std.specs.Prelude.{◌≤◌};
ghost use Rattle.optra_top.specs.AuctionLaws.{OneTablesPlay};
ghost use Rattle.optra_top.specs.CheckLaws.{ConfirmsPlan};
ghost use Rattle.optra_top.specs.DemoCommand.{IsAcceptedDemo};
ghost use Rattle.optra_top.specs.PlanLaws.{OneText};
ghost use Rattle.optra_top.specs.PlanLaws.{HasPairs};

use optra_cert::{text_has_no_fault, text_tells_cert};
use optra_rows::HeadwayRows;
use optra_search::plan_laws;
use optra_verdict::{all_rows, all_rows_are_told, headway_rows_are_told};
use optra_walk::Instance;

/// A law, and no work: the different pairs of a bid and a leg of one of its walks stand in a list. So their number, by which a
/// budget is known to suffice, is there for every instance.
pub fn pairs_are_listed(inst: Instance<'_>)
    ensures { HasPairs inst.entry.net.now inst.entry.bids.now }
{}

/// A law, and no work: what the plan command prints of an instance, and its status, are a function of the instance, of the
/// steps and of the budget.
pub fn one_text(inst: Instance<'_>)
    ensures { OneText inst.entry.net.now inst.entry.bids.now }
{
    plan_laws(inst, &HeadwayRows::new());
    plan_laws(inst, &all_rows());
    all_rows_are_told(inst.net);
}

/// A law, and no work: what the auction command prints and puts of tables, and its status, are a function of the tables and of the
/// prefix.
pub fn one_play()
    ensures { OneTablesPlay }
{}

/// A law, and no work: what the plan command puts as its certificate, the check command answers Yes of, with the printed
/// revenue and bound.
pub fn check_confirms_plan(inst: Instance<'_>)
    ensures { ConfirmsPlan inst.entry.net.now inst.entry.bids.now }
{
    headway_rows_are_told(inst.net);
    text_tells_cert(inst, &HeadwayRows::new());
    text_has_no_fault(inst, &HeadwayRows::new());
    all_rows_are_told(inst.net);
    text_tells_cert(inst, &all_rows());
    text_has_no_fault(inst, &all_rows());
}

/// A law, and no work: the tables by the rule of a demo are accepted, for every seed and every size.
pub fn demo_is_accepted(seed: u32, size: u8)
    requires least { 1 ≤ size }
    requires most { size ≤ 9 }
    ensures { IsAcceptedDemo seed size }
{
    let _ = (seed, size);
}
