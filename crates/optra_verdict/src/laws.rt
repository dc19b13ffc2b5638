//! Laws of the rules of tables and of the verdict on bytes, each as the contract of a call that does nothing else.
ghost use Rattle.optra_rows.specs.Headways.{KeepsHeadwayRule};
ghost use Rattle.optra_tables.specs.Networks.{HasHeadwaysAlone};
ghost use Rattle.optra_verdict.specs.Families.{KeepsAllRules};
ghost use Rattle.optra_verdict.specs.OneVerdict.{OneVerdict};
ghost use Rattle.optra_verdict.specs.Promises.{TellsConflicts};

use crate::families::{all_rows, all_rows_are_told, headway_rows_are_told};
use optra_cert::{first_fault_is_one, text_has_no_fault, text_tells_cert};
use optra_checker::verdict_is_one;
use optra_rows::HeadwayRows;
use optra_walk::Instance;

/// A law, and no work: on a network without crossings and limits of stations, a choice of an instance keeps the rule of the
/// headway rows exactly where it is free of conflict.
pub fn headways_tell_conflicts(inst: Instance<'_>)
    requires { HasHeadwaysAlone inst.net.now }
    ensures { TellsConflicts inst.entry.net.now inst.entry.bids.now
        (KeepsHeadwayRule inst.entry.net.now) }
{
    let _ = inst;
}

/// A law, and no work: a choice of an instance keeps the rule of the rows of headways, of crossings and of platforms
/// exactly where it is free of conflict.
pub fn all_rows_tell_conflicts(inst: Instance<'_>)
    ensures { TellsConflicts inst.entry.net.now inst.entry.bids.now
        (KeepsAllRules inst.entry.net.now) }
{}

/// A law, and no work: what the check command prints of bytes, and its status, are a function of the bytes and of the
/// instance.
pub fn one_verdict(inst: Instance<'_>)
    ensures { OneVerdict inst.entry.net.now inst.entry.bids.now }
{
    headway_rows_are_told(inst.net);
    text_tells_cert(inst, &HeadwayRows::new());
    text_has_no_fault(inst, &HeadwayRows::new());
    first_fault_is_one(inst, &HeadwayRows::new());
    verdict_is_one(inst, &HeadwayRows::new());
    all_rows_are_told(inst.net);
    text_tells_cert(inst, &all_rows());
    text_has_no_fault(inst, &all_rows());
    first_fault_is_one(inst, &all_rows());
    verdict_is_one(inst, &all_rows());
}
