//! The demo command: tables that are drawn from a seed and a size, their plan, and the check of its certificate.
ghost use Rattle.std.specs.Prelude.{◌≡◌, ◌⊎◌, ◌≤◌, IfOk, IfErr};
ghost use Rattle.optra_bid.specs.Instances.{IsInstance};
ghost use Rattle.optra_tables.specs.Networks.{HasHeadwaysAlone, HasItsVersion, network_of};
ghost use Rattle.optra_tables.specs.Outcomes.{Gives};
ghost use Rattle.optra_top.specs.DemoCommand.{DemoReplies, PrintsHeadwayDemo, demo_meaning};
ghost use Rattle.optra_frame.specs.Statuses.{gap_status, optimal_status};
ghost use Rattle.optra_top.specs.PlanLaws.{tables_of};
ghost use Rattle.optra_frame.specs.Puts.{texts_of};
ghost use Rattle.optra_frame.specs.Replies.{reply_of};
ghost use Rattle.optra_top.specs.MadeTables.{made_net_files};
ghost use Rattle.optra_frame.specs.TablesRead.{tables_seen};

use crate::plan_command::status;
use optra_cert::{text_has_no_fault, text_tells_cert, valid_is_writable, write_certificate};
use optra_demo::{DemoTables, make};
use optra_frame::{Answer, Tables, Version};
use optra_network::{Network, NoMemory};
use optra_play::{certificate_of, plan_by};
use optra_rows::HeadwayRows;
use optra_search::Limits;
use optra_tables::{NetFiles, ReadError, read_bids, read_network};
use optra_text::{PlanView, demo_text};
use optra_verdict::{headway_rows_are_told, headways_tell_conflicts, verdict_on};
use optra_walk::Instance;
use std::alloc::{AllocError, Global};

/// How many price steps are made at a node.
const STEPS: u32 = 20;
/// How many nodes are taken.
const BUDGET: u64 = 5;

/// Makes the tables, reads them, plans, and checks the plan's certificate as it is written. It errs by want of memory alone:
/// the tables by the rule are accepted.
pub fn reply(alloc: Global, seed: u32, size: u8) -> Result<Answer, ReadError>
    requires least { 1 ≤ size }
    requires most { size ≤ 9 }
    ensures ok { IfOk result (λ answer. DemoReplies seed size (reply_of answer)) }
    ensures done { IfOk result (λ answer. (answer.status ≡ optimal_status)
        ⊎ (answer.status ≡ gap_status)) }
    ensures fault { IfErr result (λ error. error ≡ ReadError.NoMemory) }
{
    let Ok(tables) = read_demo(alloc, seed, size) else {
        return Err(ReadError::NoMemory);
    };
    tables.net.laws();
    let inst = Instance {
        net: &tables.net,
        bids: &tables.bids,
    };
    let answer = answer(alloc, seed, size, inst);
    drop(tables);
    let Ok(answer) = answer else {
        return Err(ReadError::NoMemory);
    };
    Ok(answer)
}

/// The network and the bids that the tables by the rule mean.
fn read_demo(alloc: Global, seed: u32, size: u8) -> Result<Tables, NoMemory>
    requires least { 1 ≤ size }
    requires most { size ≤ 9 }
    ensures read { IfOk result (λ tables. demo_meaning seed size ≡ Ok (tables_seen tables)) }
    ensures instance { IfOk result (λ tables. IsInstance tables.net tables.bids.items) }
    ensures alone { IfOk result (λ tables. HasHeadwaysAlone tables.net) }
{
    let made = make(alloc, seed, size)?;
    let net = match read_made_net(alloc, &made) {
        Ok(net) => net,
        Err(ReadError::NoMemory) => return Err(AllocError),
        Err(ReadError::Fault(_)) => unreachable!(),
    };
    match read_bids(alloc, &net, &made.bids, &made.stops) {
        Ok(bids) => Ok(Tables {
            version: Version::First,
            net,
            bids,
        }),
        Err(ReadError::NoMemory) => {
            drop(net);
            Err(AllocError)
        }
        Err(ReadError::Fault(_)) => unreachable!(),
    }
}

/// The network that its tables mean.
fn read_made_net(alloc: Global, made: &DemoTables) -> Result<Network, ReadError>
    requires { HasItsVersion (made_net_files made.now) }
    ensures gives { Gives (λ net. net) result (network_of (made_net_files made.now)) }
    ensures alone { IfOk result (λ net. HasHeadwaysAlone net) }
{
    let files = NetFiles {
        stations: &made.stations,
        tracks: &made.tracks,
        types: &made.types,
        running: &made.running,
        headways: &made.headways,
        crossings: None,
    };
    read_network(alloc, &files)
}

/// Plans the bids on their network, checks the plan's certificate as it is written, and prints how both ended.
fn answer(alloc: Global, seed: u32, size: u8, inst: Instance<'_>) -> Result<Answer, NoMemory>
    requires alone { HasHeadwaysAlone inst.net.now }
    ensures { IfOk result (λ answer. PrintsHeadwayDemo seed size
        (tables_of Version.First inst.entry.net.now inst.entry.bids.now) answer.status
        answer.text.items (texts_of answer.puts.items)) }
{
    let rows = HeadwayRows::new();
    headways_tell_conflicts(inst);
    headway_rows_are_told(inst.net);
    let limits = Limits {
        steps: STEPS,
        budget: BUDGET,
    };
    let plan = plan_by(alloc, inst, &rows, limits)?;
    let nodes = plan.nodes;
    let cert = certificate_of(plan);
    valid_is_writable(inst, &rows);
    let bytes = write_certificate(alloc, inst, &rows, &cert)?;
    text_tells_cert(inst, &rows);
    text_has_no_fault(inst, &rows);
    let verdict = verdict_on(alloc, inst, &rows, &bytes)?;
    let view = PlanView {
        inst,
        choice: &cert.choice,
        revenue: cert.revenue,
        bound: cert.bound,
        nodes,
    };
    let text = demo_text(alloc, seed, size, view, verdict)?;
    let status = status(cert.revenue, cert.bound);
    let puts = Vec::new(alloc);
    Ok(Answer { status, text, puts })
}
