//! The commands of the program: which file each gets next, and what it replies to their contents. A command more is an arm more in
//! each call here.
ghost use Rattle.std.specs.Prelude.{◌≡◌, ◌≤◌};
ghost use Rattle.optra_text.specs.Ranges.{HasRanges};
ghost use Rattle.optra_top.specs.Commands.{IsToldUnread, command_of};
ghost use Rattle.optra_top.specs.WordNumbers.{budget_in, size_in};
ghost use Rattle.optra_top.specs.CommandsLawful.{each-lawful};

use crate::timetable_read::next_times_file;
use crate::{
    auction_command, audit_command, compress_command, demo_command, house_command, pay_command,
    plan_command,
};
use optra_frame::{Answer, Asked, Command, Fault, FilesGot, next_table_file};
use optra_outside::Disk;
use optra_search::Limits;
use optra_tables::ReadError;
use optra_text::Words;
use optra_verdict::{check_reply, next_check_file};
use std::alloc::{AllocError, Global};

/// A command, as words ask for it.
#[derive(Drop)]
pub struct Job {
    words: Words,
    ghost budget: { 1 ≤ budget_in words },
    ghost least_size: { 1 ≤ size_in words },
    ghost most_size: { size_in words ≤ 9 },
}

impl Job {
    /// The command that these words ask for.
    pub fn new(words: Words) -> Job
        requires { HasRanges words }
        ensures { result.words ≡ words }
    {
        Job { words }
    }
}

/// An answer, or why the tables were not read as what ended the command.
fn told(answer: Result<Answer, ReadError>) -> Result<Answer, Fault>
    ensures { IsToldUnread answer result }
{
    match answer {
        Ok(answer) => Ok(answer),
        Err(error) => Err(Fault::from(error)),
    }
}

impl Command for Job {
    ghost means = { λ job. command_of job.words };

    fn next_file(&self, alloc: Global, got: &FilesGot) -> Result<Option<Asked>, AllocError> {
        match &self.words {
            Words::Plan {
                net,
                bids,
                stops,
                ..
            }
            | Words::Pay {
                net,
                bids,
                stops,
                ..
            } => next_table_file(alloc, net.text(), bids.text(), stops.text(), got),
            Words::Audit {
                net,
                bids,
                stops,
                times,
            }
            | Words::Compress {
                net,
                bids,
                stops,
                times,
            } => {
                let (net, bids, stops) = (net.text(), bids.text(), stops.text());
                next_times_file(alloc, net, bids, stops, times.text(), got)
            }
            Words::Check {
                net,
                bids,
                stops,
                cert,
            } => {
                let (net, bids, stops) = (net.text(), bids.text(), stops.text());
                next_check_file(alloc, net, bids, stops, cert.text(), got)
            }
            Words::Auction {
                net,
                bids,
                stops,
                rules,
                actions,
                ..
            }
            | Words::House {
                net,
                bids,
                stops,
                rules,
                actions,
                ..
            } => {
                let (net, bids, stops) = (net.text(), bids.text(), stops.text());
                let (rules, actions) = (rules.text(), actions.text());
                auction_command::next_auction_file(alloc, net, bids, stops, rules, actions, got)
            }
            Words::Demo { .. } => Ok(None),
        }
    }

    fn reply<D: Disk>(
        &self,
        alloc: Global,
        files: FilesGot,
        disk: &mut D,
    ) -> Result<Answer, Fault> {
        match &self.words {
            Words::Plan {
                steps,
                budget,
                cert,
                ..
            } => {
                let (steps, budget) = (*steps, *budget);
                told(plan_command::reply(alloc, &files, Limits { steps, budget }, cert))
            }
            Words::Check { .. } => told(check_reply(alloc, &files)),
            Words::Auction { certs, .. } => told(auction_command::reply(alloc, &files, certs)),
            Words::Demo { seed, size } => told(demo_command::reply(alloc, *seed, *size)),
            Words::Audit { .. } => audit_command::reply(alloc, &files),
            Words::Pay { steps, budget, .. } => {
                let (steps, budget) = (*steps, *budget);
                told(pay_command::reply(alloc, &files, Limits { steps, budget }))
            }
            Words::House { journal, .. } => {
                house_command::reply(alloc, &files, journal.text(), disk)
            }
            Words::Compress { .. } => compress_command::reply(alloc, &files),
        }
    }

    ghost lawful = { λ job. each-lawful job.words };
}
