//! The words of the program that gives evidence, which has one form and no command.
ghost use Rattle.std.specs.Prelude.{◌≡◌, ◌≤◌, map, string_bytes, IfOk};
ghost use Rattle.clap.specs.Words.{app_of};
ghost use Rattle.optra_text.specs.Words.{Reads};
ghost use Rattle.optra_text.specs.EvidenceWords.{evidence_app, evidence_words};

use crate::command_forms::{tables_command, with_option};
use crate::path_text::PathText;
use crate::words::{
    MOST_STEPS, TablePaths, WordsError, given, matches_of, number_or, path_of, tables_given,
};
use clap::Command;
use std::alloc::{AllocError, Global};

/// The form of the program `optra_evidence`, as its usage line shows it.
pub const EVIDENCE_FORM: &str =
    "optra_evidence --net DIR --bids FILE --stops FILE --cert FILE [--steps K]";

/// What the words ask for: --net DIR --bids FILE --stops FILE --cert FILE [--steps K]
#[derive(Debug, Drop)]
pub struct EvidenceWords {
    /// The folder of the network's tables.
    pub net: PathText,
    /// The table of bids.
    pub bids: PathText,
    /// The table of stops.
    pub stops: PathText,
    /// The certificate.
    pub cert: PathText,
    /// The price steps that are tried at each leaf: 0 to 1,000, and 0 where they aren't given.
    pub steps: u32,
}

/// The form, as `clap` knows it.
fn evidence_command<'a>(alloc: Global) -> Result<Command<'a>, AllocError>
    ensures { IfOk result (λ command. app_of command ≡ evidence_app) }
{
    let command = tables_command(alloc, "optra_evidence")?;
    let command = with_option(alloc, command, "cert", true)?;
    let command = with_option(alloc, command, "steps", false)?;
    Ok(command)
}

/// Reads the words after the program's name: its options, which `clap` reads in any order, as `--net DIR` or `--net=DIR`.
///
/// `Usage` comes exactly where the words aren't of the form: where `clap` refuses them, or a value isn't in its range.
#[tactic(auto, unfolding(crate::specs::EvidenceWords::evidence_words))]
pub fn read_evidence_words(alloc: Global, words: &[String]) -> Result<EvidenceWords, WordsError>
    ensures read { Reads (λ read. read) result (evidence_words (map string_bytes words.now)) }
    ensures steps { IfOk result (λ read. read.steps ≤ 1000) }
{
    let matches = matches_of(evidence_command(alloc)?, words)?;
    let TablePaths { net, bids, stops } = tables_given(alloc, &matches)?;
    let cert = path_of(alloc, given(&matches, "cert"))?;
    let steps = number_or(0, 0, MOST_STEPS, given(&matches, "steps"))?;
    Ok(EvidenceWords {
        net,
        bids,
        stops,
        cert,
        steps: steps as u32,
    })
}
