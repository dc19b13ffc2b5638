//! The one command of the program: which file it gets next, and what it replies to their contents.
ghost use Rattle.std.specs.Prelude.{◌≡◌};
ghost use Rattle.optra_evidence_top.specs.Commands.{command_of};
ghost use Rattle.optra_evidence_top.specs.CommandsLawful.{is-lawful};

use crate::evidence_command::evidence_reply;
use optra_frame::{Answer, Asked, Command, Fault, FilesGot};
use optra_outside::Disk;
use optra_text::EvidenceWords;
use optra_verdict::next_check_file;
use std::alloc::{AllocError, Global};

/// What words ask for.
#[derive(Drop)]
pub struct Job {
    words: EvidenceWords,
}

impl Job {
    /// What these words ask for.
    pub fn new(words: EvidenceWords) -> Job
        ensures { result.words ≡ words }
    {
        Job { words }
    }
}

impl Command for Job {
    ghost means = { λ job. command_of job.words };

    fn next_file(&self, alloc: Global, got: &FilesGot) -> Result<Option<Asked>, AllocError> {
        let words = &self.words;
        let (net, bids, stops) = (words.net.text(), words.bids.text(), words.stops.text());
        next_check_file(alloc, net, bids, stops, words.cert.text(), got)
    }

    fn reply<D: Disk>(
        &self,
        alloc: Global,
        files: FilesGot,
        disk: &mut D,
    ) -> Result<Answer, Fault> {
        let _ = disk;
        match evidence_reply(alloc, &files) {
            Ok(answer) => Ok(answer),
            Err(error) => Err(Fault::from(error)),
        }
    }

    ghost lawful = { λ job. is-lawful job.words };
}
