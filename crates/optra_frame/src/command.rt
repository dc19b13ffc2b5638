//! What a command of a program is.
ghost use Rattle.std.specs.Prelude.{◌≡◌, ◌<◌, length, option_map, IfOk, IfErr, IfSome};
ghost use Rattle.optra_frame.specs.CommandLaws.{IsLawful};
ghost use Rattle.optra_frame.specs.Commands.{Meaning};
ghost use Rattle.optra_frame.specs.ContentsGot.{contents_of};
ghost use Rattle.optra_frame.specs.Faults.{EndsReply};
ghost use Rattle.optra_frame.specs.Files.{file_asked};
ghost use Rattle.optra_frame.specs.Replies.{reply_of};

use crate::answer::Answer;
use crate::fault::Fault;
use crate::files::Asked;
use crate::files_got::FilesGot;
use optra_outside::Disk;
use std::alloc::{AllocError, Global};

/// No command gets more files than this.
pub const MOST_FILES: usize = 16;

/// A command of a program: which file it gets next, and what it replies to their contents. A further command of a program is a
/// module and an arm in each of the two calls.
pub trait Command {
    /// What it is: the files that it gets, the replies that it may give, the statuses of one that did its work, and whether it calls
    /// the disk.
    ghost means: { Self → Meaning };

    /// The file that the command gets after these, or `None` once it has got all.
    fn next_file(&self, alloc: Global, got: &FilesGot) -> Result<Option<Asked>, AllocError>
        ensures next { IfOk result (λ next. option_map file_asked next
            ≡ (means self.now).next_file (contents_of got.now)) }
        ensures few { IfOk result (λ next. IfSome next
            (λ _. length (contents_of got.now) < MOST_FILES)) };

    /// The command's answer to the contents of its files, which it may keep. It errs exactly where they are refused, where a call of
    /// the disk fails, or by want of memory.
    fn reply<D: Disk>(&self, alloc: Global, files: FilesGot, disk: &mut D) -> Result<Answer, Fault>
        ensures ok { IfOk result (λ answer. (means self.now).MayReply (contents_of files)
            (D.state disk.old) (D.state disk.new) (reply_of answer)) }
        ensures done { IfOk result (λ answer. (means self.now).IsDoneStatus answer.status) }
        ensures fault { IfErr result (λ fault. EndsReply (means self.now) (contents_of files)
            (D.state disk.old) (D.state disk.new) fault) }
        ensures disk { ¬ (means self.now).UsesDisk → D.state disk.new ≡ D.state disk.old };

    /// The status of a command that did its work is none of a fault, and contents that are refused have no other reply.
    ghost lawful: { (self : Self) → IsLawful (means self) };
}
