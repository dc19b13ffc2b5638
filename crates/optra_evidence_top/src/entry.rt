//! The top call.
ghost use Rattle.std.specs.Prelude.{◌≡◌, ◌⊎◌};
ghost use Rattle.optra_frame.specs.Commands.{AsksAnd};
ghost use Rattle.optra_frame.specs.Ending.{Completes, Ends};
ghost use Rattle.optra_frame.specs.Outside.{outside_of};
ghost use Rattle.optra_frame.specs.Statuses.{IsFaultStatus};
ghost use Rattle.optra_evidence_top.specs.Commands.{asked};

use crate::job::Job;
use optra_frame::{carry_out, end_unread};
use optra_outside::{Disk, Pen, Shelf};
use optra_text::{EVIDENCE_FORM, read_evidence_words};
use std::alloc::Global;

/// Gives the evidence that these words ask for, which are those after the program's name, and answers the exit status.
///
/// | Status | Meaning |
/// |---|---|
/// | 0 | the certificate is valid, and its evidence is printed |
/// | 2 | the words aren't of the form |
/// | 3 | the tables are refused |
/// | 4 | the certificate can't be read or isn't valid, and the verdict is printed |
/// | 5, 6, 9 | a file could not be read, isn't there, or is too long |
/// | 7 | the output failed |
/// | 8 | no memory |
///
/// From 2 on, but for 4, one line goes to `err`. An `err` that fails changes no status. What is held and printed is told only of a
/// shelf and pens that tell it, as those in memory do. The disk is never called.
pub fn run<S: Shelf, O: Pen, E: Pen, D: Disk>(
    alloc: Global,
    words: &[String],
    shelf: &mut S,
    out: &mut O,
    err: &mut E,
    disk: &mut D,
) -> u8
    // What each status says of the words, of the shelf, of the output and of the error line.
    ensures ends { Ends (asked words.now) (outside_of (S.state shelf.old) (O.state out.old)
        (E.state err.old) (D.state disk.old)) (outside_of (S.state shelf.new) (O.state out.new)
        (E.state err.new) (D.state disk.new)) result }

    // Words of another form, refused contents and valid input are answered as such.
    ensures completes { Completes (asked words.now) (outside_of (S.state shelf.old)
        (O.state out.old) (E.state err.old) (D.state disk.old)) (outside_of (S.state shelf.new)
        (O.state out.new) (E.state err.new) (D.state disk.new)) result }

    // A disk is left as it was, its count included.
    ensures disk { D.state disk.new ≡ D.state disk.old }

    ensures statuses { IsFaultStatus result ⊎ AsksAnd (asked words.now) (λ command.
        command.IsDoneStatus result) }
{
    match read_evidence_words(alloc, words) {
        Ok(words) => carry_out(alloc, &Job::new(words), shelf, out, err, disk),
        Err(why) => end_unread(why, EVIDENCE_FORM, err),
    }
}
