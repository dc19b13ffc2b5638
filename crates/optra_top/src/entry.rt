//! The top call.
ghost use Rattle.std.specs.Prelude.{◌≡◌, ◌⊎◌};
ghost use Rattle.optra_frame.specs.Commands.{AsksAnd, IfAsks};
ghost use Rattle.optra_frame.specs.Ending.{Completes, Ends};
ghost use Rattle.optra_frame.specs.Outside.{outside_of};
ghost use Rattle.optra_frame.specs.Statuses.{IsFaultStatus};
ghost use Rattle.optra_top.specs.Commands.{asked};

use crate::job::Job;
use optra_frame::{carry_out, end_unread};
use optra_outside::{Disk, Pen, Shelf};
use optra_text::{FORMS, read_words};
use std::alloc::Global;

/// Runs the command of these words, which are those after the program's name, and answers its exit status.
///
/// | Status | Meaning |
/// |---|---|
/// | 0 | what was asked for is printed, and each bound is its revenue; the certificate is valid; the timetable has no fault |
/// | 1 | what was asked for is printed, and a bound is above its revenue, or a payment isn't exact; the timetable has a fault |
/// | 2 | the words are no command form |
/// | 3 | the tables are refused |
/// | 4 | the certificate can't be read or isn't valid, and the verdict is printed |
/// | 5, 6, 9 | a file could not be read, isn't there, or is too long |
/// | 7 | a file could not be put, or the output failed |
/// | 8 | no memory |
/// | 10 | the journal is refused |
/// | 11 | a call of the disk failed |
///
/// From 2 on, but for 4, one line goes to `err`. An `err` that fails changes no status. What is held, printed and put is told only
/// of a shelf, pens and a disk that tell it, as those in memory do.
pub fn run<S: Shelf, O: Pen, E: Pen, D: Disk>(
    alloc: Global,
    words: &[String],
    shelf: &mut S,
    out: &mut O,
    err: &mut E,
    disk: &mut D,
) -> u8
    // What each status says of the command, of the shelf, of the output and of the error line.
    ensures ends { Ends (asked words.now) (outside_of (S.state shelf.old) (O.state out.old)
        (E.state err.old) (D.state disk.old)) (outside_of (S.state shelf.new) (O.state out.new)
        (E.state err.new) (D.state disk.new)) result }

    // Words of no form, refused contents and valid input are answered as such.
    ensures completes { Completes (asked words.now) (outside_of (S.state shelf.old)
        (O.state out.old) (E.state err.old) (D.state disk.old)) (outside_of (S.state shelf.new)
        (O.state out.new) (E.state err.new) (D.state disk.new)) result }

    // A disk is left as it was, its count included, unless the command calls it.
    ensures disk { IfAsks (asked words.now) (λ command. ¬ command.UsesDisk) → D.state disk.new
        ≡ D.state disk.old }

    ensures statuses { IsFaultStatus result ⊎ AsksAnd (asked words.now) (λ command.
        command.IsDoneStatus result) }
{
    match read_words(alloc, words) {
        Ok(words) => carry_out(alloc, &Job::new(words), shelf, out, err, disk),
        Err(why) => end_unread(why, FORMS, err),
    }
}
