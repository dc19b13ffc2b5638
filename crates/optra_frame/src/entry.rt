//! A run of a program: a command is carried out, or words that ask for none are answered.
ghost use Rattle.std.specs.Prelude.{◌≡◌, ◌⊎◌, IfOk, IfErr};
ghost use Rattle.optra_outside.specs.Pen.{PenState};
ghost use Rattle.optra_frame.specs.Commands.{asks};
ghost use Rattle.optra_frame.specs.ContentsGot.{contents_of};
ghost use Rattle.optra_frame.specs.Ending.{Completes, Ends, IsDone};
ghost use Rattle.optra_frame.specs.Faults.{EndsBy, line_of, status_of, unread_line, unread_status};
ghost use Rattle.optra_frame.specs.Outside.{SaysLine, outside_of};
ghost use Rattle.optra_frame.specs.Statuses.{IsFaultStatus};

use crate::command::Command;
use crate::fault::Fault;
use crate::outside::{get_files, put_all};
use crate::statuses;
use optra_outside::{Disk, Pen, Shelf};
use optra_text::{FaultView, WordsError, fault_text};
use std::alloc::Global;

/// Does what the command asks, or says the line of the fault that ended it. It answers the exit status.
///
/// What is held, printed and put is told only of a shelf, pens and a disk that tell it, as those in memory do. An `err` that fails
/// changes no status.
pub fn carry_out<C: Command, S: Shelf, O: Pen, E: Pen, D: Disk>(
    alloc: Global,
    command: &C,
    shelf: &mut S,
    out: &mut O,
    err: &mut E,
    disk: &mut D,
) -> u8
    // What each status says of the command, of the shelf, of the output and of the error line.
    ensures ends { Ends (asks (C.means command.now)) (outside_of (S.state shelf.old) (O.state out.old)
        (E.state err.old) (D.state disk.old)) (outside_of (S.state shelf.new) (O.state out.new)
        (E.state err.new) (D.state disk.new)) result }

    // Refused contents and valid input are answered as such.
    ensures completes { Completes (asks (C.means command.now)) (outside_of (S.state shelf.old)
        (O.state out.old) (E.state err.old) (D.state disk.old)) (outside_of (S.state shelf.new)
        (O.state out.new) (E.state err.new) (D.state disk.new)) result }

    // A disk is left as it was, its count included, unless the command calls it.
    ensures disk { ¬ (C.means command.now).UsesDisk → D.state disk.new ≡ D.state disk.old }

    ensures statuses { IsFaultStatus result ⊎ (C.means command.now).IsDoneStatus result }
{
    match perform(alloc, command, shelf, out, disk) {
        Ok(status) => status,
        Err(fault) => end(&fault, err),
    }
}

/// Says that words are none of a program's forms, which its usage line shows, or that there was no memory to read them. It answers the
/// exit status.
pub fn end_unread<E: Pen>(why: WordsError, forms: &str, err: &mut E) -> u8
    ensures status { result ≡ unread_status why }
    ensures says { SaysLine (E.state err.old) (E.state err.new) (unread_line why forms.now) }
{
    match why {
        WordsError::Usage => {
            let _ = fault_text(err, FaultView::Usage(forms));
            statuses::USAGE
        }
        WordsError::NoMemory => end(&Fault::NoMemory, err),
    }
}

/// Does what the command asks, and answers its status. Memory is taken before the first put.
fn perform<C: Command, S: Shelf, O: Pen, D: Disk>(
    alloc: Global,
    command: &C,
    shelf: &mut S,
    out: &mut O,
    disk: &mut D,
) -> Result<u8, Fault>
    ensures ok { IfOk result (λ status. (err : PenState)
        → IsDone (C.means command.now) (outside_of (S.state shelf.old) (O.state out.old) err
        (D.state disk.old)) (outside_of (S.state shelf.new) (O.state out.new) err
        (D.state disk.new)) status) }
    ensures fault { IfErr result (λ fault. (err err' : PenState)
        → EndsBy (C.means command.now) (outside_of (S.state shelf.old) (O.state out.old) err
        (D.state disk.old)) (outside_of (S.state shelf.new) (O.state out.new) err'
        (D.state disk.new)) fault) }
    ensures disk { ¬ (C.means command.now).UsesDisk → D.state disk.new ≡ D.state disk.old }
{
    let files = get_files(alloc, command, shelf)?;
    let answer = command.reply(alloc, files, disk)?;
    if put_all(shelf, &answer.puts).is_err() {
        return Err(Fault::Write);
    }
    match out.write(&answer.text) {
        Ok(()) => Ok(answer.status),
        Err(_) => Err(Fault::Write),
    }
}

/// Says the line of the fault that ends a command. A write that fails changes no status.
fn end<E: Pen>(fault: &Fault, err: &mut E) -> u8
    ensures status { result ≡ status_of fault.now }
    ensures says { SaysLine (E.state err.old) (E.state err.new) (line_of fault.now) }
{
    let _ = fault.write(err);
    fault.status()
}
