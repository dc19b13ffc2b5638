//! What a command does outside: it gets files one after the other, and puts files in a row.
ghost use Rattle.std.specs.Prelude.{◌≡◌, true, OnOk, OnErr, IfOk, IfErr, IsErrOf};
ghost use Rattle.optra_outside.specs.Shelf.{GetLeaves, PutLeaves};
ghost use Rattle.optra_frame.specs.ContentsGot.{contents_of};
ghost use Rattle.optra_frame.specs.Faults.{EndsGets};
ghost use Rattle.optra_frame.specs.Files.{HoldsAll};
ghost use Rattle.optra_frame.specs.Gets.{AreWhole};
ghost use Rattle.optra_frame.specs.Puts.{PutPart, put_in_order, texts_of};

use crate::command::Command;
use crate::fault::Fault;
use crate::files::FileText;
use crate::files_got::FilesGot;
use optra_outside::{Shelf, ShelfError};
use std::alloc::Global;

/// Gets the files of a command, each asked for by those before it. The first get that isn't `Ok` ends it.
pub fn get_files<C: Command, S: Shelf>(
    alloc: Global,
    command: &C,
    shelf: &mut S,
) -> Result<FilesGot, Fault>
    ensures leaves { GetLeaves (S.state shelf.old) (S.state shelf.new) }
    ensures whole { IfOk result (λ files. AreWhole (C.means command.now) (contents_of files)) }
    ensures held { IfOk result (λ files. (S.state shelf.old).tells ≡ true
        → HoldsAll (S.state shelf.old) (contents_of files)) }
    ensures fault { IfErr result (λ fault. EndsGets (C.means command.now) (S.state shelf.old)
        (S.state shelf.new) fault) }
{
    let mut files = FilesGot::new(alloc)?;
    'gets: while let Some(asked) = command.next_file(alloc, &files)? {
        let content = match shelf.get(alloc, asked.name.as_str()) {
            Ok(content) => content,
            Err(why) => return Err(Fault::of_get(why, asked.name)),
        };
        files.push(alloc, asked, content)?;
    }
    Ok(files)
}

/// Puts files, in order. The first put that isn't `Ok` ends it.
pub fn put_all<S: Shelf>(shelf: &mut S, files: &[FileText]) -> Result<(), ShelfError>
    ensures leaves { PutLeaves (S.state shelf.old) (S.state shelf.new) }
    ensures ok { OnOk result ((S.state shelf.new).tells ≡ true → (S.state shelf.new).files
        ≡ put_in_order (texts_of files.now) (S.state shelf.old).files) }
    ensures only { OnErr result (IsErrOf result ShelfError.Failed) }
    ensures part { OnErr result (PutPart (S.state shelf.old) (S.state shelf.new)
        (texts_of files.now)) }
{
    for file in files {
        shelf.put(file.name.as_str(), &file.text)?;
    }
    Ok(())
}
