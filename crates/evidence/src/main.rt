//! The evidence that a certificate gives each bid, as a program: the words of its command line, real files, standard output and
//! standard error.
#![tactic(auto)]

use optra_outside::{FileDisk, FolderShelf, Pen, StdPen};
use std::alloc::Global;
use std::io::{Error, ErrorKind};
use std::process::ExitCode;
use std::rt::Env;
use std::{env, fs};

// A file that is always there and never holds anything.
const NOTHING: &str = "/dev/null";

fn main(rt: HostRuntime) -> ExitCode {
    // A program may begin with some of the descriptors 0 to 2 closed, and then the next files that are opened get these. So files
    // that can't be written are opened before all others: no text for standard output or standard error is ever written to a
    // file, and a closed one fails as it is. Where they can't be opened, nothing is held.
    let _held = [
        fs::open(&rt, NOTHING),
        fs::open(&rt, NOTHING),
        fs::open(&rt, NOTHING),
    ];
    let alloc = rt.alloc();
    let mut shelf = FolderShelf::new(&rt);
    let mut out = StdPen::new(rt.stdout());
    let mut err = StdPen::new(rt.stderr());
    let words = match arguments(&rt) {
        Ok(words) => words,
        // A word that is no text makes the words no command form, as having none does.
        Err(Unusable::NotText) => Vec::new(alloc),
        Err(Unusable::NoMemory) => {
            let _ = err.write(b"no memory\n");
            return ExitCode::from(8);
        }
    };
    let mut disk = FileDisk::new(&rt);
    ExitCode::from(optra_evidence_top::run(
        alloc, &words, &mut shelf, &mut out, &mut err, &mut disk,
    ))
}

// Why the words of the command line can't be used.
#[derive(Clone, Copy)]
enum Unusable {
    NotText,
    NoMemory,
}

// The words after the program's name.
fn arguments(rt: &(impl Env + AllocGlobal)) -> Result<Vec<String>, Unusable> {
    let all = match env::args(rt) {
        Ok(all) => all,
        Err(error) => return Err(why_unusable(&error)),
    };
    let mut words = Vec::<String, Global>::new(rt.alloc());
    for word in all.skip(1) {
        if words.push(word).is_err() {
            return Err(Unusable::NoMemory);
        }
    }
    Ok(words)
}

fn why_unusable(error: &Error) -> Unusable {
    match error.kind() {
        ErrorKind::OutOfMemory => Unusable::NoMemory,
        _ => Unusable::NotText,
    }
}
