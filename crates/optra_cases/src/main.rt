//! Runs the commands over cases that are written as sheets, and prints what came of each.
//!
//! The words after the program's name are sheets, whose form stands at the top of `data/plans.sheet`. The cases are
//! performed in order. Where a sheet can't be read, one line says at which of its lines and why, the next sheet follows,
//! and the status is 1 at the end.
#![tactic(auto)]

ghost use Rattle.std.specs.Prelude.{◌≡◌, if◌then◌else◌};

mod cases;
mod faults;
mod heads;
mod performing;
mod printing;
mod sections;
mod sheets;
mod texts;
mod watched_shelf;

use anyhow::{Context, Result};
use sheets::Sheets;
use std::alloc::Global;
use std::io::{BufWriter, Write};
use std::process::ExitCode;
use std::rt::Files;
use std::{env, fs, io};

fn main(rt: HostRuntime) -> Result<ExitCode> {
    let alloc = rt.alloc();
    let mut to = BufWriter::new(alloc, io::writer(&rt))?;
    let mut sheets = Sheets::new(alloc);
    let mut faulty = false;
    for name in env::args(&rt)?.skip(1) {
        let name = name.as_str();
        if !perform_sheet(&rt, &mut sheets, name, &mut to).context(format_args!("{name}"))? {
            faulty = true;
        }
    }
    to.flush()?;
    Ok(ExitCode::from(status(faulty)))
}

/// The exit status, by whether some sheet is faulty.
fn status(faulty: bool) -> u8
    ensures { result ≡ (if faulty then 1 else 0) }
{
    u8::from(faulty)
}

/// Performs the cases of one more sheet, up to its fault if it has one, and says the fault. Tells whether it has none.
fn perform_sheet<R: Files + AllocGlobal, W: Write>(
    rt: &R,
    sheets: &mut Sheets,
    name: &str,
    to: &mut W,
) -> Result<bool> {
    let text = fs::read_to_string(rt, name)?;
    let first = sheets.len();
    let read = sheets.read(rt.alloc(), text.as_str());
    perform_from(rt.alloc(), sheets, first, to)?;
    match read {
        Ok(()) => Ok(true),
        Err(fault) => {
            writeln!(to, "{name}, {fault}")?;
            Ok(false)
        }
    }
}

/// Performs the cases from a place on.
fn perform_from<W: Write>(alloc: Global, sheets: &Sheets, first: usize, to: &mut W) -> Result<()> {
    for place in first..sheets.len() {
        if let Some((name, case)) = sheets.get(place) {
            performing::perform(alloc, name, case, to)?;
        }
    }
    Ok(())
}
