//! A case is performed.
use crate::cases::{AMPLE, Case, HeldFile, PenRules, Run, Step};
use crate::printing::{print_bytes, print_puts, print_words};
use crate::watched_shelf::WatchedShelf;
use anyhow::{Result, ensure};
use optra_outside::{MemoryDisk, MemoryPen, MemoryShelf, NeverPen, NeverShelf};
use std::alloc::{AllocError, Global};
use std::io::Write;

/// Runs a case over a shelf and a disk of its own, and prints what came of each run.
pub fn perform<W: Write>(alloc: Global, name: &str, case: &Case, to: &mut W) -> Result<()> {
    let mut disk = MemoryDisk::new(alloc, AMPLE, Vec::new(alloc))?;
    perform_over(alloc, name, case, &mut disk, to)?;
    Ok(())
}

/// Runs a case over a shelf of its own and this disk, which has the journal of its auction house.
fn perform_over<W: Write>(
    alloc: Global,
    name: &str,
    case: &Case,
    disk: &mut MemoryDisk,
    to: &mut W,
) -> Result<()> {
    writeln!(to, "== {name}: {}", case.title)?;
    let rules = &case.shelf;
    let under = MemoryShelf::new(alloc, rules.limit, rules.room, rules.fails.clone()?)?;
    let mut shelf = WatchedShelf::new(alloc, under);
    for place in 0..case.steps.len() {
        match &case.steps[place] {
            Step::Load(HeldFile { name, bytes }) => shelf.under.load(name.as_str(), bytes)?,
            Step::Run(run) => perform_run(alloc, run, &mut shelf, disk, to)?,
            Step::RunNever(words) => {
                perform_never(alloc, words, &case.steps[..place], disk, to)?
            }
        }
    }
    Ok(())
}

fn perform_run<W: Write>(
    alloc: Global,
    run: &Run,
    shelf: &mut WatchedShelf,
    disk: &mut MemoryDisk,
    to: &mut W,
) -> Result<()> {
    let mut out = pen(alloc, &run.out)?;
    let mut err = pen(alloc, &run.err)?;
    let status = optra_top::run(alloc, &run.words, shelf, &mut out, &mut err, disk);
    print_words(to, "run", &run.words)?;
    writeln!(to, "status {status}")?;
    print_bytes(to, "out", out.bytes())?;
    print_bytes(to, "err", err.bytes())?;
    print_puts(to, &shelf.puts)?;
    ensure!(!shelf.is_short, "no memory for a put");
    shelf.puts.clear();
    Ok(())
}

/// Runs over a shelf that never fails and has the files so far, with pens that never fail. They keep nothing, so that the
/// status is all that can be told.
fn perform_never<W: Write>(
    alloc: Global,
    words: &[String],
    before: &[Step],
    disk: &mut MemoryDisk,
    to: &mut W,
) -> Result<()> {
    let mut shelf = NeverShelf::new(alloc, AMPLE);
    for step in before {
        if let Step::Load(HeldFile { name, bytes }) = step {
            shelf.load(name.as_str(), bytes)?;
        }
    }
    let (mut out, mut err) = (NeverPen::new(), NeverPen::new());
    let status = optra_top::run(alloc, words, &mut shelf, &mut out, &mut err, disk);
    print_words(to, "never", words)?;
    writeln!(to, "status {status}")?;
    Ok(())
}

fn pen(alloc: Global, rules: &PenRules) -> Result<MemoryPen, AllocError> {
    MemoryPen::new(alloc, rules.room, rules.fails.clone()?, rules.keep)
}
