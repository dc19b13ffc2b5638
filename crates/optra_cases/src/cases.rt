//! What a case is.
use indexmap::IndexMap;
use std::alloc::{AllocError, Global};

/// Runs over one shelf.
#[derive(Drop)]
pub struct Case {
    pub title: String,
    pub shelf: ShelfRules,
    pub steps: Vec<Step>,
    /// The pens of the next run.
    pub out: PenRules,
    pub err: PenRules,
    // What the files hold that were loaded so far.
    files: IndexMap<String, Vec<u8>>,
}

/// What is done in turn.
#[derive(Drop)]
pub enum Step {
    Load(HeldFile),
    Run(Run),
    /// A run with these words, over a shelf and pens that never fail.
    RunNever(Vec<String>),
}

#[derive(Drop)]
pub struct HeldFile {
    pub name: String,
    pub bytes: Vec<u8>,
}

#[derive(Drop)]
pub struct Run {
    pub words: Vec<String>,
    pub out: PenRules,
    pub err: PenRules,
}

/// What a shelf in memory is made with: the longest file that it gives, the room for what is put, and the numbers of the
/// calls that fail.
#[derive(Drop)]
pub struct ShelfRules {
    pub limit: u64,
    pub room: u64,
    pub fails: Vec<u64>,
}

/// What a pen in memory is made with: its room, the numbers of the writes that fail, and how many bytes these keep.
#[derive(Drop)]
pub struct PenRules {
    pub room: u64,
    pub fails: Vec<u64>,
    pub keep: u64,
}

/// The limit and the room where a sheet names none.
pub const AMPLE: u64 = 1_000_000;

impl PenRules {
    /// Those of a pen that never fails.
    pub fn new(alloc: Global) -> PenRules {
        PenRules {
            room: AMPLE,
            fails: Vec::new(alloc),
            keep: 0,
        }
    }
}

impl Case {
    /// A case without files and runs, over a shelf that never fails.
    pub fn new(alloc: Global, title: &str) -> Result<Case, AllocError> {
        Ok(Case {
            title: String::from_str(alloc, title)?,
            shelf: ShelfRules {
                limit: AMPLE,
                room: AMPLE,
                fails: Vec::new(alloc),
            },
            steps: Vec::new(alloc),
            out: PenRules::new(alloc),
            err: PenRules::new(alloc),
            files: IndexMap::new(alloc),
        })
    }

    /// What a file holds so far; nothing where it isn't there.
    pub fn content(&self, name: &str) -> &[u8] {
        match self.files.get(name) {
            Some(bytes) => bytes,
            None => &[],
        }
    }

    /// The first line of a file, with its line feed.
    pub fn header(&self, name: &str) -> &[u8] {
        let mut lines = self.content(name).split_inclusive(|byte| *byte == b'\n');
        lines.next().unwrap_or_default()
    }

    /// Has a file hold these bytes from here on.
    pub fn load(&mut self, alloc: Global, name: &str, bytes: Vec<u8>) -> Result<(), AllocError> {
        let copy = bytes.clone()?;
        self.files.insert(String::from_str(alloc, name)?, copy)?;
        let name = String::from_str(alloc, name)?;
        self.steps.push(Step::Load(HeldFile { name, bytes }))?;
        Ok(())
    }

    /// Takes a file away, as if it had never been loaded.
    pub fn unload(&mut self, name: &str) {
        let _ = self.files.shift_remove(name);
        self.steps.retain(|step| !step.loads(name));
    }

    /// Runs with these words, and with the pens that were set since the last run.
    pub fn run(&mut self, alloc: Global, words: Vec<String>) -> Result<(), AllocError> {
        let out = std::mem::replace(&mut self.out, PenRules::new(alloc));
        let err = std::mem::replace(&mut self.err, PenRules::new(alloc));
        self.steps.push(Step::Run(Run { words, out, err }))?;
        Ok(())
    }

    /// Runs with these words over a shelf and pens that never fail.
    pub fn run_never(&mut self, words: Vec<String>) -> Result<(), AllocError> {
        self.steps.push(Step::RunNever(words))?;
        Ok(())
    }

    pub fn has_run(&self) -> bool {
        self.steps.iter().any(|step| step.is_run())
    }

    /// Takes over the shelf and the files of another case, without its runs.
    pub fn take_over(&mut self, alloc: Global, other: &Case) -> Result<(), AllocError> {
        self.shelf.limit = other.shelf.limit;
        self.shelf.room = other.shelf.room;
        self.shelf.fails = other.shelf.fails.clone()?;
        for (name, bytes) in other.files.iter() {
            self.load(alloc, name.as_str(), bytes.clone()?)?;
        }
        Ok(())
    }
}

impl Step {
    fn loads(&self, name: &str) -> bool {
        match self {
            Step::Load(file) => file.name.as_str() == name,
            Step::Run(_) | Step::RunNever(_) => false,
        }
    }

    fn is_run(&self) -> bool {
        matches!(self, Step::Run(_) | Step::RunNever(_))
    }
}
