//! Sheets: text files of cases.
use crate::cases::Case;
use crate::faults::{SheetFault, Wrong};
use crate::heads;
use crate::sections::sections;
use indexmap::IndexMap;
use std::alloc::{AllocError, Global};

/// The cases that were read so far, by name and in order. A name stands for one case in all sheets.
#[derive(Drop)]
pub struct Sheets {
    cases: IndexMap<String, Case>,
}

/// The case whose heads are being read.
#[derive(Drop)]
struct Open<'a> {
    line: u32,
    name: &'a str,
    case: Case,
}

impl Sheets {
    /// No cases.
    pub fn new(alloc: Global) -> Sheets {
        Sheets {
            cases: IndexMap::new(alloc),
        }
    }

    pub fn len(&self) -> usize {
        self.cases.len()
    }

    /// The name and the case at a place.
    pub fn get(&self, place: usize) -> Option<(&String, &Case)> {
        self.cases.get_index(place)
    }

    /// Reads one more sheet. What stands above its first head is a note. After a fault the cases above the faulty one
    /// are there.
    pub fn read(&mut self, alloc: Global, text: &str) -> Result<(), SheetFault> {
        let sections = match sections(alloc, text) {
            Ok(sections) => sections,
            Err(_) => return Err(no_memory()),
        };
        let mut open = None;
        for section in sections.iter() {
            let line = section.line;
            if let Some(text) = section.head.strip_prefix("== ") {
                self.close(alloc, open)?;
                let (name, title) = text.split_once(": ").unwrap_or((text, ""));
                open = Some(self.open(alloc, line, name, title)?);
            } else {
                let Some(open) = open.as_mut() else {
                    let wrong = Wrong::NoCase;
                    return Err(SheetFault { line, wrong });
                };
                if let Err(wrong) = heads::apply(alloc, section, &mut open.case, &self.cases) {
                    return Err(SheetFault { line, wrong });
                }
            }
        }
        self.close(alloc, open)
    }

    // A case without heads.
    fn open<'a>(
        &self,
        alloc: Global,
        line: u32,
        name: &'a str,
        title: &str,
    ) -> Result<Open<'a>, SheetFault> {
        if self.cases.get(name).is_some() {
            let wrong = Wrong::Taken;
            return Err(SheetFault { line, wrong });
        }
        match Case::new(alloc, title) {
            Ok(case) => Ok(Open { line, name, case }),
            Err(_) => Err(no_memory()),
        }
    }

    // Takes the case that has all its heads, if there is one.
    fn close(&mut self, alloc: Global, open: Option<Open<'_>>) -> Result<(), SheetFault> {
        let Some(Open { line, name, case }) = open else {
            return Ok(());
        };
        if !case.has_run() {
            let wrong = Wrong::NoRun;
            return Err(SheetFault { line, wrong });
        }
        match self.take(alloc, name, case) {
            Ok(()) => Ok(()),
            Err(_) => Err(no_memory()),
        }
    }

    fn take(&mut self, alloc: Global, name: &str, case: Case) -> Result<(), AllocError> {
        let name = String::from_str(alloc, name)?;
        self.cases.insert(name, case)?;
        Ok(())
    }
}

// Memory that couldn't be had, at no line.
fn no_memory() -> SheetFault {
    SheetFault {
        line: 0,
        wrong: Wrong::NoMemory,
    }
}
