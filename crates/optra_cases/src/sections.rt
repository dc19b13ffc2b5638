//! The sections of a sheet: its heads, each with the lines below it.
use std::alloc::{AllocError, Global};

/// A line that begins with `== ` or `-- `, and the lines below it up to the next such line, without the empty ones
/// at their end.
#[derive(Drop)]
pub struct Section<'a> {
    /// The number of the line that begins it.
    pub line: u32,
    pub head: &'a str,
    pub body: Vec<&'a str>,
}

/// The sections of a sheet, in order. What stands above the first one is a note.
pub fn sections<'a>(alloc: Global, text: &'a str) -> Result<Vec<Section<'a>>, AllocError> {
    let mut sections: Vec<Section<'a>> = Vec::new(alloc);
    let mut number = 0u32;
    for line in text.split_terminator('\n') {
        number = number.saturating_add(1);
        if line.starts_with("== ") || line.starts_with("-- ") {
            let body = Vec::new(alloc);
            sections.push(Section {
                line: number,
                head: line,
                body,
            })?;
        } else if let Some(section) = sections.last_mut() {
            section.body.push(line)?;
        }
    }
    for section in sections.iter_mut() {
        drop_empty_end(&mut section.body);
    }
    Ok(sections)
}

fn drop_empty_end(lines: &mut Vec<&str>) {
    match lines.iter().rposition(|line| !line.is_empty()) {
        Some(last) => lines.truncate(last + 1),
        None => lines.clear(),
    }
}
