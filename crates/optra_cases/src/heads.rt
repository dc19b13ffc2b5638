//! What the heads of a sheet mean.
use crate::cases::{Case, PenRules, ShelfRules};
use crate::faults::Wrong;
use crate::sections::Section;
use crate::texts::{escaped, joined, numbered, plain, repeated};
use indexmap::IndexMap;
use std::alloc::{AllocError, Global};

/// Does what a section says to the case in which it stands.
pub fn apply(
    alloc: Global,
    section: &Section<'_>,
    case: &mut Case,
    earlier: &IndexMap<String, Case>,
) -> Result<(), Wrong> {
    let words: Vec<&str> = section.head.split_whitespace().skip(1).collect(alloc)?;
    match words.as_slice() {
        ["like", name] => {
            let other = earlier.get(*name).ok_or(Wrong::Unknown)?;
            case.take_over(alloc, other)?;
        }
        ["run"] => case.run(alloc, owned(alloc, &section.body)?)?,
        ["run", words @ ..] => case.run(alloc, owned(alloc, words)?)?,
        ["never", words @ ..] => case.run_never(owned(alloc, words)?)?,
        ["shelf", rule, values @ ..] => set_shelf(alloc, &mut case.shelf, rule, values)?,
        ["out", rule, values @ ..] => set_pen(alloc, &mut case.out, rule, values)?,
        ["err", rule, values @ ..] => set_pen(alloc, &mut case.err, rule, values)?,
        ["absent", name] => case.unload(name),
        [kind, name, values @ ..] => {
            let bytes = content(alloc, section, case, kind, name, values)?;
            case.load(alloc, name, bytes)?;
        }
        _ => return Err(Wrong::Head),
    }
    Ok(())
}

// What a head of this kind has a file hold.
fn content(
    alloc: Global,
    section: &Section<'_>,
    case: &Case,
    kind: &str,
    name: &str,
    values: &[&str],
) -> Result<Vec<u8>, Wrong> {
    let content = match (kind, values) {
        ("file", []) => plain(alloc, &section.body)?,
        ("bytes", []) => escaped(alloc, &section.body)?,
        ("rows", []) => joined(alloc, case.header(name), &plain(alloc, &section.body)?)?,
        ("more", []) => joined(alloc, case.content(name), &plain(alloc, &section.body)?)?,
        ("many", [count, rest]) => {
            let lines = numbered(alloc, number(&[count])?, rest)?;
            joined(alloc, case.content(name), lines.as_bytes())?
        }
        ("repeat", [count]) => {
            let once = plain(alloc, &section.body)?;
            let lines = repeated(alloc, &once, number(&[count])?)?;
            joined(alloc, case.content(name), &lines)?
        }
        _ => return Err(Wrong::Head),
    };
    Ok(content)
}

fn set_shelf(
    alloc: Global,
    shelf: &mut ShelfRules,
    rule: &str,
    values: &[&str],
) -> Result<(), Wrong> {
    match rule {
        "limit" => shelf.limit = number(values)?,
        "room" => shelf.room = number(values)?,
        "fails" => shelf.fails = numbers(alloc, values)?,
        _ => return Err(Wrong::Head),
    }
    Ok(())
}

fn set_pen(alloc: Global, pen: &mut PenRules, rule: &str, values: &[&str]) -> Result<(), Wrong> {
    match rule {
        "keep" => pen.keep = number(values)?,
        "room" => pen.room = number(values)?,
        "fails" => pen.fails = numbers(alloc, values)?,
        _ => return Err(Wrong::Head),
    }
    Ok(())
}

fn number(values: &[&str]) -> Result<u64, Wrong> {
    match values {
        [value] => match value.parse::<u64>() {
            Ok(number) => Ok(number),
            Err(_) => Err(Wrong::Number),
        },
        _ => Err(Wrong::Number),
    }
}

fn numbers(alloc: Global, values: &[&str]) -> Result<Vec<u64>, Wrong> {
    let mut numbers = Vec::new(alloc);
    for value in values {
        numbers.push(number(&[*value])?)?;
    }
    Ok(numbers)
}

fn owned(alloc: Global, words: &[&str]) -> Result<Vec<String>, AllocError> {
    let mut owned = Vec::new(alloc);
    for word in words {
        owned.push(String::from_str(alloc, word)?)?;
    }
    Ok(owned)
}
