//! The bytes that the lines of a sheet mean.
ghost use Rattle.std.specs.Prelude.{◌<◌, length, IfSome};

use crate::faults::Wrong;
use std::alloc::{AllocError, Global};

/// The lines, each with a line feed.
pub fn plain(alloc: Global, lines: &[&str]) -> Result<Vec<u8>, AllocError> {
    let mut bytes = Vec::new(alloc);
    for line in lines {
        bytes.extend_from_slice(line.as_bytes())?;
        bytes.push(b'\n')?;
    }
    Ok(bytes)
}

/// So many lines: each its number, from 0, and the same behind it.
pub fn numbered(alloc: Global, count: u64, rest: &str) -> Result<String, AllocError> {
    let mut lines = String::new(alloc);
    for number in 0..count {
        let line = format!(in alloc; "{number}{rest}\n")?;
        lines.push_str(line.as_str())?;
    }
    Ok(lines)
}

/// The same bytes so many times, one time behind the other.
pub fn repeated(alloc: Global, once: &[u8], count: u64) -> Result<Vec<u8>, AllocError> {
    let mut bytes = Vec::new(alloc);
    for _ in 0..count {
        bytes.extend_from_slice(once)?;
    }
    Ok(bytes)
}

/// Bytes, and others behind them.
pub fn joined(alloc: Global, front: &[u8], back: &[u8]) -> Result<Vec<u8>, AllocError> {
    let mut bytes = Vec::from_slice(alloc, front)?;
    bytes.extend_from_slice(back)?;
    Ok(bytes)
}

/// The lines, one straight behind another, with the escapes `\n`, `\r`, `\t`, `\\` and `\xHH`.
pub fn escaped(alloc: Global, lines: &[&str]) -> Result<Vec<u8>, Wrong> {
    let mut bytes = Vec::new(alloc);
    for line in lines {
        let mut rest = line.as_bytes();
        'bytes: while let Some((byte, after)) = next_byte(rest) {
            bytes.push(byte)?;
            rest = after;
        }
        if !rest.is_empty() {
            return Err(Wrong::Escape);
        }
    }
    Ok(bytes)
}

// The first byte that is meant, and what stands behind it.
fn next_byte(text: &[u8]) -> Option<(u8, &[u8])>
    ensures { IfSome result (λ next. length next.1.now < length text.now) }
{
    match text {
        [b'\\', b'n', rest @ ..] => Some((b'\n', rest)),
        [b'\\', b'r', rest @ ..] => Some((b'\r', rest)),
        [b'\\', b't', rest @ ..] => Some((b'\t', rest)),
        [b'\\', b'\\', rest @ ..] => Some((b'\\', rest)),
        [b'\\', b'x', high, low, rest @ ..] => {
            Some((hex_digit(*high)? << 4 | hex_digit(*low)?, rest))
        }
        [b'\\', ..] | [] => None,
        [byte, rest @ ..] => Some((*byte, rest)),
    }
}

fn hex_digit(digit: u8) -> Option<u8>
    ensures { IfSome result (λ n. n < 16) }
{
    match digit {
        b'0'..=b'9' => Some(digit - b'0'),
        b'a'..=b'f' => Some(digit - b'a' + 10),
        _ => None,
    }
}
