//! The files of what is stored.
use std::alloc::{AllocError, Global};
use std::rt::Files;
use std::{fs, io, str};

/// What the file of this name has, or, if it ends with `.times`, stands for. One that cannot be read is named.
pub fn file<R: Files + Print + AllocGlobal>(rt: &R, name: &str) -> io::Result<Vec<u8>> {
    let found = fs::read(rt, name);
    if found.is_err() {
        println!(rt; "not to be read: {name}")?;
    }
    let bytes = found?;
    if name.ends_with(".times") {
        return Ok(expanded(rt.alloc(), text_of(&bytes))?.into_bytes());
    }
    Ok(bytes)
}

/// What a text stands for that has a line for each part: how many times it comes, and then the part.
fn expanded(alloc: Global, text: &str) -> Result<String, AllocError> {
    let mut all = String::new(alloc);
    for line in text.lines() {
        let (times, part) = line.split_once(" ").unwrap_or(("0", ""));
        for number in 1..=times.parse::<u64>().unwrap_or(0) {
            push_part(&mut all, part, number)?;
        }
    }
    Ok(all)
}

/// Appends a part that comes for so many times: with that number for `#`, twice it for `%`, and the end of a line for `|`.
fn push_part(all: &mut String, part: &str, number: u64) -> Result<(), AllocError> {
    for letter in part.chars() {
        match letter {
            '#' => write!(all, "{number}")?,
            '%' => write!(all, "{}", number.wrapping_mul(2))?,
            '|' => all.push('\n')?,
            _ => all.push(letter)?,
        }
    }
    Ok(())
}

/// A text of these bytes, or none.
pub fn text_of(bytes: &[u8]) -> &str {
    str::from_utf8(bytes).unwrap_or("")
}
