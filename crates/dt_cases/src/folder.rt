// The files of cases.
use crate::error::CaseErr;
use crate::text::split_word;
use std::alloc::AllocError;
use std::fs::{self, File};
use std::io;
use std::rt::Files;

/// The paths of all files of cases below a folder, in order: each folder in its `cases` is a group of them.
pub fn case_files<R: Files + AllocGlobal + Clone + Drop>(
    rt: &R,
    folder: &str,
) -> io::Result<Vec<String>> {
    let mut files = Vec::new(rt.alloc());
    for group in names(rt, format!(in rt.alloc(); "{folder}/cases")?.as_str())? {
        let path = format!(in rt.alloc(); "cases/{group}")?;
        for name in names(rt, format!(in rt.alloc(); "{folder}/{path}")?.as_str())? {
            files.push(format!(in rt.alloc(); "{path}/{name}")?)?;
        }
    }
    Ok(files)
}

// The names in a directory, in order.
fn names<R: Files + AllocGlobal + Clone + Drop>(rt: &R, path: &str) -> io::Result<Vec<String>> {
    let mut names = Vec::new(rt.alloc());
    for entry in fs::read_dir(rt, path)? {
        names.push(String::from_str(rt.alloc(), entry?.file_name())?)?;
    }
    names.sort()?;
    Ok(names)
}

/// The lines of a file. In place of each line `include FILE` stand those of that file, and a line that ends with a
/// backslash goes on in the next one.
pub fn read_lines<R: Files + AllocGlobal>(
    rt: &R,
    folder: &str,
    file: &str,
) -> Result<String, CaseErr> {
    let text = read(rt, folder, file)?;
    let mut lines = String::new(rt.alloc());
    for line in text.lines() {
        match split_word(line) {
            ("include", name) => lines.push_str(read(rt, folder, name)?.as_str())?,
            _ => add_line(&mut lines, line)?,
        }
    }
    Ok(lines)
}

// Adds a line, or the part of one.
fn add_line(lines: &mut String, line: &str) -> Result<(), AllocError> {
    match line.strip_suffix('\\') {
        Some(part) => lines.push_str(part),
        None => {
            lines.push_str(line)?;
            lines.push('\n')
        }
    }
}

/// The text of a file below a folder.
pub fn read<R: Files + AllocGlobal>(rt: &R, folder: &str, file: &str) -> io::Result<String> {
    fs::read_to_string(rt, format!(in rt.alloc(); "{folder}/{file}")?.as_str())
}
