// The lines of a file, case by case.
use crate::error::CaseErr;
use crate::numbers::Numbers;
use crate::text::{is_blank, split_word, unreadable};
use std::alloc::{AllocError, Global};

/// The lines that say something of all cases, and those of each case.
#[derive(Drop)]
pub struct Blocks<'a> {
    pub head: Vec<&'a str>,
    pub cases: Vec<Vec<&'a str>>,
}

impl<'a> Blocks<'a> {
    /// Those of a text: each case begins with a line `case`.
    pub fn of(alloc: Global, text: &'a str) -> Result<Self, AllocError> {
        let mut blocks = Blocks {
            head: Vec::new(alloc),
            cases: Vec::new(alloc),
        };
        for line in text.lines() {
            if !is_blank(line) {
                blocks.add(alloc, line.trim())?;
            }
        }
        Ok(blocks)
    }

    fn add(&mut self, alloc: Global, line: &'a str) -> Result<(), AllocError> {
        if split_word(line).0 == "case" {
            self.cases.push(Vec::new(alloc))?;
        }
        match self.cases.last_mut() {
            Some(case) => case.push(line)?,
            None => self.head.push(line)?,
        }
        Ok(())
    }
}

/// Lines with the steps that the lines `do NAME` among them name: those of the head between `steps NAME` and `end`.
pub fn with_steps<'a>(
    alloc: Global,
    lines: &[&'a str],
    head: &[&'a str],
) -> Result<Vec<&'a str>, CaseErr> {
    let mut all = Vec::new(alloc);
    for line in lines {
        match split_word(line) {
            ("do", name) => all.extend_from_slice(named_steps(alloc, head, name)?.as_slice())?,
            _ => all.push(*line)?,
        }
    }
    Ok(all)
}

// The steps of this name.
fn named_steps<'a>(alloc: Global, head: &[&'a str], name: &str) -> Result<Vec<&'a str>, CaseErr> {
    let mut steps = Vec::new(alloc);
    let mut within = false;
    for line in head {
        match split_word(line) {
            ("steps", other) => within = other == name,
            ("end", _) => within = false,
            _ if within => steps.push(*line)?,
            _ => {}
        }
    }
    if steps.is_empty() {
        Err(unreadable(alloc, name))
    } else {
        Ok(steps)
    }
}

/// The lines of the head that are no steps with a name.
pub fn without_steps<'a>(alloc: Global, head: &[&'a str]) -> Result<Vec<&'a str>, AllocError> {
    let mut lines = Vec::new(alloc);
    let mut within = false;
    for line in head {
        match split_word(line).0 {
            "steps" => within = true,
            "end" => within = false,
            _ if within => {}
            _ => lines.push(*line)?,
        }
    }
    Ok(lines)
}

/// What stands in a row for each name of a column.
#[derive(Drop)]
pub struct Row<'a> {
    names: Vec<&'a str>,
    cells: Vec<String>,
}

/// The rows with which the lines of a case are to be read: those of its lines `row`, whose cells `|` parts and the line
/// `columns` names; one for each number of a line `each NAME FIRST..LAST`; or one without cells.
pub fn rows<'a>(
    alloc: Global,
    lines: &[&'a str],
    numbers: &Numbers,
) -> Result<Vec<Row<'a>>, CaseErr> {
    let mut rows = Vec::new(alloc);
    let mut names = Vec::new(alloc);
    let mut alone = true;
    for line in lines {
        match split_word(line) {
            ("columns", words) => {
                names = words.split_whitespace().collect(alloc)?;
                alone = false;
            }
            ("row", cells) => rows.push(Row::of(alloc, &names, cells)?)?,
            ("each", words) => {
                add_each(alloc, &mut rows, words, numbers)?;
                alone = false;
            }
            _ => {}
        }
    }
    if alone {
        rows.push(Row::of(alloc, &[], "")?)?;
    }
    if rows.is_empty() {
        return Err(unreadable(alloc, "columns without rows"));
    }
    Ok(rows)
}

// Adds a row for each number.
fn add_each<'a>(
    alloc: Global,
    rows: &mut Vec<Row<'a>>,
    words: &'a str,
    numbers: &Numbers,
) -> Result<(), CaseErr> {
    let (name, range) = split_word(words);
    for number in numbers.list(range)? {
        let cell = format!(in alloc; "{number}")?;
        rows.push(Row::of(alloc, &[name], cell.as_str())?)?;
    }
    Ok(())
}

impl<'a> Row<'a> {
    // A row of a table with these columns.
    fn of(alloc: Global, names: &[&'a str], text: &str) -> Result<Self, CaseErr> {
        let mut cells = Vec::new(alloc);
        if !names.is_empty() {
            for cell in text.split(" | ") {
                cells.push(String::from_str(alloc, cell.trim())?)?;
            }
        }
        if cells.len() == names.len() && (!names.is_empty() || text.is_empty()) {
            let names = Vec::from_slice(alloc, names)?;
            Ok(Row { names, cells })
        } else {
            Err(unreadable(alloc, text))
        }
    }

    /// A line with the cells in place of the names in braces.
    pub fn filled(&self, alloc: Global, line: &str) -> Result<String, CaseErr> {
        let mut filled = String::new(alloc);
        let mut rest = line;
        for _ in 0..line.len() {
            let Some((before, behind)) = rest.split_once('{') else {
                break;
            };
            let Some((name, behind)) = behind.split_once('}') else {
                return Err(unreadable(alloc, line));
            };
            filled.push_str(before)?;
            filled.push_str(self.cell(alloc, name)?)?;
            rest = behind;
        }
        filled.push_str(rest)?;
        Ok(filled)
    }

    // What stands for a name.
    fn cell(&self, alloc: Global, name: &str) -> Result<&str, CaseErr> {
        for (other, cell) in self.names.iter().zip(&self.cells) {
            if *other == name {
                return Ok(cell.as_str());
            }
        }
        Err(unreadable(alloc, name))
    }
}

/// A line says of which rows a case consists.
pub fn is_of_rows(line: &str) -> bool {
    matches!(split_word(line).0, "columns" | "row" | "each")
}
