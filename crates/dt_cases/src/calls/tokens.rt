// The tokens of a line. A blank within quotes parts nothing.
use crate::error::CaseErr;
use std::alloc::Global;

/// The tokens of a line, in order.
pub fn tokens(alloc: Global, line: &str) -> Result<Vec<&str>, CaseErr> {
    let mut tokens = Vec::new(alloc);
    let mut start = 0usize;
    let mut place = Place::Plain;
    for (offset, letter) in line.char_indices() {
        if letter == ' ' && matches!(place, Place::Plain) {
            add(&mut tokens, line.get(start..offset))?;
            start = offset.saturating_add(1);
        }
        place = place.after(letter);
    }
    add(&mut tokens, line.get(start..))?;
    Ok(tokens)
}

// Adds a token, if it is one.
fn add<'a>(tokens: &mut Vec<&'a str>, token: Option<&'a str>) -> Result<(), CaseErr> {
    match token {
        Some(token) if !token.is_empty() => Ok(tokens.push(token)?),
        _ => Ok(()),
    }
}

// Where a letter stands: outside of quotes, within them, or behind a backslash.
#[derive(Clone, Copy)]
enum Place {
    Plain,
    Quoted,
    Escaped,
}

impl Place {
    // That of what stands behind a letter.
    fn after(self, letter: char) -> Place {
        match (self, letter) {
            (Place::Plain, '"') | (Place::Escaped, _) => Place::Quoted,
            (Place::Quoted, '"') => Place::Plain,
            (Place::Quoted, '\\') => Place::Escaped,
            _ => self,
        }
    }
}
