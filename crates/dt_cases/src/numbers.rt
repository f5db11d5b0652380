// Numbers, and their names.
ghost use Rattle.std.specs.Prelude.{◌≤◌};

use crate::error::CaseErr;
use crate::folder::read;
use crate::text::{is_blank, split_word, unreadable};
use std::alloc::{AllocError, Global};
use std::fs::File;
use std::rt::Files;

/// A name, and its number.
#[derive(Drop)]
struct Named {
    name: String,
    number: i64,
}

/// The numbers that have names.
#[derive(Drop)]
pub struct Numbers {
    alloc: Global,
    named: Vec<Named>,
}

impl Numbers {
    /// No numbers.
    pub fn new(alloc: Global) -> Self {
        Numbers {
            alloc,
            named: Vec::new(alloc),
        }
    }

    /// Those that the file `numbers` of a folder names: a name and a number on each line.
    pub fn read<R: Files + AllocGlobal>(rt: &R, folder: &str) -> Result<Self, CaseErr> {
        let text = read(rt, folder, "numbers")?;
        let mut numbers = Numbers::new(rt.alloc());
        for line in text.lines() {
            if !is_blank(line) {
                numbers.add_line(line)?;
            }
        }
        Ok(numbers)
    }

    /// The same numbers once more.
    pub fn copy(&self, alloc: Global) -> Result<Self, AllocError> {
        let mut numbers = Numbers::new(alloc);
        for named in &self.named {
            numbers.add(named.name.as_str(), named.number)?;
        }
        Ok(numbers)
    }

    /// Gives a number a name, which hides what had it.
    pub fn add(&mut self, name: &str, number: i64) -> Result<(), AllocError> {
        let name = String::from_str(self.alloc, name)?;
        self.named.push(Named { name, number })?;
        Ok(())
    }

    /// Gives a number a name, as a line says: the name, and the number as other names and digits give it.
    pub fn add_line(&mut self, line: &str) -> Result<(), CaseErr> {
        let (name, text) = split_word(line);
        let number = self.number(text)?;
        Ok(self.add(name, number)?)
    }

    /// The number that a word gives: names and numbers, decimal or hexadecimal, joined by `+`, `-` and `|`, which are
    /// reckoned from the left.
    pub fn number(&self, word: &str) -> Result<i64, CaseErr> {
        match self.sum(word) {
            Some(number) => Ok(number),
            None => Err(unreadable(self.alloc, word)),
        }
    }

    /// The numbers that words give, also `FIRST..LAST` for all from one to another, and `NUMBER*COUNT` for one so many
    /// times.
    pub fn list(&self, words: &str) -> Result<Vec<i64>, CaseErr> {
        let mut list = Vec::new(self.alloc);
        for word in words.split_whitespace() {
            if let Some((first, last)) = word.split_once("..") {
                add_range(&mut list, self.number(first)?, self.number(last)?)?;
            } else if let Some((number, count)) = word.split_once('*') {
                add_times(&mut list, self.number(number)?, self.number(count)?)?;
            } else {
                list.push(self.number(word)?)?;
            }
        }
        Ok(list)
    }

    // The number that a word gives, if it can be read.
    fn sum(&self, word: &str) -> Option<i64> {
        let mut total = 0i64;
        let mut sign = '+';
        let mut start = 0usize;
        for (offset, letter) in word.char_indices() {
            if letter == '+' || letter == '-' || letter == '|' {
                if 0 < offset {
                    total = joined(total, sign, self.term(word.get(start..offset)?)?);
                }
                sign = letter;
                start = offset.checked_add(1)?;
            }
        }
        Some(joined(total, sign, self.term(word.get(start..)?)?))
    }

    // The number of a name or of digits.
    fn term(&self, word: &str) -> Option<i64> {
        if word.starts_with(|letter: char| letter.is_ascii_digit()) {
            digits(word)
        } else {
            self.find(word)
        }
    }

    // The number that was last given a name.
    fn find(&self, name: &str) -> Option<i64> {
        for named in self.named.iter().rev() {
            if named.name.as_str() == name {
                return Some(named.number);
            }
        }
        None
    }
}

fn add_range(list: &mut Vec<i64>, first: i64, last: i64) -> Result<(), CaseErr> {
    for number in first..=last {
        list.push(number)?;
    }
    Ok(())
}

fn add_times(list: &mut Vec<i64>, number: i64, count: i64) -> Result<(), CaseErr> {
    for _ in 0..count {
        list.push(number)?;
    }
    Ok(())
}

// Two numbers that a sign joins.
fn joined(total: i64, sign: char, term: i64) -> i64 {
    match sign {
        '-' => total.wrapping_sub(term),
        '|' => total | term,
        _ => total.wrapping_add(term),
    }
}

// The number that digits make, among which may stand low lines; one of 64 bits counts as it is stored.
fn digits(word: &str) -> Option<i64> {
    if let Some(rest) = word.strip_prefix("0x") {
        reckon(rest, 16)
    } else if let Some(rest) = word.strip_prefix("0o") {
        reckon(rest, 8)
    } else {
        reckon(word, 10)
    }
}

// The number that digits to this base make.
fn reckon(word: &str, base: u32) -> Option<i64>
    requires least { 2 ≤ base }
    requires most { base ≤ 36 }
{
    if word.is_empty() {
        return None;
    }
    let mut total = 0u64;
    for letter in word.chars() {
        if letter != '_' {
            let digit = letter.to_digit(base)?;
            total = total
                .checked_mul(u64::from(base))?
                .checked_add(u64::from(digit))?;
        }
    }
    Some(i64::from_le_bytes(total.to_le_bytes()))
}
