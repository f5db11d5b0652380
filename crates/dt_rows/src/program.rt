// A program, an image of it alone, and what its run shows.
use dt_asm::AsmErr;
use std::alloc::{AllocError, Global};

/// An index of one file, `/hello`, with mode 0755 and the blob `hello`.
pub const HELLO_INDEX: &[u8] =
    b"{\"version\":1,\"entries\":[{\"path\":\"/hello\",\"type\":\"file\",\"mode\":493,\"blob\":\"hello\"}]}";

/// The words of a run of `/hello`.
pub const RUN_HELLO: &str = "run\nimg\n--\n/hello";

/// The report of its run.
pub const HELLO_REPORT: &[u8] =
    b"dettrace 1\nout 1 6\nhello\n\nexit 1 code 0\nverdict ended\ntree 1\n\
    file 2 0755 0 162 1ff299a48e13ad15153fb127b1cd89cce38c6e01c493f155cff820ad695a1184 /hello\n";

/// The file of `hello`.
pub fn hello(alloc: Global) -> Result<Vec<u8>, AsmErr> {
    dt_asm::hello(alloc)?.elf()
}

/// The lines of a text, as the words that the program is given.
pub fn strings(alloc: Global, words: &str) -> Result<Vec<String>, AllocError> {
    let mut strings = Vec::new(alloc);
    for word in words.lines() {
        strings.push(String::from_str(alloc, word)?)?;
    }
    Ok(strings)
}
