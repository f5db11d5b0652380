// The numbers that decide what is executed.
use dt_base::ADDRESS_LIMIT;

/// The bytes that a script begins with: `#!` (execve(2), "Interpreter scripts").
pub const SCRIPT_MARK: [u8; 2] = [b'#', b'!'];

/// Bytes of a script's first line, its LF not counted.
pub const SCRIPT_LINE_LIMIT: u64 = 255;

/// Bytes of an entry of argv and envp.
pub const LIST_ENTRY: u64 = 8;

/// Entries of a list: one more would lie past the last address that a page can have.
pub const LIST_LIMIT: u64 = ADDRESS_LIMIT / LIST_ENTRY;
