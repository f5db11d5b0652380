// Words that set a variable of the environment.
ghost use Rattle.std.specs.Prelude.{◌≡◌, ◌<◌, ◌==◌, IfSome, length};
ghost use Rattle.std.specs.List.{list_all, position};
ghost use Rattle.dt_base.specs.Assignment.{is_assignment, is_variable, is_variable_start, is_variable_byte};

/// Whether a word has the form NAME=VALUE, NAME being a variable's name (POSIX, Base Definitions, Name).
pub fn is_assignment(word: &[u8]) -> bool
    ensures { result ≡ is_assignment word.now }
{
    match first_equals(word) {
        Some(index) => is_variable(&word[..index]),
        None => false,
    }
}

fn first_equals(word: &[u8]) -> Option<usize>
    ensures value { result ≡ position (λ b. b == 61) word.now }
    ensures within { IfSome result (λ index. index < length word.now) }
{
    word.iter().position(|b| *b == b'=')
}

fn is_variable(name: &[u8]) -> bool
    ensures { result ≡ is_variable name.now }
{
    match name.split_first() {
        Some((first, rest)) => is_variable_start(*first) && has_variable_bytes(rest),
        None => false,
    }
}

fn is_variable_start(byte: u8) -> bool
    ensures { result ≡ is_variable_start byte }
{
    byte.is_ascii_alphabetic() || byte == b'_'
}

fn has_variable_bytes(rest: &[u8]) -> bool
    ensures { result ≡ list_all is_variable_byte rest.now }
{
    rest.iter().all(|b| is_variable_byte(*b))
}

fn is_variable_byte(byte: u8) -> bool
    ensures { result ≡ is_variable_byte byte }
{
    byte.is_ascii_alphanumeric() || byte == b'_'
}
