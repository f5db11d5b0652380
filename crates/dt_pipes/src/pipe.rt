// A pipe as the table keeps it.
/// The number of the first pipe of a container.
pub const FIRST_PIPE: u32 = 1;

/// Numbers of pipes are below this one, so that 2^31 can be given; a run makes fewer pipes.
pub const PIPE_NUMBER_LIMIT: u32 = 0x8000_0001;

/// A pipe by its number at the host.
#[derive(Clone, Copy, Debug)]
pub struct Pipe {
    /// Its number at the host.
    pub real: u64,
    /// How many bytes it holds. It is counted here, since a host tells no size of a pipe.
    pub held: usize,
}
