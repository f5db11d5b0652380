// The modes of new nodes.
ghost use Rattle.std.specs.Prelude.{◌≡◌, ◌≤◌};
ghost use Rattle.dt_callbase.specs.Modes.{masked_mode};

/// A mode without the bits of a mask.
pub fn masked_mode(mode: u32, umask: u32) -> u32
    ensures value { result ≡ masked_mode mode umask }
    ensures within { result ≤ mode }
{
    mode - (mode & umask)
}
