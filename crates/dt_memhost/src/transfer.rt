// Copies of bytes into a buffer and over a file, and changes of its length.
ghost use Rattle.std.specs.Prelude.{◌≡◌, ◌+◌, ◌≤◌, ◌++◌, length, take, drop, vec_len, OnOk, OnErr};
ghost use Rattle.dt_base.specs.Bytes.{with_bytes_at, with_length};

use dt_base::NoMemory;

/// Copies `count` bytes from `off` on into the start of the buffer.
pub(crate) fn copy_into(bytes: &[u8], off: usize, count: usize, buf: &mut [u8])
    requires there { off + count ≤ length bytes.now }
    requires room { count ≤ length buf.old }
    ensures { buf.new ≡ take count (drop off bytes.now) ++ drop count buf.old }
{
    let (_, rest) = bytes.split_at(off);
    let (prefix, _) = rest.split_at(count);
    buf[..count].copy_from_slice(prefix);
}

/// Writes over bytes from an offset on.
pub(crate) fn overwrite(bytes: &mut Vec<u8>, off: usize, piece: &[u8]) -> Result<(), NoMemory>
    requires { off ≤ vec_len bytes.old }
    ensures ok { OnOk result (bytes.new.items ≡ with_bytes_at bytes.old.items off piece.now) }
    ensures err { OnErr result (bytes.new.items ≡ bytes.old.items) }
{
    let inside = piece.len().min(bytes.len() - off);
    let (over, past) = piece.split_at(inside);
    bytes.extend_from_slice(past)?;
    bytes[off..off + inside].copy_from_slice(over);
    Ok(())
}

/// Cuts bytes to a length, or puts zeros behind them up to it.
pub(crate) fn resize(bytes: &mut Vec<u8>, len: usize) -> Result<(), NoMemory>
    ensures ok { OnOk result (bytes.new.items ≡ with_length bytes.old.items len) }
    ensures err { OnErr result (bytes.new.items ≡ bytes.old.items) }
{
    bytes.resize(len, 0)?;
    Ok(())
}
