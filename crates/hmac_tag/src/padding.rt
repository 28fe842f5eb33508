//! Bytes with zeros behind them.
ghost use Rattle.std.specs.Prelude.{◌≡◌, ◌≤◌, ◌-◌, ◌++◌, length, replicate};

/// The bytes, with zeros behind them up to `SIZE` bytes.
pub(crate) fn padded<const SIZE: usize>(bytes: &[u8]) -> [u8; SIZE]
    requires { length bytes.now ≤ SIZE }

    ensures { result ≡ bytes.now ++ replicate (SIZE - length bytes.now) 0 }
{
    let mut padded = [0; SIZE];
    padded[..bytes.len()].copy_from_slice(bytes);
    padded
}
