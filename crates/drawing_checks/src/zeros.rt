// Bytes that a record leaves unused.
ghost use Rattle.std.specs.Prelude.{◌≡◌};
ghost use Rattle.graphs.specs.Drawing.{all_zero};

// Whether every byte is zero, as those that a record leaves unused must be.
pub fn all_zero(bytes: &[u8]) -> bool
    ensures { result ≡ all_zero bytes.now }
{
    bytes.iter().all(|&byte| byte == 0)
}
