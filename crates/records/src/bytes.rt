// Plain bytes, of any number.
ghost use Rattle.std.specs.Prelude.{◌≡◌, length, replicate, get_or};

// Zeros throughout: what a catalogue that does not fit leaves behind.
pub fn clear(output: &mut [u8])
    ensures { output.new ≡ replicate (length output.old) 0 }
{
    output.fill(0);
}

// A byte of a record that may be too short to have it.
pub(crate) fn byte_or_zero(bytes: &[u8], at: usize) -> usize
    ensures { result ≡ get_or bytes.now at 0 }
{
    match bytes.get(at) {
        Some(&byte) => usize::from(byte),
        None => 0,
    }
}
