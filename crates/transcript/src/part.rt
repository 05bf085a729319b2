// The parts of a list. A part is its length and that many bytes; a length is a number of two bytes, the low one first.
ghost use Rattle.std.specs.Prelude.{◌≡◌, ◌+◌, length};
ghost use Rattle.std.specs.Option.{IfSome};

// The part in front and what follows it, or none where no whole part is.
pub fn split_part(list: &[u8]) -> Option<(&[u8], &[u8])>
    ensures { IfSome result (λ p. length list.now ≡ 2 + length p.0.now + length p.1.now) }
{
    let (length, rest) = list.split_first_chunk::<2>()?;
    rest.split_at_checked(usize::from(u16::from_le_bytes(*length)))
}
