// A call as a list has it.
use transcript::bytes::two_bytes;

// Its name, its settings (which call, s, L, how many bytes are lent: numbers of two bytes) and its two arguments.
#[derive(Clone, Copy)]
pub struct ListedCall<'a> {
    pub name: &'a [u8],
    pub settings: &'a [u8],
    pub first: &'a [u8],
    pub second: &'a [u8],
}

impl ListedCall<'_> {
    pub(crate) fn call(self) -> u32 {
        u32::from(two_bytes(self.settings, 0))
    }

    pub(crate) fn threshold(self) -> u32 {
        u32::from(two_bytes(self.settings, 2))
    }

    pub(crate) fn limit(self) -> u32 {
        u32::from(two_bytes(self.settings, 4))
    }

    pub(crate) fn lent(self) -> usize {
        usize::from(two_bytes(self.settings, 6))
    }
}
