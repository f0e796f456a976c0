// No field as it was asked for starts at this offset, or bytes are left over from it.
#[derive(Clone, Copy, Debug, PartialEq, Eq)]
pub struct BadField {
    pub at: usize,
}
