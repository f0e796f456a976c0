// Which of two seals is later.
pub mod compare;

// Within one kind, the seal with more blocks is later. Each answer has its number; an `Option<Ordering>` has none, and is less plain in saying which seal is meant.
#[derive(Clone, Copy, Debug, PartialEq, Eq)]
pub enum Later {
    // kind, count and root are equal
    Same = 0,
    First = 1,
    Second = 2,
    // another kind, or another root of as many blocks
    Unrelated = 3,
}
