//! How many more placeables a call may open, and what it did.

/// How many more placeables may be opened, or that the limit was reached, once one more was tried.
#[derive(Clone, Copy)]
pub enum Budget {
    Left(u32),
    LimitReached,
}

/// What a call did: placeables opened, the longest path, patterns entered. Each stands still at the largest number.
#[derive(Clone, Copy)]
pub struct Counts {
    pub opened: u64,
    pub longest: u64,
    pub entered: u64,
}
