//! An answer.

use crate::kind::Kind;

/// An answer, by the kind of its value and its text.
#[derive(Drop)]
pub(crate) struct Answer {
    pub kind: Kind,
    pub text: String,
}
