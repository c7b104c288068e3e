//! Values that are borrowed for a lifetime which ends while the program runs, so that what borrows and what is borrowed
//! can be kept together.
#![tactic(auto)]

mod loans;
mod raw_box;
mod shelf;

pub use loans::{Ended, Lifetime, Loan, borrow, regain};
pub use raw_box::RawBox;
pub use shelf::{Shelf, regain_all};
