//! What can be wrong in a pattern, by itself and by what its ids name.
#![tactic(auto)]

mod categories;
mod choices;
pub mod examples;
mod finding;
pub mod laws;
mod marks;
mod missing;
mod names;
mod numbered;
mod numbers;
mod problem;
mod references;
mod selects;
mod sense;
mod shown;
mod terms;

pub use categories::{Categories, Category, categories_of, no_categories};
pub use choices::{Choice, choices_of, tried};
pub use finding::{Finding, Flaw, Part, Problem, Spot};
pub use marks::{Mark, What, marks_of};
pub use references::reference_flaws;
pub use selects::select_flaws;
pub use shown::{Wanted, shown_in};
pub use terms::{Terms, terms_at};
