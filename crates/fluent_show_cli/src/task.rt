//! What a run is to show, once its words are read.

use fluent_show_words::plurals::Plurals;
use fluent_show_words::request::Request;

/// A request, and who chooses plural categories for it.
#[derive(Clone, Copy)]
pub(crate) struct Task<'w, 'p> {
    pub request: Request<'w>,
    pub plurals: Plurals<'p>,
}
