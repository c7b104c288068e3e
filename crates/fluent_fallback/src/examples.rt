//! Worked rows of chains, each a text and its errors.
ghost use Rattle.fluent_fallback.specs.Rows.{Values, Attributes};

/// What the values and the attributes of messages are shown as: by which bundle, with which errors.
pub fn the_first_that_has_it_answers()
    ensures values { Values }
    ensures attributes { Attributes }
{}
