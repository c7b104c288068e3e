//! Worked rows of what is found in patterns.
ghost use Rattle.fluent_patterns.specs.MissingRows as missing;
ghost use Rattle.fluent_patterns.specs.NumberRows as numbers;
ghost use Rattle.fluent_patterns.specs.TermRows as terms;

/// What is wrong with references.
pub fn what_is_wrong_with_references()
    ensures missing { missing.Rows }
    ensures terms { terms.Rows }
    ensures numbers { numbers.Rows }
{}
