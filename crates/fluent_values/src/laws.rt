//! Rows of definitions.
ghost use Rattle.fluent_values.specs.FreeRows.{Currencies, BorrowedTexts, Empty, OwnTexts, Textless};

/// Which values are copied and which are written without memory, and when NUMBER takes some.
pub fn what_takes_no_memory()
    ensures textless { Textless }
    ensures borrowed { BorrowedTexts }
    ensures own_texts { OwnTexts }
    ensures empty { Empty }
    ensures currencies { Currencies }
{}
