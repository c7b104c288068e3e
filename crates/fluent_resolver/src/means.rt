//! What a type stands for in the definitions. Contracts alone name it.

/// Of a type that stands for something.
pub trait Means {
    /// The kind of what it stands for.
    ghost Kind: { Type 0 };

    /// What it stands for.
    ghost meaning: { Self → Kind };
}
