//! What a caller's functions answer, for contracts alone.
ghost use Rattle.std.specs.Prelude.{◌≡◌};
ghost use Rattle.fluent_answers.specs.Tables.{Table, nothing, table_coded};

use std::marker::Model;

/// All that a caller answers: nothing when the program runs.
#[repr(C)]
#[derive(Drop)]
pub struct Meant {
    pub ghost table: { Table } by { table_coded },
}

impl Model for Meant {
    ghost also_owns = { λ _. nothing };
}

impl Meant {
    /// The same once more.
    pub fn again(&self) -> Meant
        ensures { result.table ≡ self.now.table }
    {
        Meant {}
    }
}
