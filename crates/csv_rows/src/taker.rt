ghost use Rattle.std.specs.Prelude.{◌∷◌, [], ℕ, List, OnOk};
ghost use Rattle.csv_rows.specs.Row.{fields_of};
ghost use Rattle.csv_rows.specs.Taker.{Took};

use crate::Row;
use std::alloc::AllocError;

/// What takes the records of a text one by one.
pub trait RecordTaker {
    /// What the first value is once it has taken these records.
    ghost has_taken: { Self → Self → List (List (List ℕ)) → Type 0 };

    /// Takes one record more.
    fn take(&mut self, row: &Row) -> Result<(), AllocError>
        requires { (start : Self) × (records : List (List (List ℕ)))
            × has_taken start self.old records }
        ensures { OnOk result (Took has_taken self.old self.new (fields_of row.now ∷ [])) };
}
