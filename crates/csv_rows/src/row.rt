ghost use Rattle.std.specs.Prelude.{◌≡◌, length, option_map};
ghost use Rattle.csv.specs.Records.{field_at};
ghost use Rattle.csv_rows.specs.Row.{fields_of};

use csv::ByteRecord;

/// The fields of a row, where they stand.
#[derive(Clone, Copy)]
pub enum Row<'r> {
    /// In the text.
    Split(&'r [&'r [u8]]),
    /// In a record that the kit's reader filled.
    Read(&'r ByteRecord),
}

impl<'r> Row<'r> {
    /// How many fields there are.
    pub fn len(&self) -> usize
        ensures { result ≡ length (fields_of self.now) }
    {
        match self {
            Row::Split(fields) => fields.len(),
            Row::Read(record) => record.len(),
        }
    }

    /// The field at a place.
    pub fn get(&self, i: usize) -> Option<&'r [u8]>
        ensures { option_map (λ s. s.now) result ≡ field_at (fields_of self.now) i }
    {
        match self {
            Row::Split(fields) => {
                if i >= fields.len() {
                    return None;
                }
                Some(fields[i])
            }
            Row::Read(record) => record.get(i),
        }
    }
}
