// A record of a text that isn't blank, with its number.
ghost use Rattle.std.specs.Prelude.{◌≡◌, ◌<◌, [], length, slice_index_or};
ghost use Rattle.csv.specs.Records.{fields_of};
ghost use Rattle.mix_text.specs.Rows.{RowText, kept};

use csv::ByteRecord;
use std::marker::Model;

/// A row: its number, from 1, and its fields, of which the last isn't empty.
#[derive(Drop)]
pub struct Row {
    number: u64,
    line: ByteRecord,
}

impl Model for Row {
    ghost use Rattle.csv.specs.Records.{fields_of};
    ghost use Rattle.mix_text.specs.Rows.{RowText};

    ghost Value = { RowText };

    ghost view = { λ r. record { number = r.number; fields = fields_of r.line } };
}

impl Row {
    // The row of this number with the fields of a record.
    pub(crate) fn new(number: u64, line: ByteRecord) -> Row
        ensures { result ≡ record { number = number; fields = fields_of line } }
    {
        Row { number, line }
    }

    /// The number of the row, from 1.
    pub fn number(&self) -> u64
        ensures { result ≡ self.now.number }
    {
        self.number
    }

    /// How many fields the row has.
    pub fn len(&self) -> usize
        ensures { result ≡ length self.now.fields }
    {
        self.line.len()
    }

    /// The field at a place, from 0.
    pub fn field(&self, k: usize) -> &[u8]
        requires { k < length self.now.fields }
        ensures { result.now ≡ slice_index_or self.now.fields k [] }
    {
        field_of(&self.line, k)
    }
}

// The field at a place that a record has.
fn field_of(line: &ByteRecord, k: usize) -> &[u8]
    requires { k < length (fields_of line.now) }
    ensures { result.now ≡ slice_index_or (fields_of line.now) k [] }
{
    match line.get(k) {
        Some(field) => field,
        None => b"",
    }
}

// Drops the empty fields at the end of a record.
pub(crate) fn drop_empty_end(line: &mut ByteRecord)
    ensures { fields_of line.new ≡ kept (fields_of line.old) }
{
    while let Some(last) = line.len().checked_sub(1) {
        if !field_of(line, last).is_empty() {
            return;
        }
        line.truncate(last);
    }
}
