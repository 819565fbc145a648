// The rows of a text.
ghost use Rattle.std.specs.Prelude.{◌≡◌, ◌≤◌, ◌+◌, ◌++◌, ◌∷◌, [], length, IfOk, OnOk, if◌then◌else◌};
ghost use Rattle.csv.specs.Records.{fields_of};
ghost use Rattle.csv.specs.Reading.{error_kind};
ghost use Rattle.mix_text.specs.Rows.{IsWantOfMemory, RowText, is_row, kept, rows_of, unmarked};

use crate::row::{Row, drop_empty_end};
use csv::{ByteRecord, Error, ReaderBuilder};
use mix_num::Memory;
use std::alloc::Global;
use std::marker::Model;

/// The rows of a text in order, numbered from 1.
#[derive(Drop)]
pub struct RowList {
    rows: Vec<Row>,
}

impl Model for RowList {
    ghost use Rattle.std.specs.Prelude.{List};
    ghost use Rattle.mix_text.specs.Rows.{RowText};

    ghost Value = { List RowText };

    ghost view = { λ l. l.rows.items };
}

impl RowList {
    /// The rows.
    pub fn rows(&self) -> &[Row]
        ensures { result.now ≡ self.now }
    {
        &self.rows
    }

    /// The number that the next row would have.
    pub fn next_number(&self) -> u64
        ensures { result ≡ length self.now + 1 }
    {
        self.rows.len() as u64 + 1
    }

    // Adds a record without the empty fields at its end, unless it is blank.
    fn add(&mut self, mut line: ByteRecord) -> Result<(), Memory>
        ensures { OnOk result (self.new ≡ self.old ++ (if is_row (kept (fields_of line)) then record { number = length self.old + 1; fields = kept (fields_of line) } ∷ [] else [])) }
    {
        drop_empty_end(&mut line);
        if line.is_empty() {
            return Ok(());
        }
        let row = Row::new(self.next_number(), line);
        match self.rows.push(row) {
            Ok(()) => Ok(()),
            Err(_) => Err(Memory),
        }
    }
}

// The text after the byte order marks at its head.
fn without_marks(text: &[u8]) -> &[u8]
    ensures { result.now ≡ unmarked text.now }
{
    let mut rest = text;
    while let Some(after) = rest.strip_prefix(&[0xEF, 0xBB, 0xBF]) {
        rest = after;
    }
    rest
}

// Memory was wanted: no other error comes of reading bytes into records of any lengths.
fn want_of_memory(error: Error) -> Memory
    requires { IsWantOfMemory (error_kind error) }
{
    let _ = error;
    Memory
}

/// The rows of a text of at most 16,777,216 bytes, without the byte order marks at its head.
///
/// A record loses the empty fields at its end, and a record that has none left is passed over.
pub fn rows(alloc: Global, text: &[u8]) -> Result<RowList, Memory>
    requires { length text.now ≤ 16777216 }
    ensures { IfOk result (λ list. list ≡ rows_of text.now) }
{
    let reader = ReaderBuilder::new()
        .has_headers(false)
        .flexible(true)
        .from_reader(alloc, without_marks(text));
    let mut list = RowList {
        rows: Vec::new(alloc),
    };
    for record in reader.into_byte_records() {
        let line = match record {
            Ok(line) => line,
            Err(error) => return Err(want_of_memory(error)),
        };
        list.add(line)?;
    }
    Ok(list)
}

#[cfg(test)]
mod tests {
    use super::*;
    use std::test::Fail;

    // Whether the rows of a text have these fields, and are numbered from 1.
    fn are_rows(alloc: Global, text: &[u8], wanted: &[&[&[u8]]]) -> Result<bool, Fail>
        requires { length text.now ≤ 16777216 }
    {
        let list = rows(alloc, text).ok().ok_or("memory")?;
        for (i, fields) in wanted.iter().enumerate() {
            let Some(row) = list.rows().get(i) else {
                return Ok(false);
            };
            if row.number() != i as u64 + 1 || row.len() != fields.len() {
                return Ok(false);
            }
            for (k, field) in fields.iter().enumerate() {
                if row.field(k) != *field {
                    return Ok(false);
                }
            }
        }
        Ok(list.rows().len() == wanted.len() && list.next_number() == wanted.len() as u64 + 1)
    }

    #[test]
    fn texts(rt: HostRuntime) -> Result<(), Fail> {
        let alloc = rt.alloc();
        assert!(rt; are_rows(alloc, b"", &[])?);
        // All marks at the head go, and no other.
        assert!(rt;
            are_rows(
                alloc,
                b"\xEF\xBB\xBF\xEF\xBB\xBFa,b\r\n\xEF\xBB\xBFc",
                &[&[b"a", b"b"], &[b"\xEF\xBB\xBFc"]]
            )?
        );
        // Filled-up rows lose their empty fields, and blank ones have no number.
        assert!(rt;
            are_rows(
                alloc,
                b"a,,\n,,\n\n,\"\",\r\r,b,\"\"\n",
                &[&[b"a"], &[b"", b"b"]]
            )?
        );
        // Commas, quotes and line feeds may stand in quotes.
        assert!(rt;
            are_rows(
                alloc,
                b"\"x,\"\"y\"\"\nz\"w,v\n",
                &[&[b"x,\"y\"\nzw", b"v"]]
            )?
        );
        Ok(())
    }
}
