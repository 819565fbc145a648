// A text that is written row by row.
ghost use Rattle.std.specs.Prelude.{◌≡◌, ◌<◌, ◌++◌, ◌∷◌, [], true, false, length, map, IfOk, OnOk};
ghost use Rattle.std.specs.Fmt.{signed_decimal};
ghost use Rattle.csv.specs.Writing.{default_writer, fields_written, has_written, with_flexible, writer_pending, writer_setup, writer_under};
ghost use Rattle.mix_text.specs.Pages.{PageText, is_printable, line_of};
ghost use Rattle.mix_text.specs.Spelling.{is_name};

use crate::spelling::Name;
use csv::{ByteRecord, Writer, WriterBuilder};
use itoa::Buffer;
use mix_num::Memory;
use std::alloc::Global;
use std::marker::Model;

/// A text of rows: the bytes of those that have ended, and the fields of an open one.
///
/// After a call that answers `Memory` nothing is said of the page.
#[derive(Drop)]
pub struct Page {
    alloc: Global,
    writer: Writer<Vec<u8>>,
    row: ByteRecord,
}

impl Model for Page {
    ghost use Rattle.std.specs.Prelude.{◌≡◌, ◌++◌, [], true, false};
    ghost use Rattle.std.specs.List.{list_all};
    ghost use Rattle.csv.specs.Records.{fields_of, partial_of};
    ghost use Rattle.csv.specs.Writing.{default_writer, fields_written, has_written, with_flexible, writer_pending, writer_setup, writer_under};
    ghost use Rattle.mix_text.specs.Pages.{PageText, is_printable};

    ghost Value = { PageText };

    ghost view = { λ p. record { ended = (writer_under p.writer).items ++ writer_pending p.writer; fields = fields_of p.row } };

    ghost invariant = { λ p. (writer_setup p.writer ≡ with_flexible default_writer true) × (fields_written p.writer ≡ 0) × (has_written p.writer ≡ false)
        × (partial_of p.row ≡ []) × (list_all is_printable (fields_of p.row) ≡ true) };
}

// A writer of rows with different numbers of fields.
fn fresh_writer(alloc: Global) -> Writer<Vec<u8>>
    ensures setup { writer_setup result ≡ with_flexible default_writer true }
    ensures fields { fields_written result ≡ 0 }
    ensures wrote { has_written result ≡ false }
    ensures empty { (writer_under result).items ++ writer_pending result ≡ [] }
{
    WriterBuilder::new()
        .flexible(true)
        .from_writer(Vec::new(alloc))
}

impl Page {
    /// An empty page.
    pub fn new(alloc: Global) -> Page
        ensures { result ≡ record { ended = []; fields = [] } }
    {
        Page {
            alloc,
            writer: fresh_writer(alloc),
            row: ByteRecord::new(alloc),
        }
    }

    /// Adds a field of letters, digits, `_`, `-` and `.` to the open row.
    pub fn text(&mut self, field: &[u8]) -> Result<(), Memory>
        requires { is_printable field.now ≡ true }
        ensures { OnOk result (self.new ≡ record self.old { fields = self.old.fields ++ field.now ∷ [] }) }
    {
        match self.row.push_field(field) {
            Ok(()) => Ok(()),
            Err(_) => {
                self.row = ByteRecord::new(self.alloc);
                Err(Memory)
            }
        }
    }

    /// Adds the spelling of a number to the open row.
    #[tactic(auto, using(crate::proofs::PrintedNumbers::signed_printable))]
    pub fn number(&mut self, value: i64) -> Result<(), Memory>
        ensures { OnOk result (self.new ≡ record self.old { fields = self.old.fields ++ signed_decimal value ∷ [] }) }
    {
        let mut buffer = Buffer::new();
        self.text(buffer.format(value).as_bytes())
    }

    /// Adds the spellings of numbers to the open row.
    pub fn numbers(&mut self, numbers: &[i64]) -> Result<(), Memory>
        ensures { OnOk result (self.new ≡ record self.old { fields = self.old.fields ++ map signed_decimal numbers.now }) }
    {
        for number in numbers {
            self.number(*number)?;
        }
        Ok(())
    }

    /// Adds a name to the open row.
    #[tactic(auto, using(crate::proofs::Spellings::name_printable))]
    pub fn name(&mut self, name: &Name) -> Result<(), Memory>
        requires { is_name name.now.bytes ≡ true }
        ensures { OnOk result (self.new ≡ record self.old { fields = self.old.fields ++ name.now.bytes ∷ [] }) }
    {
        self.text(name.as_str().as_bytes())
    }

    /// Ends the open row, which has a field, and opens an empty one.
    pub fn end_row(&mut self) -> Result<(), Memory>
        requires { 0 < length self.old.fields }
        ensures { OnOk result (self.new ≡ record { ended = self.old.ended ++ line_of self.old.fields; fields = [] }) }
    {
        let Ok(()) = self.writer.write_byte_record(&self.row) else {
            self.row.clear();
            self.writer = fresh_writer(self.alloc);
            return Err(Memory);
        };
        self.row.clear();
        Ok(())
    }

    /// The bytes of the rows. The open row has no field.
    pub fn finish(self) -> Result<Vec<u8>, Memory>
        requires { self.fields ≡ [] }
        ensures { IfOk result (λ bytes. bytes.items ≡ self.ended) }
    {
        match self.writer.into_inner() {
            Ok(bytes) => Ok(bytes),
            Err(_) => Err(Memory),
        }
    }
}

#[cfg(test)]
mod tests {
    use super::*;
    use crate::row_list::rows;
    use std::test::Fail;

    #[test]
    fn prints(rt: HostRuntime) -> Result<(), Fail> {
        let alloc = rt.alloc();
        let mut page = Page::new(alloc);
        page.text(b"price").ok().ok_or("memory")?;
        page.number(-7).ok().ok_or("memory")?;
        page.number(0).ok().ok_or("memory")?;
        page.end_row().ok().ok_or("memory")?;
        page.text(b"end").ok().ok_or("memory")?;
        page.end_row().ok().ok_or("memory")?;
        let bytes = page.finish().ok().ok_or("memory")?;
        assert_eq!(rt; bytes.as_slice(), b"price,-7,0\nend\n".as_slice());
        assert_eq!(rt; bytes.len(), 15);
        let list = rows(alloc, &bytes).ok().ok_or("memory")?;
        assert_eq!(rt; list.rows().len(), 2);
        Ok(())
    }
}
