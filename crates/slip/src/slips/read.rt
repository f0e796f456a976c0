// A slip is read where its bytes are.
ghost use Rattle.std.specs.Prelude.{◌≡◌};
ghost use Rattle.fields.specs.Fields.{after, number};
ghost use Rattle.seal.specs.Forms.{at_offset};
ghost use Rattle.slip.specs.Slip.{fields_answer, number_at, read_answer};

use super::{BLOCK_TAG, NUMBER_TAG, PATH_TAG, ReadSlip};
use crate::path::path_bytes;
use fields::{BadField, Reader};
use seal::read_head;
use terms::{BLOCK_LENGTH, BlockNumber, Refusal};

// The block's number, which is below the count; else the field's offset.
fn number_field(reader: &mut Reader<'_>, count: u32) -> Result<u32, BadField>
    ensures value { result ≡ at_offset (number_at count reader.old) reader.old (number reader.old) }
    ensures reader { reader.new ≡ after reader.old 4 4 }
{
    let at = reader.at();
    let number = reader.number(NUMBER_TAG)?;
    if number >= count {
        return Err(BadField { at });
    }
    Ok(number)
}

// The slip in `bytes`; else the offset of what is wrong with its form.
fn fields(bytes: &[u8]) -> Result<ReadSlip<'_>, BadField>
    ensures { result ≡ fields_answer bytes.now }
{
    let mut reader = Reader::new(bytes);
    let header = read_head(&mut reader, 1)?;
    let number = number_field(&mut reader, header.count)?;
    let block = reader.array::<BLOCK_LENGTH>(BLOCK_TAG)?;
    let path = reader.field(PATH_TAG, path_bytes(number, header.count))?;
    reader.finish()?;
    Ok(ReadSlip {
        header,
        number: BlockNumber(number),
        block,
        path,
    })
}

impl<'a> ReadSlip<'a> {
    // The slip in `bytes`. It refuses bytes that are no slip, at the first bad field's tag or the first extra byte.
    pub fn read(bytes: &'a [u8]) -> Result<ReadSlip<'a>, Refusal>
        ensures { result ≡ read_answer bytes.now }
    {
        fields(bytes).map_err(|bad| Refusal::SlipForm(bad.at))
    }

    // The byte of the hash's kind: any function may have been used.
    pub fn kind(&self) -> u8
        ensures { result ≡ self.now.kind }
    {
        self.header.kind
    }

    pub fn count(&self) -> u32
        ensures { result ≡ self.now.count }
    {
        self.header.count
    }

    pub fn number(&self) -> BlockNumber
        ensures { result ≡ record { 0 = self.now.number } }
    {
        self.number
    }
}
