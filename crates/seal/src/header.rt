// The two fields that seals and slips begin with.
ghost use Rattle.std.specs.Prelude.{◌≡◌};
ghost use Rattle.seal.specs.Forms.{at_offset, count_at, head_after, head_answer, kind_at};
ghost use Rattle.fields.specs.Fields.{after, byte, number, past};

use fields::{BadField, Reader};
use terms::MAX_BLOCKS;

// The kind of the hash, which may be one that is not known here and so is a number, and the count of blocks.
#[derive(Clone, Copy, Debug, PartialEq, Eq)]
pub struct Header {
    pub kind: u8,
    pub count: u32,
}

// The tags of the two fields.
pub const KIND_TAG: u8 = 1;

pub const COUNT_TAG: u8 = 2;

// The kind, which is never 0; else the field's offset.
fn kind_field(reader: &mut Reader<'_>) -> Result<u8, BadField>
    ensures value { result ≡ at_offset (kind_at reader.old) reader.old (byte reader.old) }
    ensures reader { reader.new ≡ after reader.old 1 1 }
{
    let at = reader.at();
    match reader.byte(KIND_TAG)? {
        0 => Err(BadField { at }),
        kind => Ok(kind),
    }
}

// The count, from the least that is allowed to the most; else the field's offset. Not one function with the slip's number: the most is a
// count that may be, and the bound there a number that may not.
fn count_field(reader: &mut Reader<'_>, least: u32) -> Result<u32, BadField>
    ensures value { result ≡ at_offset (count_at least reader.old) reader.old (number reader.old) }
    ensures reader { reader.new ≡ after reader.old 2 4 }
{
    let at = reader.at();
    let count = reader.number(COUNT_TAG)?;
    if !(least..=MAX_BLOCKS).contains(&count) {
        return Err(BadField { at });
    }
    Ok(count)
}

// The kind and the count, from the least that is allowed; else the offset of the bad one. The reader is then past what it read.
pub fn read_head(reader: &mut Reader<'_>, least: u32) -> Result<Header, BadField>
    ensures value { result ≡ head_answer least reader.old }
    ensures reader { reader.new ≡ head_after reader.old }
{
    let kind = kind_field(reader)?;
    let count = count_field(reader, least)?;
    Ok(Header { kind, count })
}
