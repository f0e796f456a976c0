// The records of a log, as bytes.
ghost use Rattle.std.specs.Prelude.{◌≡◌, ◌+◌, ◌≤◌, true, length, IfSome, slice_index};
ghost use Rattle.fields.specs.Fields.{big2, from};
ghost use Rattle.logstore.specs.Records.{header, header_length, limited, record_at, record_bytes, size};
ghost use Rattle.store.specs.Bytes.{overwritten};
ghost use Rattle.terms.specs.Levels.{most_blocks};
ghost use Rattle.terms.specs.Places.{inside, record_length};
ghost use Rattle.terms.specs.declared.place.Place.TheVariants.{Block, Node};

use fields::Reader;
use terms::{BLOCK_LENGTH, BlockNumber, DIGEST_LENGTH, Level, MAX_BLOCKS, NodeNumber, Place};

// How many bytes the tag of a record and the length of its rest take up.
const FRONT: usize = 3;

// A block's record: its tag, how many bytes stand in front of the block, two of them its number, and how many follow the length.
const BLOCK_TAG: u8 = 16;

const BLOCK_HEADER: usize = FRONT + 2;

const BLOCK_REST: usize = BLOCK_HEADER + BLOCK_LENGTH - FRONT;

// The same of a node's record, of which one byte is the level and two are the number.
const NODE_TAG: u8 = 17;

const NODE_HEADER: usize = FRONT + 3;

const NODE_REST: usize = NODE_HEADER + DIGEST_LENGTH - FRONT;

// The most bytes that a record takes up.
pub(crate) const LONGEST: usize = BLOCK_HEADER + BLOCK_LENGTH;

// How many bytes stand in front of a record's content. A place says which of the two forms its record has, here and where a header is written.
pub(crate) fn header_length(place: Place) -> usize
    ensures { result ≡ header_length place }
{
    match place {
        Place::Block(_) => BLOCK_HEADER,
        Place::Node(_, _) => NODE_HEADER,
    }
}

// A place, if it lies among the most blocks.
fn limit(place: Place) -> Option<Place>
    ensures { result ≡ limited place }
{
    place.is_inside(MAX_BLOCKS).then_some(place)
}

// The place in front of a block.
fn block_place(rest: &[u8; BLOCK_REST]) -> Option<Place>
    ensures { result ≡ limited (Block (record { 0 = big2 rest.now 0 })) }
{
    let [high, low, ..] = *rest;
    let number = u16::from_be_bytes([high, low]);
    limit(Place::Block(BlockNumber(number as u32)))
}

// The place in front of a digest.
fn node_place(rest: &[u8; NODE_REST]) -> Option<Place>
    ensures { result ≡ limited (Node (record { 0 = slice_index rest.now 0 }) (record { 0 = big2 rest.now 1 })) }
{
    let [level, high, low, ..] = *rest;
    let number = u16::from_be_bytes([high, low]);
    limit(Place::Node(Level::new(level)?, NodeNumber(number as u32)))
}

// The place of the next record, if a whole one stands there; the reader is then past it.
pub(crate) fn next_place(reader: &mut Reader) -> Option<Place>
    requires { reader.old.end ≡ length reader.old.bytes }
    ensures value { result ≡ record_at reader.old.bytes reader.old.at }
    ensures at { IfSome result (λ q. reader.new ≡ from reader.old.bytes (reader.old.at + size q)) }
{
    if let Ok(rest) = reader.array::<BLOCK_REST>(BLOCK_TAG) {
        return block_place(rest);
    }
    node_place(reader.array::<NODE_REST>(NODE_TAG).ok()?)
}

// Writes what stands in front of a record's content at an offset. That the place lies inside is asked of each caller, as in the index.
fn write_header(out: &mut [u8], at: usize, place: Place)
    requires within { inside most_blocks place ≡ true }
    requires fits { at + header_length place ≤ length out.old }
    ensures { out.new ≡ overwritten out.old at (header place) }
{
    match place {
        Place::Block(number) => {
            let [long, short] = (BLOCK_REST as u16).to_be_bytes();
            let [high, low] = (number.0 as u16).to_be_bytes();
            out[at..at + BLOCK_HEADER].copy_from_slice(&[BLOCK_TAG, long, short, high, low]);
        }
        Place::Node(level, number) => {
            let [long, short] = (NODE_REST as u16).to_be_bytes();
            let [high, low] = (number.0 as u16).to_be_bytes();
            let header = [NODE_TAG, long, short, level.value(), high, low];
            out[at..at + NODE_HEADER].copy_from_slice(&header);
        }
    }
}

// Writes a whole record at an offset.
pub(crate) fn write_record(out: &mut [u8], at: usize, place: Place, content: &[u8])
    requires within { inside most_blocks place ≡ true }
    requires long { length content.now ≡ record_length place }
    requires fits { at + size place ≤ length out.old }
    ensures { out.new ≡ overwritten out.old at (record_bytes place content.now) }
{
    write_header(out, at, place);
    let start = at + header_length(place);
    let end = start + content.len();
    out[start..end].copy_from_slice(content);
}
