// Where the records of a flat store lie.
ghost use Rattle.std.specs.Prelude.{◌≡◌, ◌≤◌, true};
ghost use Rattle.flat.specs.Layout.{layout_length, nodes_below, offset};
ghost use Rattle.terms.specs.Levels.{most_blocks};
ghost use Rattle.terms.specs.Places.{inside};

use terms::{BLOCK_LENGTH, DIGEST_LENGTH, MAX_BLOCKS, Place, TOP_LEVEL};

// How many nodes a span of blocks has on the levels below one.
fn nodes_below(span: u32, level: u8) -> usize
    requires { level ≤ 32 }
    ensures { result ≡ nodes_below span level }
{
    (0..level).map(|l| (span >> l) as usize).sum()
}

// How many bytes a span of blocks takes up, with all its nodes.
#[tactic(auto, using(crate::specs::Sized::nodes_few), unfolding(crate::specs::Layout::layout_length))]
pub(crate) fn layout_length(span: u32) -> usize
    ensures { result ≡ layout_length span }
{
    BLOCK_LENGTH * span as usize + DIGEST_LENGTH * nodes_below(span, TOP_LEVEL + 1)
}

// A span that fits the bytes for certain. As no block has more than two nodes to itself, the largest that fits is this one or the next.
#[tactic(auto, using(crate::specs::Sized::nodes_few), unfolding(crate::specs::Layout::layout_length))]
pub(crate) fn sure_span(length: usize) -> u32
    ensures few { result ≤ most_blocks }
    ensures fits { layout_length result ≤ length }
{
    let blocks = length / (BLOCK_LENGTH + 2 * DIGEST_LENGTH);
    blocks.min(MAX_BLOCKS as usize) as u32
}

// Where the record at a place inside the span starts.
#[tactic(auto, using(crate::specs::Sized::nodes_few))]
pub(crate) fn offset_of(span: u32, place: Place) -> usize
    requires { inside span place ≡ true }
    ensures { result ≡ offset span place }
{
    match place {
        Place::Block(number) => BLOCK_LENGTH * number.0 as usize,
        Place::Node(level, number) => {
            let before = nodes_below(span, level.value()) + number.0 as usize;
            BLOCK_LENGTH * span as usize + DIGEST_LENGTH * before
        }
    }
}
