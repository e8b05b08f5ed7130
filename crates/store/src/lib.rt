// The payloads of several places in one array of bytes, a place behind the other, each payload with zeros behind it.
#![tactic(auto)]

ghost use Rattle.std.specs.Prelude.{◌≡◌, ◌+◌, ◌*◌, ◌≤◌, length, drop, replicate};
ghost use Rattle.group.specs.Limits.{payload_most};
ghost use Rattle.message.specs.Message.{all_zero, is_empty, padded};
ghost use Rattle.store.specs.Places.{message_in, part_of, laid_at, Lies, block_size, mask_of};

use group::Group;

// A payload is looked at in five blocks of so many bytes; these are the starts of all but the first.
const BLOCK: usize = 48;

const SECOND: usize = BLOCK;

const THIRD: usize = 2 * BLOCK;

const FOURTH: usize = 3 * BLOCK;

const FIFTH: usize = 4 * BLOCK;

// As many zeros as a block has bytes, then as many bytes of ones: from an index on, the ones stand behind what is used of a block.
#[tactic(auto, unfolding(crate::specs::Places::mask_of))]
pub fn mask() -> [u8; 2 * BLOCK]
    ensures { result ≡ mask_of }
{
    let mut bytes = [255; 2 * BLOCK];
    bytes[..BLOCK].fill(0);
    bytes
}

// Whether the bytes of a block from an index on are zero: all of them, each under its byte of the mask, are joined by `|`.
// kept: a loop with no exit, which becomes a few vector instructions; `all` stops at the first other byte, and took ten times as long.
#[tactic(auto, using(crate::proofs::Scanning::mask_length))]
fn scan(block: &[u8], mask: &[u8], from: usize) -> bool
    requires { (length block.now ≡ block_size) × (mask.now ≡ mask_of) × (from ≤ block_size) }
    ensures { result ≡ all_zero (drop from block.now) }
{
    let mut seen = 0;
    for (byte, bits) in block.iter().zip(&mask[BLOCK - from..2 * BLOCK - from]) {
        seen |= byte & bits;
    }
    seen == 0
}

// Whether the bytes of a part from an index on are zero, where the index lies in the block that begins at START: that block is looked at under the
// mask, and what lies behind it whole. START is a const parameter, so that each loop has a fixed length.
fn unused_in<const START: usize>(part: &[u8], mask: &[u8], from: usize) -> bool
    requires part { (length part.now ≡ payload_most) × (mask.now ≡ mask_of) }
    requires block { (START + block_size ≤ payload_most) × (START ≤ from) × (from ≤ START + block_size) }
    ensures { result ≡ all_zero (drop from part.now) }
{
    let end = START + BLOCK;
    scan(&part[START..end], mask, from - START) && message::zeros(&part[end..Group::PAYLOAD])
}

// Whether the bytes of a part from an index on are zero.
fn unused(part: &[u8], mask: &[u8], from: usize) -> bool
    requires { (length part.now ≡ payload_most) × (mask.now ≡ mask_of) × (from ≤ payload_most) }
    ensures { result ≡ all_zero (drop from part.now) }
{
    if from == 0 {
        return message::zeros(part);
    }
    match from / BLOCK {
        0 => unused_in::<0>(part, mask, from),
        1 => unused_in::<SECOND>(part, mask, from),
        2 => unused_in::<THIRD>(part, mask, from),
        3 => unused_in::<FOURTH>(part, mask, from),
        _ => unused_in::<FIFTH>(part, mask, from),
    }
}

// Whether the bytes of a place from an index on are zero.
#[tactic(auto, using(crate::proofs::Places::part_size))]
pub fn zero_from(bytes: &[u8], mask: &[u8], at: usize, from: u8) -> bool
    requires { Lies at bytes.now × (mask.now ≡ mask_of) × (from ≤ payload_most) }
    ensures { result ≡ all_zero (drop from (part_of bytes.now at)) }
{
    let base = at * Group::PAYLOAD;
    let end = base + Group::PAYLOAD;
    unused(&bytes[base..end], mask, from as usize)
}

// Is a place empty: are its numbers and all of its bytes zero?
#[tactic(auto, using(group::proofs::Choice::choices), unfolding(message::specs::Message::is_empty, message::specs::Message::zero_behind))]
pub fn is_empty(
    count: u32,
    originator: u8,
    length: u8,
    payloads: &[u8],
    mask: &[u8],
    at: usize,
) -> bool
    requires { Lies at payloads.now × (mask.now ≡ mask_of) }
    ensures { result ≡ is_empty (message_in count originator length (part_of payloads.now at)) }
{
    originator == 0 && count == 0 && length == 0 && zero_from(payloads, mask, at, length)
}

// The payload with zeros behind it, whatever stood in the part.
fn lay(part: &mut [u8], payload: &[u8])
    requires { (length part.old ≡ payload_most) × (length payload.now ≤ payload_most) }
    ensures { part.new ≡ padded payload.now }
{
    message::copy(payload, part);
    message::fill(part, payload.len());
}

// The payload goes to a place.
#[tactic(auto, using(crate::proofs::Places::part_size))]
pub fn keep(bytes: &mut [u8], at: usize, payload: &[u8])
    requires { Lies at bytes.old × (length payload.now ≤ payload_most) }
    ensures { bytes.new ≡ laid_at bytes.old at (padded payload.now) }
{
    let base = at * Group::PAYLOAD;
    let end = base + Group::PAYLOAD;
    lay(&mut bytes[base..end], payload);
}

// A place without a payload: it has an empty one.
pub fn clear(bytes: &mut [u8], at: usize)
    requires { Lies at bytes.old }
    ensures { bytes.new ≡ laid_at bytes.old at (replicate payload_most 0) }
{
    keep(bytes, at, &[]);
}
