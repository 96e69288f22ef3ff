// The items of a body, each by its index. Beside it in rseip-cip: `ReplyIter` in src/service/common_services/multiple_packet.rs, which goes from
// item to item and reads each from where the one before it stopped; here an item has its own start and length, and nothing else moves them.
#![tactic(auto)]

ghost use Rattle.std.specs.Prelude.{◌≡◌, ◌+◌, ◌*◌, ◌≤◌, ◌<◌, length};
ghost use Rattle.wire.specs.Answers.{paper};
ghost use Rattle.body_sizes.specs.Bodies.{table_end};
ghost use Rattle.body_read.specs.Reads.{offset_at};
ghost use Rattle.body_items.specs.Items.{stop_at, walk_item, body_item};

use body_read::read_body;
use wire::Refusal;

// A part of the body.
#[derive(Clone, Copy)]
pub struct Item {
    pub start: usize,
    pub len: usize,
}

// Where an item starts: at its own offset, which the table has.
#[tactic(auto, using(crate::proofs::ItemLaws::offset_laws))]
fn start_at(s: &[u8], index: usize) -> usize
    requires { table_end (index + 1) ≤ length s.now }
    ensures { result ≡ offset_at s.now index }
{
    let at = 2 + 2 * index;
    u16::from_le_bytes([s[at], s[at + 1]]) as usize
}

// Where an item ends: at the next one's offset, the last at the end.
fn stop_at(s: &[u8], count: usize, index: usize) -> usize
    requires { (index < count) × (table_end count ≤ length s.now) }
    ensures { result ≡ stop_at s.now count index }
{
    if index + 1 < count {
        return start_at(s, index + 1);
    }
    s.len()
}

// An item of a body that `read_body` found to have count items: a walk asks `read_body` once, and here for each index, where two offsets are read.
// Whatever the count and the bytes are, what is found is a part behind the table.
#[tactic(auto, using(crate::proofs::ItemLaws::walk_laws))]
pub fn walk_item(s: &[u8], count: usize, index: usize) -> Result<Item, Refusal>
    ensures { paper result ≡ walk_item s.now count index }
{
    if connection::MAX_RECORD < s.len() {
        return Err(Refusal::Limit);
    }
    // that is s.len() < 2 + 2 * count, where that sum may wrap; behind it every offset of the table is there
    if s.len() / 2 <= count {
        return Err(Refusal::Short);
    }
    if count <= index {
        return Err(Refusal::Outside);
    }
    let start = start_at(s, index);
    let stop = stop_at(s, count, index);
    if start < 2 + 2 * count {
        return Err(Refusal::Offset);
    }
    if stop <= start {
        return Err(Refusal::Offset);
    }
    if s.len() < stop {
        return Err(Refusal::Offset);
    }
    Ok(Item {
        start,
        len: stop - start,
    })
}

// An item of a body. It judges the whole table each time: `walk_item` is for more than one.
#[tactic(auto, using(crate::proofs::ItemLaws::item_laws))]
pub fn body_item(s: &[u8], index: usize) -> Result<Item, Refusal>
    ensures { paper result ≡ body_item s.now index }
{
    let n = read_body(s)?;
    walk_item(s, n, index)
}
