// The replies in a body, each by its index and from its own item's bytes. Beside it in rseip-cip: `ReplyIter` in
// src/service/common_services/multiple_packet.rs.
// An item's header is judged when that item is asked for: its refusal touches no other.
#![tactic(auto)]

ghost use Rattle.std.specs.Prelude.{◌≡◌, ◌≤◌};
ghost use Rattle.wire.specs.Answers.{paper};
ghost use Rattle.connection.specs.Limits.{max_record};
ghost use Rattle.body_replies.specs.Replies.{reply_in, walk_reply, body_reply};

use body_items::{Item, body_item, walk_item};
use reply_header::{MessageReply, read_reply_header};
use wire::Refusal;
use wire_read::part_of;

// The reply that an item holds; where its data starts is counted in the whole body.
#[tactic(auto, using(crate::proofs::ReplyLaws::in_laws))]
fn reply_in(s: &[u8], item: Item) -> Result<MessageReply, Refusal>
    requires { item.start ≤ max_record }
    ensures { paper result ≡ reply_in s.now item }
{
    let m = read_reply_header(part_of(s, item.start, item.len))?;
    Ok(MessageReply {
        data_start: item.start + m.data_start,
        ..m
    })
}

// The reply in an item of a body that `read_body` found to have count items; as `walk_item`, for a walk.
#[tactic(auto, using(crate::proofs::ReplyLaws::item_laws))]
pub fn walk_reply(s: &[u8], count: usize, index: usize) -> Result<MessageReply, Refusal>
    ensures { paper result ≡ walk_reply s.now count index }
{
    let item = walk_item(s, count, index)?;
    reply_in(s, item)
}

// The reply in an item of a body. It judges the whole table each time: `walk_reply` is for more than one.
#[tactic(auto, using(crate::proofs::ReplyLaws::item_laws))]
pub fn reply_item(s: &[u8], index: usize) -> Result<MessageReply, Refusal>
    ensures { paper result ≡ body_reply s.now index }
{
    let item = body_item(s, index)?;
    reply_in(s, item)
}
