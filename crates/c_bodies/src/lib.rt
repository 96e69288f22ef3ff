// Bodies, for C: written, and two joined.
#![tactic(auto)]

ghost use Rattle.std.specs.Prelude.{◌≡◌, length};
ghost use Rattle.wire.specs.Answers.{with_room, written};
ghost use Rattle.body_sizes.specs.Bodies.{cut, body_of, body_size};
ghost use Rattle.body_join.specs.Joins.{join_of, join_size};
ghost use Rattle.c_answers.specs.Codes.{code};

use body_encode::write_body;
use body_join::join_bodies;
use c_answers::size_answer;

// The body of messages that lie end to end.
#[unsafe(no_mangle)]
pub extern "C" fn bark_write_body(items: &[u8], lengths: &[usize], out: &mut [u8]) -> usize
    ensures answer { result ≡ code (with_room (body_size (length items.now) lengths.now) (length out.old)) }
    ensures bytes { out.new ≡ written (with_room (body_size (length items.now) lengths.now) (length out.old)) (body_of (cut lengths.now items.now)) out.old }
{
    size_answer(write_body(items, lengths, out))
}

// The body of the first's items and then the second's.
#[unsafe(no_mangle)]
pub extern "C" fn bark_join_bodies(first: &[u8], second: &[u8], out: &mut [u8]) -> usize
    ensures answer { result ≡ code (with_room (join_size first.now second.now) (length out.old)) }
    ensures bytes { out.new ≡ written (with_room (join_size first.now second.now) (length out.old)) (join_of first.now second.now) out.old }
{
    size_answer(join_bodies(first, second, out))
}
