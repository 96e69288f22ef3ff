// Forward Open, small and large: its size. Beside it in rseip-cip: `OpenOptions` in src/codec/encode.rs.
#![tactic(auto)]

ghost use Rattle.std.specs.Prelude.{◌≡◌, ◌≤◌};
ghost use Rattle.wire.specs.Answers.{paper};
ghost use Rattle.open_sizes.specs.Sizes.{open_base, front_size, open_size};

use connection::OpenOptions;
use connection_words::encode_parameters;
use epath_sizes::Path;
use route::route_size;
use wire::Refusal;

// How many bytes stand before the path.
pub fn open_base(large: bool) -> usize
    ensures { (result ≡ open_base large) × (result ≤ 40) }
{
    if large { 40 } else { 36 }
}

// How many bytes stand before the path of a Forward Open whose parameters fit their words.
#[tactic(auto, unfolding(crate::specs::Sizes::front_size))]
pub fn front_size(o: OpenOptions) -> Result<usize, Refusal>
    ensures { paper result ≡ front_size o }
{
    encode_parameters(o.large_open, o.o_t_params)?;
    encode_parameters(o.large_open, o.t_o_params)?;
    Ok(open_base(o.large_open))
}

// How many bytes a Forward Open takes.
#[tactic(auto, using(crate::proofs::SizeLaws::front_laws), unfolding(crate::specs::Sizes::open_size))]
pub fn forward_open_size(o: OpenOptions, p: Path, pool: &[u8]) -> Result<usize, Refusal>
    ensures { paper result ≡ open_size pool.now p o }
{
    let n = route_size(p, pool)?;
    let front = front_size(o)?;
    Ok(front + n)
}
