// The path of the default Forward Open. Beside it in rseip-cip: `OpenOptions::default` in src/connection.rs.
#![tactic(auto)]

ghost use Rattle.std.specs.Prelude.{◌≡◌};
ghost use Rattle.epath_sizes.specs.Lists.{path_of};
ghost use Rattle.default_path.specs.Default.{default_slots};

use epath_lists::{blank_path, default_port};
use epath_sizes::{Path, Segment};

// The path of the default record: the backplane, then the message router. It needs no pool.
pub fn default_connection_path() -> Path
    ensures { result ≡ path_of default_slots }
{
    let mut path = blank_path();
    path.slots[0].segment = Segment::Port(default_port());
    path.slots[1].segment = Segment::Class(2);
    path.slots[2].segment = Segment::Instance(1);
    path.count = 3;
    path
}
