// What a message opens, by its service and its path.
ghost use Rattle.std.specs.Prelude.{◌≡◌, ◌↔◌, IsTrue};
ghost use Rattle.nested.specs.Nested.{path_to, kind_of, opens_as};

use epath_sizes::{CLASS, INSTANCE};
use message_read::MessageRequest;
use wire_read::part_of;

// Multiple Service Packet, of the Message Router.
const MULTIPLE_SERVICE: u8 = 0x0A;

const MESSAGE_ROUTER: u8 = 2;

// Unconnected Send, of the Connection Manager.
const UNCONNECTED_SEND: u8 = 0x52;

const CONNECTION_MANAGER: u8 = 6;

#[derive(Clone, Copy)]
pub enum Kind {
    Plain,
    Packet,
    Send,
}

// Whether a path is just this class, instance 1.
#[tactic(auto, using(crate::proofs::KindLaws::path_laws))]
fn is_path_to(path: &[u8], class: u8) -> bool
    ensures { IsTrue result ↔ (path.now ≡ path_to class) }
{
    path == [CLASS, class, INSTANCE, 1].as_slice()
}

// What a message with this service and path opens.
#[tactic(auto, using(crate::proofs::KindLaws::kind_laws))]
fn kind_of(service: u8, path: &[u8]) -> Kind
    ensures { result ≡ kind_of service path.now }
{
    match service {
        MULTIPLE_SERVICE if is_path_to(path, MESSAGE_ROUTER) => Kind::Packet,
        UNCONNECTED_SEND if is_path_to(path, CONNECTION_MANAGER) => Kind::Send,
        _ => Kind::Plain,
    }
}

// What a message that was read from s opens.
pub(crate) fn opens(s: &[u8], m: MessageRequest) -> Kind
    ensures { result ≡ opens_as s.now m }
{
    kind_of(m.service_code, part_of(s, m.path_start, m.path_len))
}
