// The Connection Manager's records and their enums, limits, the default record, and the setter's mask. Beside it in rseip-cip:
// src/connection.rs, and src/service/request.rs for Unconnected Send.
#![tactic(auto)]

ghost use Rattle.std.specs.Prelude.{◌≡◌};
ghost use Rattle.wire.specs.Answers.{paper};
ghost use Rattle.connection.specs.Codes.{bit, last_type, last_priority, last_trigger, last_class, variable_of, direction_of, type_of, priority_of, trigger_of, class_of, coded};
ghost use Rattle.connection.specs.Defaults.{default_parameters, default_options, masked};

use wire::Refusal;

// ---- limits, each beside its twin in specs/Limits.antt

// Bytes of a path behind a size byte.
pub const MAX_PATH: usize = 254;

// Bytes of a message, a reply, a request record or a body.
pub const MAX_RECORD: usize = 65535;

// Bytes of application data in a reply.
pub const MAX_APP_DATA: usize = 510;

// Bytes of a connection's data in a small Forward Open, and in a large one.
pub const MAX_SMALL_SIZE: u16 = 511;

pub const MAX_LARGE_SIZE: u16 = 65535;

// ---- enums, each with the numbers that stand for it in its field; a reserved number is a code that is refused

#[derive(Clone, Copy)]
pub enum ConnectionType {
    // may be used to reconfigure the connection
    Null = 0,
    // transport classes 0 and 1
    Multicast,
    // point to point
    P2P,
}

impl TryFrom<u8> for ConnectionType {
    type Error = Refusal;

    ghost try_from_gives = { λ n r. paper r ≡ coded last_type type_of n };

    #[tactic(auto, using(crate::proofs::CodeLaws::code_laws))]
    fn try_from(n: u8) -> Result<ConnectionType, Refusal> {
        match n {
            0 => Ok(ConnectionType::Null),
            1 => Ok(ConnectionType::Multicast),
            2 => Ok(ConnectionType::P2P),
            _ => Err(Refusal::Code),
        }
    }
}

#[derive(Clone, Copy)]
pub enum Priority {
    Low = 0,
    High,
    Scheduled,
    Urgent,
}

impl TryFrom<u8> for Priority {
    type Error = Refusal;

    ghost try_from_gives = { λ n r. paper r ≡ coded last_priority priority_of n };

    #[tactic(auto, using(crate::proofs::CodeLaws::code_laws))]
    fn try_from(n: u8) -> Result<Priority, Refusal> {
        match n {
            0 => Ok(Priority::Low),
            1 => Ok(Priority::High),
            2 => Ok(Priority::Scheduled),
            3 => Ok(Priority::Urgent),
            _ => Err(Refusal::Code),
        }
    }
}

#[derive(Clone, Copy)]
pub enum Direction {
    Client = 0,
    Server,
}

impl From<bool> for Direction {
    ghost from_gives = { λ b d. d ≡ direction_of (bit b) };

    fn from(server: bool) -> Direction {
        if server {
            Direction::Server
        } else {
            Direction::Client
        }
    }
}

#[derive(Clone, Copy)]
pub enum TriggerType {
    Cyclic = 0,
    ChangeOfState,
    // application object
    Application,
}

impl TryFrom<u8> for TriggerType {
    type Error = Refusal;

    ghost try_from_gives = { λ n r. paper r ≡ coded last_trigger trigger_of n };

    #[tactic(auto, using(crate::proofs::CodeLaws::code_laws))]
    fn try_from(n: u8) -> Result<TriggerType, Refusal> {
        match n {
            0 => Ok(TriggerType::Cyclic),
            1 => Ok(TriggerType::ChangeOfState),
            2 => Ok(TriggerType::Application),
            _ => Err(Refusal::Code),
        }
    }
}

// A 16-bit sequence count stands before the data of classes 1, 2 and 3.
#[derive(Clone, Copy)]
pub enum TransportClass {
    Class0 = 0,
    Class1,
    Class2,
    Class3,
    // non-blocking
    Class4,
    // non-blocking, fragmenting
    Class5,
    // multicast, fragmenting
    Class6,
}

impl TryFrom<u8> for TransportClass {
    type Error = Refusal;

    ghost try_from_gives = { λ n r. paper r ≡ coded last_class class_of n };

    #[tactic(auto, using(crate::proofs::CodeLaws::code_laws))]
    fn try_from(n: u8) -> Result<TransportClass, Refusal> {
        match n {
            0 => Ok(TransportClass::Class0),
            1 => Ok(TransportClass::Class1),
            2 => Ok(TransportClass::Class2),
            3 => Ok(TransportClass::Class3),
            4 => Ok(TransportClass::Class4),
            5 => Ok(TransportClass::Class5),
            6 => Ok(TransportClass::Class6),
            _ => Err(Refusal::Code),
        }
    }
}

#[derive(Clone, Copy)]
pub enum VariableLength {
    Fixed = 0,
    Variable,
}

impl From<bool> for VariableLength {
    ghost from_gives = { λ b v. v ≡ variable_of (bit b) };

    fn from(variable: bool) -> VariableLength {
        if variable {
            VariableLength::Variable
        } else {
            VariableLength::Fixed
        }
    }
}

// ---- records; a path stands beside its record, as a list to write and as a part of the input when read, and so does application data, as bytes

#[derive(Clone, Copy)]
pub struct ConnectionParameters {
    // more than one owner may make the connection
    pub redundant_owner: bool,
    pub connection_type: ConnectionType,
    pub variable_length: VariableLength,
    pub priority: Priority,
    // with the sequence count and the 32-bit real time header, if present
    pub connection_size: u16,
}

// Forward Open's fields, small and large.
#[derive(Clone, Copy)]
pub struct OpenOptions {
    pub o_t_connection_id: u32,
    pub t_o_connection_id: u32,
    pub priority_tick_time: u8,
    pub timeout_ticks: u8,
    pub connection_serial_number: u16,
    pub vendor_id: u16,
    pub originator_serial_number: u32,
    // requested packet intervals, microseconds
    pub o_t_rpi: u32,
    pub t_o_rpi: u32,
    pub timeout_multiplier: u8,
    pub o_t_params: ConnectionParameters,
    pub t_o_params: ConnectionParameters,
    pub transport_direction: Direction,
    pub transport_class: TransportClass,
    pub transport_trigger: TriggerType,
    pub large_open: bool,
}

#[derive(Clone, Copy)]
pub struct ForwardCloseRequest {
    pub priority_time_ticks: u8,
    pub timeout_ticks: u8,
    pub connection_serial_number: u16,
    pub originator_vendor_id: u16,
    pub originator_serial_number: u32,
}

// The message and the route stand beside it.
#[derive(Clone, Copy)]
pub struct UnconnectedSend {
    pub priority_ticks: u8,
    pub timeout_ticks: u8,
}

#[derive(Clone, Copy)]
pub struct ForwardOpenSuccess {
    // chosen by the target
    pub o_t_connection_id: u32,
    pub t_o_connection_id: u32,
    pub connection_serial_number: u16,
    pub originator_vendor_id: u16,
    pub originator_serial_number: u32,
    // actual packet intervals, microseconds
    pub o_t_api: u32,
    pub t_o_api: u32,
}

#[derive(Clone, Copy)]
pub struct ForwardCloseSuccess {
    pub connection_serial_number: u16,
    pub originator_vendor_id: u16,
    pub originator_serial_number: u32,
}

#[derive(Clone, Copy)]
pub struct ForwardRequestFail {
    pub connection_serial_number: u16,
    pub originator_vendor_id: u16,
    pub originator_serial_number: u32,
    // in words; only routing errors have one
    pub remaining_path_size: Option<u8>,
}

// ---- defaults, and the setter

pub fn default_parameters() -> ConnectionParameters
    ensures { result ≡ default_parameters }
{
    ConnectionParameters {
        redundant_owner: false,
        connection_type: ConnectionType::P2P,
        variable_length: VariableLength::Fixed,
        priority: Priority::High,
        connection_size: 504,
    }
}

// The default record. The crate draws the serial number; here the caller gives it.
pub fn default_options(connection_serial_number: u16) -> OpenOptions
    ensures { result ≡ default_options connection_serial_number }
{
    let params = default_parameters();
    OpenOptions {
        o_t_connection_id: 0,
        t_o_connection_id: 0,
        priority_tick_time: 0x03,
        timeout_ticks: 0xfa,
        connection_serial_number,
        vendor_id: 0xFF,
        originator_serial_number: 0xFFFFFFFF,
        o_t_rpi: 0x4240,
        t_o_rpi: 0x4240,
        timeout_multiplier: 3,
        o_t_params: params,
        t_o_params: params,
        transport_direction: Direction::Server,
        transport_class: TransportClass::Class3,
        transport_trigger: TriggerType::Application,
        large_open: false,
    }
}

// Sets the tick time: the low four bits of val.
pub fn priority_tick_time(o: OpenOptions, val: u8) -> OpenOptions
    ensures { result ≡ masked o val }
{
    let mut r = o;
    r.priority_tick_time = val % 16;
    r
}
