// The fields of a Forward Open: what a case has of them, and what an answer shows.
use crate::fields::Fields;
use crate::said::Answer;
use connection::{
    ConnectionParameters, ConnectionType, Direction, OpenOptions, Priority, TransportClass,
    TriggerType, VariableLength,
};

fn parameters(case: &mut Fields<'_>) -> Option<ConnectionParameters> {
    Some(ConnectionParameters {
        connection_size: case.u16()?,
        variable_length: VariableLength::from(case.flag()?),
        priority: Priority::try_from(case.byte()?).ok()?,
        connection_type: ConnectionType::try_from(case.byte()?).ok()?,
        redundant_owner: case.flag()?,
    })
}

// A Forward Open, from its priority byte on.
pub(crate) fn open(large: bool, case: &mut Fields<'_>) -> Option<OpenOptions> {
    Some(OpenOptions {
        priority_tick_time: case.byte()?,
        timeout_ticks: case.byte()?,
        o_t_connection_id: case.u32()?,
        t_o_connection_id: case.u32()?,
        connection_serial_number: case.u16()?,
        vendor_id: case.u16()?,
        originator_serial_number: case.u32()?,
        timeout_multiplier: case.byte()?,
        o_t_rpi: case.u32()?,
        o_t_params: parameters(case)?,
        t_o_rpi: case.u32()?,
        t_o_params: parameters(case)?,
        transport_direction: Direction::from(case.flag()?),
        transport_trigger: TriggerType::try_from(case.byte()?).ok()?,
        transport_class: TransportClass::try_from(case.byte()?).ok()?,
        large_open: large,
    })
}

fn put_parameters(p: ConnectionParameters, answer: &mut Answer<'_>) {
    answer.u16(p.connection_size);
    answer.put(&[
        p.variable_length as u8,
        p.priority as u8,
        p.connection_type as u8,
        u8::from(p.redundant_owner),
    ]);
}

// A Forward Open as a case has it.
pub(crate) fn put_open(o: OpenOptions, answer: &mut Answer<'_>) {
    answer.put(&[o.priority_tick_time, o.timeout_ticks]);
    answer.u32(o.o_t_connection_id);
    answer.u32(o.t_o_connection_id);
    answer.u16(o.connection_serial_number);
    answer.u16(o.vendor_id);
    answer.u32(o.originator_serial_number);
    answer.put(&[o.timeout_multiplier]);
    answer.u32(o.o_t_rpi);
    put_parameters(o.o_t_params, answer);
    answer.u32(o.t_o_rpi);
    put_parameters(o.t_o_params, answer);
    answer.put(&[
        o.transport_direction as u8,
        o.transport_trigger as u8,
        o.transport_class as u8,
    ]);
}
