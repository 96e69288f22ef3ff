// Messages, Forward Close and Unconnected Send. Each calls the function of its name, whose clauses are repeated here word for word.
ghost use Rattle.std.specs.Prelude.{length, ◌≡◌};
ghost use Rattle.wire.specs.Answers.{with_room, written};
ghost use Rattle.connection_words.specs.Requests.{close_bytes, message_bytes, send_bytes};
ghost use Rattle.message_over.specs.Over.{message_over_size};
ghost use Rattle.c_answers.specs.Codes.{code, run_answer, run_left};
ghost use Rattle.c_messages.specs.Fields.{message_run};
ghost use Rattle.c_closes.specs.Closes.{close_of, close_run};
ghost use Rattle.close_over.specs.Over.{close_over_size};
ghost use Rattle.send_over.specs.Over.{send_over_size};
ghost use Rattle.c_sends.specs.Fields.{send_of, send_run};

// Writes a message over a path's bytes.
#[unsafe(no_mangle)]
pub extern "C" fn bark_write_message(service: u8, path: &[u8], data: &[u8], out: &mut [u8]) -> usize
    ensures answer { result ≡ code (with_room (message_over_size path.now (length «data».now)) (length out.old)) }
    ensures bytes { out.new ≡ written (with_room (message_over_size path.now (length «data».now)) (length out.old)) (message_bytes service path.now «data».now) out.old }
{
    c_messages::bark_write_message(service, path, data, out)
}

// Reads a message.
#[unsafe(no_mangle)]
pub extern "C" fn bark_read_message(s: &[u8], fields: &mut [usize]) -> usize
    ensures answer { result ≡ code (run_answer (message_run s.now) fields.old) }
    ensures numbers { fields.new ≡ run_left (message_run s.now) fields.old }
{
    c_messages::bark_read_message(s, fields)
}

// Reads a Forward Close.
#[unsafe(no_mangle)]
pub extern "C" fn bark_read_forward_close(s: &[u8], fields: &mut [usize]) -> usize
    ensures answer { result ≡ code (run_answer (close_run s.now) fields.old) }
    ensures numbers { fields.new ≡ run_left (close_run s.now) fields.old }
{
    c_closes::bark_read_forward_close(s, fields)
}

// Writes a Forward Close.
#[unsafe(no_mangle)]
pub extern "C" fn bark_write_forward_close(
    priority_ticks: u8,
    timeout_ticks: u8,
    connection_serial_number: u16,
    vendor_id: u16,
    originator_serial_number: u32,
    path: &[u8],
    out: &mut [u8],
) -> usize
    ensures answer { result ≡ code (with_room (close_over_size path.now) (length out.old)) }
    ensures bytes { out.new ≡ written (with_room (close_over_size path.now) (length out.old)) (close_bytes (close_of priority_ticks timeout_ticks connection_serial_number vendor_id originator_serial_number) path.now) out.old }
{
    c_closes::bark_write_forward_close(
        priority_ticks,
        timeout_ticks,
        connection_serial_number,
        vendor_id,
        originator_serial_number,
        path,
        out,
    )
}

// Writes the data of an Unconnected Send over a path's bytes.
#[unsafe(no_mangle)]
pub extern "C" fn bark_write_unconnected_send(
    priority_ticks: u8,
    timeout_ticks: u8,
    message: &[u8],
    path: &[u8],
    out: &mut [u8],
) -> usize
    ensures answer { result ≡ code (with_room (send_over_size path.now (length message.now)) (length out.old)) }
    ensures bytes { out.new ≡ written (with_room (send_over_size path.now (length message.now)) (length out.old)) (send_bytes (send_of priority_ticks timeout_ticks) message.now path.now) out.old }
{
    c_sends::bark_write_unconnected_send(priority_ticks, timeout_ticks, message, path, out)
}

// Reads the data of an Unconnected Send.
#[unsafe(no_mangle)]
pub extern "C" fn bark_read_unconnected_send(s: &[u8], fields: &mut [usize]) -> usize
    ensures answer { result ≡ code (run_answer (send_run s.now) fields.old) }
    ensures numbers { fields.new ≡ run_left (send_run s.now) fields.old }
{
    c_sends::bark_read_unconnected_send(s, fields)
}
