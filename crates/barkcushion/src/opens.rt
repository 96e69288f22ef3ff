// Forward Open. Each calls the function of its name, whose clauses are repeated here word for word.
ghost use Rattle.std.specs.Prelude.{length, ◌≡◌};
ghost use Rattle.c_answers.specs.Codes.{code, run_answer, run_left};
ghost use Rattle.c_opens.specs.Opens.{default_numbers, open_run};
ghost use Rattle.wire.specs.Answers.{done, with_room, written};
ghost use Rattle.connection_words.specs.Requests.{open_bytes};
ghost use Rattle.c_open_writes.specs.Writes.{open_given, options_of};

// Reads a Forward Open of the form that the caller names.
#[unsafe(no_mangle)]
pub extern "C" fn bark_read_forward_open(large: bool, s: &[u8], fields: &mut [usize]) -> usize
    ensures answer { result ≡ code (run_answer (open_run large s.now) fields.old) }
    ensures numbers { fields.new ≡ run_left (open_run large s.now) fields.old }
{
    c_opens::bark_read_forward_open(large, s, fields)
}

// The default Forward Open with this serial number; it has no path yet.
#[unsafe(no_mangle)]
pub extern "C" fn bark_default_forward_open(
    large: bool,
    connection_serial_number: u16,
    fields: &mut [usize],
) -> usize
    ensures answer { result ≡ code (run_answer (done (default_numbers large connection_serial_number)) fields.old) }
    ensures numbers { fields.new ≡ run_left (done (default_numbers large connection_serial_number)) fields.old }
{
    c_opens::bark_default_forward_open(large, connection_serial_number, fields)
}

// Writes a Forward Open. Its path's refusal comes before its words', and the path is judged once: by the writer, where the words are good.
#[unsafe(no_mangle)]
pub extern "C" fn bark_write_forward_open(
    large_open: bool,
    priority_tick_time: u8,
    timeout_ticks: u8,
    o_t_connection_id: u32,
    t_o_connection_id: u32,
    connection_serial_number: u16,
    vendor_id: u16,
    originator_serial_number: u32,
    timeout_multiplier: u8,
    o_t_rpi: u32,
    o_t_params: u32,
    t_o_rpi: u32,
    t_o_params: u32,
    transport: u8,
    path: &[u8],
    out: &mut [u8],
) -> usize
    ensures answer { result ≡ code (with_room (open_given path.now large_open o_t_params t_o_params transport) (length out.old)) }
    ensures bytes { out.new ≡ written (with_room (open_given path.now large_open o_t_params t_o_params transport) (length out.old)) (open_bytes (options_of large_open priority_tick_time timeout_ticks o_t_connection_id t_o_connection_id connection_serial_number vendor_id originator_serial_number timeout_multiplier o_t_rpi o_t_params t_o_rpi t_o_params transport) path.now) out.old }
{
    c_open_writes::bark_write_forward_open(
        large_open,
        priority_tick_time,
        timeout_ticks,
        o_t_connection_id,
        t_o_connection_id,
        connection_serial_number,
        vendor_id,
        originator_serial_number,
        timeout_multiplier,
        o_t_rpi,
        o_t_params,
        t_o_rpi,
        t_o_params,
        transport,
        path,
        out,
    )
}
