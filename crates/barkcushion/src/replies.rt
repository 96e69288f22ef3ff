// Replies and the envelope. Each calls the function of its name, whose clauses are repeated here word for word.
ghost use Rattle.std.specs.Prelude.{length, ◌≡◌};
ghost use Rattle.reply_header.specs.Headers.{read_header};
ghost use Rattle.c_answers.specs.Codes.{code, run_answer, run_left};
ghost use Rattle.c_reply_numbers.specs.Numbers.{reply_run};
ghost use Rattle.statuses.specs.Statuses.{is_routing_error};
ghost use Rattle.c_statuses.specs.Statuses.{status_of};
ghost use Rattle.c_envelope.specs.Envelopes.{envelope_run};
ghost use Rattle.c_open_replies.specs.OpenReplies.{open_reply_run};
ghost use Rattle.c_close_replies.specs.CloseReplies.{close_reply_run};
ghost use Rattle.wire.specs.Answers.{with_room, written};
ghost use Rattle.success_encode.specs.Replies.{close_reply_bytes, open_reply_bytes};
ghost use Rattle.success_encode.specs.Sizes.{close_success_base, open_success_base, success_size};
ghost use Rattle.c_reply_writes.specs.Writes.{closed_of, opened_of};
ghost use Rattle.failure_encode.specs.Failures.{failure_bytes};
ghost use Rattle.failure_encode.specs.Sizes.{failure_size};
ghost use Rattle.c_failure_writes.specs.Failures.{fail_of};

// Reads a reply's header.
#[unsafe(no_mangle)]
pub extern "C" fn bark_read_reply(s: &[u8], fields: &mut [usize]) -> usize
    ensures answer { result ≡ code (run_answer (reply_run (read_header s.now)) fields.old) }
    ensures numbers { fields.new ≡ run_left (reply_run (read_header s.now)) fields.old }
{
    c_replies::bark_read_reply(s, fields)
}

// Whether a status tells of a request that failed on its way.
#[unsafe(no_mangle)]
pub extern "C" fn bark_is_routing_error(general: u8, has_word: bool, word: u16) -> bool
    ensures { result ≡ is_routing_error (status_of general has_word word) }
{
    c_statuses::bark_is_routing_error(general, has_word, word)
}

// Reads the two-item envelope.
#[unsafe(no_mangle)]
pub extern "C" fn bark_read_envelope(s: &[u8], fields: &mut [usize]) -> usize
    ensures answer { result ≡ code (run_answer (envelope_run s.now) fields.old) }
    ensures numbers { fields.new ≡ run_left (envelope_run s.now) fields.old }
{
    c_envelope::bark_read_envelope(s, fields)
}

// Reads a Forward Open reply; the caller says whether a failure is a routing error.
#[unsafe(no_mangle)]
pub extern "C" fn bark_read_forward_open_reply(
    routing: bool,
    s: &[u8],
    fields: &mut [usize],
) -> usize
    ensures answer { result ≡ code (run_answer (open_reply_run routing s.now) fields.old) }
    ensures numbers { fields.new ≡ run_left (open_reply_run routing s.now) fields.old }
{
    c_open_replies::bark_read_forward_open_reply(routing, s, fields)
}

// Reads a Forward Close reply; the caller says whether a failure is a routing error.
#[unsafe(no_mangle)]
pub extern "C" fn bark_read_forward_close_reply(
    routing: bool,
    s: &[u8],
    fields: &mut [usize],
) -> usize
    ensures answer { result ≡ code (run_answer (close_reply_run routing s.now) fields.old) }
    ensures numbers { fields.new ≡ run_left (close_reply_run routing s.now) fields.old }
{
    c_close_replies::bark_read_forward_close_reply(routing, s, fields)
}

// Writes the reply to a Forward Open that was served.
#[unsafe(no_mangle)]
pub extern "C" fn bark_write_forward_open_success(
    service: u8,
    o_t_connection_id: u32,
    t_o_connection_id: u32,
    connection_serial_number: u16,
    vendor_id: u16,
    originator_serial_number: u32,
    o_t_api: u32,
    t_o_api: u32,
    app_data: &[u8],
    out: &mut [u8],
) -> usize
    ensures answer { result ≡ code (with_room (success_size open_success_base app_data.now) (length out.old)) }
    ensures bytes { out.new ≡ written (with_room (success_size open_success_base app_data.now) (length out.old)) (open_reply_bytes service (opened_of o_t_connection_id t_o_connection_id connection_serial_number vendor_id originator_serial_number o_t_api t_o_api) app_data.now) out.old }
{
    c_reply_writes::bark_write_forward_open_success(
        service,
        o_t_connection_id,
        t_o_connection_id,
        connection_serial_number,
        vendor_id,
        originator_serial_number,
        o_t_api,
        t_o_api,
        app_data,
        out,
    )
}

// Writes the reply to a Forward Close that was served.
#[unsafe(no_mangle)]
pub extern "C" fn bark_write_forward_close_success(
    service: u8,
    connection_serial_number: u16,
    vendor_id: u16,
    originator_serial_number: u32,
    app_data: &[u8],
    out: &mut [u8],
) -> usize
    ensures answer { result ≡ code (with_room (success_size close_success_base app_data.now) (length out.old)) }
    ensures bytes { out.new ≡ written (with_room (success_size close_success_base app_data.now) (length out.old)) (close_reply_bytes service (closed_of connection_serial_number vendor_id originator_serial_number) app_data.now) out.old }
{
    c_reply_writes::bark_write_forward_close_success(
        service,
        connection_serial_number,
        vendor_id,
        originator_serial_number,
        app_data,
        out,
    )
}

// Writes the reply to either that failed.
#[unsafe(no_mangle)]
pub extern "C" fn bark_write_forward_failure(
    service: u8,
    general: u8,
    has_word: bool,
    word: u16,
    connection_serial_number: u16,
    vendor_id: u16,
    originator_serial_number: u32,
    has_remaining: bool,
    remaining: u8,
    out: &mut [u8],
) -> usize
    ensures answer { result ≡ code (with_room (failure_size (status_of general has_word word) (fail_of connection_serial_number vendor_id originator_serial_number has_remaining remaining)) (length out.old)) }
    ensures bytes { out.new ≡ written (with_room (failure_size (status_of general has_word word) (fail_of connection_serial_number vendor_id originator_serial_number has_remaining remaining)) (length out.old)) (failure_bytes service (status_of general has_word word) (fail_of connection_serial_number vendor_id originator_serial_number has_remaining remaining)) out.old }
{
    c_failure_writes::bark_write_forward_failure(
        service,
        general,
        has_word,
        word,
        connection_serial_number,
        vendor_id,
        originator_serial_number,
        has_remaining,
        remaining,
        out,
    )
}
