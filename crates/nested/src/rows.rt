// A row of four numbers: depth, service, path bytes, data bytes.
ghost use Rattle.std.specs.Prelude.{◌≡◌, ◌*◌, ◌≤◌, set};
ghost use Rattle.std.proofs.lemmas.List.Edits.{sets};
ghost use Rattle.connection.specs.Limits.{max_record};
ghost use Rattle.nested.specs.Nested.{row_size, row_of, row_values};

use message_read::MessageRequest;

// Stores a number; past the end nothing changes.
fn put_number(rows: &mut [u16], at: usize, v: u16)
    ensures { rows.new ≡ set rows.old at v }
{
    // not by get_mut: std says nothing of what a slice holds after it
    if at < rows.len() {
        rows[at] = v;
    }
}

// Stores the row of a message at a depth, as the row with this number.
pub(crate) fn put_row(rows: &mut [u16], at: usize, depth: usize, m: MessageRequest)
    requires { (at ≤ max_record) × (depth ≤ max_record) × (m.path_len ≤ max_record) × (m.data_len ≤ max_record) }
    ensures { rows.new ≡ sets rows.old (row_size * at) (row_values (row_of depth m)) }
{
    let first = crate::ROW * at;
    put_number(rows, first, depth as u16);
    put_number(rows, first + 1, m.service_code as u16);
    put_number(rows, first + 2, m.path_len as u16);
    put_number(rows, first + 3, m.data_len as u16);
}
