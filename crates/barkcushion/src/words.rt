// Connection parameters, class and trigger. Each calls the function of its name, whose clauses are repeated here word for word.
ghost use Rattle.std.specs.Prelude.{◌≡◌};
ghost use Rattle.c_answers.specs.Codes.{code, run_answer, run_left};
ghost use Rattle.c_forward_words.specs.Words.{encoded_parameters, parameter_run};
ghost use Rattle.c_transport_words.specs.Transports.{encoded_transport, transport_run};

// The connection parameters as a word of 16 bits, or of 32 where large; a type over 2 and a priority over 3 name nothing.
#[unsafe(no_mangle)]
pub extern "C" fn bark_encode_parameters(
    large: bool,
    redundant_owner: bool,
    connection_type: u8,
    variable_length: bool,
    priority: u8,
    connection_size: u16,
) -> usize
    ensures { result ≡ code (encoded_parameters large redundant_owner connection_type variable_length priority connection_size) }
{
    c_forward_words::bark_encode_parameters(
        large,
        redundant_owner,
        connection_type,
        variable_length,
        priority,
        connection_size,
    )
}

// The connection parameters in a word.
#[unsafe(no_mangle)]
pub extern "C" fn bark_decode_parameters(large: bool, word: u32, fields: &mut [usize]) -> usize
    ensures answer { result ≡ code (run_answer (parameter_run large word) fields.old) }
    ensures numbers { fields.new ≡ run_left (parameter_run large word) fields.old }
{
    c_forward_words::bark_decode_parameters(large, word, fields)
}

// Direction, trigger and class as a byte; a trigger over 2 and a class over 6 name nothing.
#[unsafe(no_mangle)]
pub extern "C" fn bark_encode_transport(server: bool, trigger: u8, transport_class: u8) -> usize
    ensures { result ≡ code (encoded_transport server trigger transport_class) }
{
    c_transport_words::bark_encode_transport(server, trigger, transport_class)
}

// Direction, trigger and class in a byte.
#[unsafe(no_mangle)]
pub extern "C" fn bark_decode_transport(byte: u8, fields: &mut [usize]) -> usize
    ensures answer { result ≡ code (run_answer (transport_run byte) fields.old) }
    ensures numbers { fields.new ≡ run_left (transport_run byte) fields.old }
{
    c_transport_words::bark_decode_transport(byte, fields)
}
