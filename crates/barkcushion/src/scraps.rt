// Frames of a stream. Each calls the function of its name, whose clauses are repeated here word for word.
ghost use Rattle.std.specs.Prelude.{◌≡◌};
ghost use Rattle.c_answers.specs.Codes.{code};
ghost use Rattle.c_frames.specs.Scraps.{bytes_after, frame_after, numbers_after, taken_answer};

// Takes a scrap, up to a frame's end.
#[unsafe(no_mangle)]
pub extern "C" fn bark_take_scrap(
    state: &mut [usize; 3],
    buffer: &mut [u8],
    scrap: &[u8],
    frame: &mut usize,
) -> usize
    ensures answer { result ≡ code (taken_answer state.old buffer.old scrap.now) }
    ensures state { state.new ≡ numbers_after state.old buffer.old scrap.now }
    ensures bytes { buffer.new ≡ bytes_after state.old buffer.old scrap.now }
    ensures frame { frame.new ≡ frame_after state.old buffer.old scrap.now frame.old }
{
    c_frames::bark_take_scrap(state, buffer, scrap, frame)
}
