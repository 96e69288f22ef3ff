// What the program answers has no operation for: the values of src/epath.rs, and the numbers of the refusals.
use crate::say;
use crate::show::Said;
use epath::{Segment, SymbolSegment};
use wire::Refusal;

// A count, which none of these functions refuses.
fn count(rt: &impl Print, what: &str, n: Result<usize, Refusal>) {
    match n {
        Ok(n) => say(rt, format_args!("{what}: {n}\n")),
        Err(_) => say(rt, format_args!("{what}: refused\n")),
    }
}

pub(crate) fn functions(rt: &impl Print) {
    let mut out = [0; 4];
    let port = Segment::Port(epath::default_port());
    let symbol = Segment::Symbol(SymbolSegment { start: 0, len: 0 });
    let manager = epath::EPATH_CONNECTION_MANAGER;
    let w = epath::write_segment(port, b"", &mut out);
    say(
        rt,
        format_args!("default_port, written:{}\n", Said::wrote(w, &out)),
    );
    count(
        rt,
        "blank_path, its size",
        epath::path_size(epath::blank_path(), b""),
    );
    say(rt, "is_port of a port, a class, a symbol:");
    for x in [port, Segment::Class(1), symbol] {
        say(rt, if epath::is_port(x) { " yes" } else { " no" });
    }
    say(
        rt,
        format_args!("\nEPATH_CONNECTION_MANAGER:{}", Said::Bytes(&manager)),
    );
    count(rt, ", segments", epath::check_path(&manager));
}

pub(crate) fn refusals(rt: &impl Print) {
    say(rt, "refusal_number, in document 01's order:");
    for e in [
        Refusal::Short,
        Refusal::Room,
        Refusal::Limit,
        Refusal::Code,
        Refusal::Form,
        Refusal::Words,
        Refusal::Offset,
        Refusal::Leftover,
        Refusal::Depth,
        Refusal::Envelope,
        Refusal::Outside,
    ] {
        say(rt, format_args!(" {}", wire::refusal_number(e)));
    }
    say(rt, "\n");
}
