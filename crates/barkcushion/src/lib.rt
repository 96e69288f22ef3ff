// What C and Rust link: the whole codec. Each function calls the one of its name in a crate c_*, whose clauses are repeated here word for word.
// include/barkcushion.h has what C sees.
#![tactic(auto)]

mod paths; // paths.rt: paths
mod words; // words.rt: connection parameters, class and trigger
mod requests; // requests.rt: messages, Forward Close and Unconnected Send
mod opens; // opens.rt: Forward Open
mod replies; // replies.rt: replies and the envelope
mod bodies; // bodies.rt: bodies, the replies in them, and nested messages
mod scraps; // scraps.rt: frames of a stream
