// A read or a write that failed, as it is said on standard error. It has no contract: none can say what standard error takes.
#![tactic(auto)]

use std::io;

// What the system says of an error, without the number that std writes behind it.
fn reason(text: &str) -> &str {
    match text.rsplit_once(" (os error ") {
        Some((words, _)) => words,
        None => text,
    }
}

// Writes a line to standard error: what failed, and why. Where that fails too there is nobody to tell.
pub fn fail(rt: &(impl Eprint + Alloc), what: &str, error: io::Error) {
    let _ = match format!(in rt.alloc(); "{error}") {
        Ok(text) => eprintln!(rt; "{what}: {}", reason(text.as_str())),
        Err(_) => eprintln!(rt; "{what}: {error}"),
    };
}
