// What the program says where a read or a write fails.
use std::io;

// The system's words for an error, without its number.
fn words(why: &str) -> &str {
    match why.split_once(" (os error ") {
        Some((front, _)) => front,
        None => why,
    }
}

// Says on standard error what failed and why.
pub fn tell(rt: &(impl Eprint + AllocGlobal), what: &str, error: io::Error) -> io::Result<()> {
    let why = format!(in rt.alloc(); "{error}")?;
    let words = words(why.as_str());
    eprintln!(rt; "misqafur: {what}: {words}")
}
