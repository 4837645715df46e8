// Calls of a host as plain data, and what it answers.
use desk_hosts::{Asking, Called, Site2};

/// A method, a path and a body, and the status and the body that are wanted.
pub type Row = (Asking, &'static str, &'static str, u16, &'static str);

/// A report, and another one of its key.
pub const REPORT: &str = "report 1\ncomputer pc1\nseq 1\nrow 7 1 fixed 1000 1010\nend\n";

pub const OTHER: &str = "report 1\ncomputer pc1\nseq 1\nrow 7 1 failed 1000 1010\nend\n";

/// The path of the file `abc`, by the SHA-256 in FIPS 180-4.
pub const ABC: &str = "/files/ba7816bf8f01cfea414140de5dae2223b00361a396177a9cb410ff61f20015ad";

/// Whether the host answers a call as its row says.
pub fn answers<H: Site2>(host: &mut H, row: &Row) -> bool {
    let (asking, path, body, wanted, text) = *row;
    match host.call(asking, path.as_bytes(), body.as_bytes()) {
        Called::Answer(status, answer) => {
            status == wanted && answer.as_slice() == text.as_bytes()
        }
        Called::Memory => false,
    }
}

/// How many rows before the first call that the host doesn't answer so.
pub fn first_unanswered<H: Site2>(host: &mut H, rows: &[Row]) -> Option<usize> {
    for (before, row) in rows.iter().enumerate() {
        if !answers(host, row) {
            return Some(before);
        }
    }
    None
}
