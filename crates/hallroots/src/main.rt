// Reads a hall file from standard input and writes its listing to standard output. The work is `listing_io::list_fd`, proved to store the definition
// `listing OfExact` of what was read, in the lanes' mode; no contract can say what the system reads or writes. It rests on `input` and `listing_io`.
#![tactic(auto)]

use std::io::Write;

// Where a read fails nothing is listed; that, and a write that fails, is said on standard error.
fn main(rt: HostRuntime) {
    let mut file = input::buffer();
    let mut out = listing_io::output_buffer();
    let listed = match listing_io::list_fd(&mut rt.stdin(), &mut file, &mut out) {
        Ok(listed) => listed,
        Err(e) => {
            let _ = eprintln!(rt; "reading the hall file: {e}");
            return;
        }
    };
    if let Err(e) = Write::write_all(&mut rt.stdout(), &out[..listed.len]) {
        let _ = eprintln!(rt; "writing the listing: {e}");
    }
}
