// Writes the name and the listing of each file that its arguments name: stored hall files, whose listings are known. It rests on `input` and `listing_io`.
#![tactic(auto)]

ghost use Rattle.std.specs.Prelude.{IfOk};
ghost use Rattle.listing_io.specs.Counts.{IsPrefixLen};

use std::fs::File;
use std::io::Write;
use std::{env, io};

// The listing of the file, stored in out; how many bytes it has.
fn listed(rt: &HostRuntime, name: &str, out: &mut [u8; 524328]) -> io::Result<usize>
    ensures { IfOk result (λ n. IsPrefixLen n out.new) }
{
    let mut from = File::open(rt, name)?;
    let mut file = input::buffer();
    let listed = listing_io::list_fd(&mut from, &mut file, out)?;
    Ok(listed.len)
}

// A file that cannot be read has a line that no listing has.
fn list_file(rt: &HostRuntime, name: &str) -> io::Result<()> {
    let mut out = listing_io::output_buffer();
    match listed(rt, name, &mut out) {
        Ok(n) => Write::write_all(&mut rt.stdout(), &out[..n]),
        Err(e) => {
            let _ = eprintln!(rt; "{name}: {e}");
            println!(rt; "not read")
        }
    }
}

fn main(rt: HostRuntime) -> io::Result<()> {
    for name in env::args(&rt)?.skip(1) {
        println!(rt; "== {name}")?;
        list_file(&rt, name.as_str())?;
    }
    Ok(())
}
