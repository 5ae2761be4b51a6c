// Replays stored questions to the leaves: for each record of the file that its argument names, a line with the leaf's answer.
// The work is `lines::put_lines`, proved equal to the definition `lines_of`; no contract can say what is read or written. It rests on the leaves,
// `text` and `input`.
#![tactic(auto)]

ghost use Rattle.std.specs.Prelude.{◌≡◌, length};

use std::fs::File;
use std::io::Write;
use std::{env, io};

mod lines;

// 2,000 records, and a byte more, so that of a longer file the last line says so. (An array, since nothing here has a heap; a function, since a proof that
// meets the array itself writes out its places.)
fn input_buffer() -> [u8; 28001]
    ensures { 28001 ≡ length result }
{
    [0; 28001]
}

// Room for every line. (Likewise.)
fn output_buffer() -> [u8; 120060]
    ensures { 120060 ≡ length result }
{
    [0; 120060]
}

fn main(rt: HostRuntime) -> io::Result<()> {
    let Some(name) = env::args(&rt)?.nth(1) else {
        return Err(io::Error::other("no file is named"));
    };
    let mut from = File::open(&rt, name.as_str())?;
    let mut questions = input_buffer();
    let n = input::read_file(&mut from, &mut questions)?;
    let mut out = output_buffer();
    let end = lines::put_lines(&mut out, &questions[..n]);
    Write::write_all(&mut rt.stdout(), &out[..end])
}
