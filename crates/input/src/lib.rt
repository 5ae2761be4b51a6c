// A file read from a reader. The bytes that the system's readers give no contract can say; what an answer means, that a failed read keeps no byte, and that of
// a reader whose bytes are known all that fit are read, it can.
// It rests on the library alone; the hall file's reading rests on it.
#![tactic(auto)]

ghost use Rattle.std.specs.Prelude.{◌≡◌, ◌≤◌, ◌<◌, length, take, IfOk};
ghost use Rattle.std.specs.Io.KnownBytes.{Consumes, IsAtEnd};
ghost use Rattle.input.specs.Answers.{meaning_of};

use std::io;
use std::io::Read;

// One byte more than a file may have, so that a longer one is seen to be longer. (An array, since nothing here has a heap; a function, since a proof that
// meets the array itself writes out its places.)
pub fn buffer() -> [u8; 65537]
    ensures { 65537 ≡ length result }
{
    [0; 65537]
}

// What `got`, which a read into a buffer with room answered, means: how many bytes there are more, or that the input ends.
#[tactic(auto, unfolding(crate::specs::Answers::meaning_of))]
fn meaning(got: io::Result<usize>) -> io::Result<Option<usize>>
    ensures { result ≡ meaning_of got }
{
    match got? {
        0 => Ok(None),
        more => Ok(Some(more)),
    }
}

// Reads to the end of what `from` gives, or until buf is full; how many bytes were read. Where a read fails none is kept.
pub fn read_file<R: Read>(from: &mut R, buf: &mut [u8]) -> io::Result<usize>
    ensures len_in_bounds { IfOk result (λ n. n ≤ length buf.new) }
    ensures bytes { IfOk result (λ n. Consumes (R.remaining from.old) (R.remaining from.new) (take n buf.new)) }
    ensures end { IfOk result (λ n. n < length buf.new → IsAtEnd (R.remaining from.new)) }
{
    let mut done = 0;
    // (A while: it ends with the input or a full buffer; std's read_to_end takes a Vec, and nothing here has a heap.)
    while done < buf.len() {
        let got = from.read(&mut buf[done..]);
        match meaning(got)? {
            None => return Ok(done),
            Some(more) => done += more,
        }
    }
    Ok(done)
}
