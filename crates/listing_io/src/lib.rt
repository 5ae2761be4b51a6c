// A hall file read from a reader, and its listing in a lent buffer. That the buffer then holds the listing of what was read, and that every listing fits,
// the contract says; and of a reader whose bytes are known, that they are what was read.
// It rests on `input` and `listing`; the programs rest on it.
#![tactic(auto)]

ghost use Rattle.std.specs.Prelude.{◌≡◌, ◌≤◌, ◌<◌, length, take, IfOk, OnErr};
ghost use Rattle.std.proofs.lemmas.List.Edits.{sets};
ghost use Rattle.std.specs.Io.KnownBytes.{Consumes, IsAtEnd};
ghost use Rattle.listing_io.specs.Counts.{IsPrefixLen};
ghost use Rattle.listing.specs.File.{listing};
ghost use Rattle.angle.specs.declared.Sine.TheVariants.{OfExact};

use angle::Sine;
use std::io;
use std::io::Read;

// Room for every listing (`listing_fits`). (An array and a function, as input::buffer.)
pub fn output_buffer() -> [u8; 524328]
    ensures { 524328 ≡ length result }
{
    [0; 524328]
}

// How many bytes were read, and how many their listing has. (Numbers and no slices: a lent buffer from which the answer borrows has no `.new`, by which the
// contract says what stands in it.)
#[derive(Clone, Copy)]
pub struct Listed {
    pub read: usize,
    pub len: usize,
}

// Reads to the end of what `from` gives, or until file is full, and stores the listing of what was read from the start of out on; where a read fails, nothing.
// The mode is the lanes': the third angle's sine is that of the exact cosine.
pub fn list_fd<R: Read>(from: &mut R, file: &mut [u8], out: &mut [u8; 524328]) -> io::Result<Listed>
    ensures read_in_bounds { IfOk result (λ l. l.read ≤ length file.new) }
    ensures read_bytes { IfOk result (λ l. Consumes (R.remaining from.old) (R.remaining from.new) (take l.read file.new)) }
    ensures read_end { IfOk result (λ l. l.read < length file.new → IsAtEnd (R.remaining from.new)) }
    ensures len_value { IfOk result (λ l. l.len ≡ length (listing OfExact (take l.read file.new))) }
    ensures out_after { IfOk result (λ l. out.new ≡ sets out.old 0 (listing OfExact (take l.read file.new))) }
    ensures prefix_len { IfOk result (λ l. IsPrefixLen l.len out.new) }
    ensures failed { OnErr result (out.new ≡ out.old) }
{
    let read = input::read_file(from, file)?;
    let len = listing::list_file(Sine::OfExact, &file[..read], out);
    Ok(Listed { read, len })
}
