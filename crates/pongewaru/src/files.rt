// The hall file in lent bytes: its listing from the start of those lent on, as far as they reach. The answer is how many bytes the listing has.
ghost use Rattle.std.specs.Prelude.{◌≡◌, length};
ghost use Rattle.std.proofs.lemmas.List.Edits.{sets};
ghost use Rattle.angle.specs.declared.Sine.TheVariants.{OfExact};
ghost use Rattle.angle.specs.Third.{sine_numbered};
ghost use Rattle.listing.specs.File.{listing};

use crate::SINE_OF_EXACT;
use angle::Sine;

#[unsafe(no_mangle)]
pub extern "C" fn pongewaru_list_file_by(sine: u32, file: &[u8], out: &mut [u8]) -> u64
    ensures value { result ≡ length (listing (sine_numbered sine) file.now) }
    ensures out_after { out.new ≡ sets out.old 0 (listing (sine_numbered sine) file.now) }
{
    listing::list_file(Sine::from(sine), file, out) as u64
}

#[unsafe(no_mangle)]
#[tactic(auto, unfolding(angle::specs::Third::sine_numbered))]
pub extern "C" fn pongewaru_list_file(file: &[u8], out: &mut [u8]) -> u64
    ensures value { result ≡ length (listing OfExact file.now) }
    ensures out_after { out.new ≡ sets out.old 0 (listing OfExact file.now) }
{
    pongewaru_list_file_by(SINE_OF_EXACT, file, out)
}
