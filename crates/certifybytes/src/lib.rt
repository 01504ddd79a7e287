// What the maker's program prints, written into a lent buffer.
#![tactic(auto)]

ghost use Rattle.std.specs.Prelude.{◌≡◌, ◌≤◌, length, take};
ghost use Rattle.std.proofs.Common.{lit<, lit≤};
ghost use Rattle.certifier.specs.Made.{made_from, filled_from};
ghost use Rattle.lines.specs.Lines.{place_after, written};
ghost use Rattle.certifybytes.specs.Bytes.{room, zeros, made_bytes, certify_bytes};

use certifier::Made;
use lines::Printer;
use reading::PlanTable;
use record::Answer;

// room for all that is printed
pub const ROOM: usize = PlanTable::BYTES + Made::ROOM;

// What the program prints for an input within the limit: the plan and behind it its certificate, or why the plan is refused.
pub struct CertifyBytes;

impl Printer<ROOM> for CertifyBytes {
    ghost text = { λ s. made_bytes s (made_from s zeros).answer (take (made_from s zeros).length (filled_from s zeros)) };

    ghost room = { (lit≤ tt, lit< tt) };

    fn put_text<'a>(input: &'a [u8], out: &'a mut [u8]) -> usize {
        let mut certificate = [0u8; Made::ROOM];
        let made = certifier::certify(input, &mut certificate);
        let Answer::Grade(_) = made.answer else {
            return lines::put_refusal(out, 0, made.answer);
        };
        lines::put_both(out, 0, input, &certificate[..made.length])
    }
}

// Writes the bytes at the start of the buffer and answers how many; where they have no room, nothing is written, and the answer is 0.
// A buffer of ROOM bytes has room for them.
#[tactic(auto, unfolding(crate::specs::Bytes::certify_bytes))]
pub fn bytes<'a>(input: &'a [u8], out: &'a mut [u8]) -> usize
    ensures value { result ≡ place_after out.old 0 (certify_bytes input.now) }
    ensures out_after { out.new ≡ written out.old 0 (certify_bytes input.now) }
    ensures input_len_bound { length (certify_bytes input.now) ≤ room }
{
    CertifyBytes::print(input, out)
}
