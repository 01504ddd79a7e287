// What the mending program prints, written into a lent buffer.
#![tactic(auto)]

ghost use Rattle.std.specs.Prelude.{◌≡◌, ◌≤◌, length};
ghost use Rattle.std.proofs.Common.{lit<, lit≤};
ghost use Rattle.mending.specs.Mend.{records_from};
ghost use Rattle.lines.specs.Lines.{place_after, written};
ghost use Rattle.mendbytes.specs.Bytes.{room, printed, mend_bytes};

use certifier::Made;
use lines::Printer;
use reading::PlanTable;
use record::Answer;

// room for all that is printed: two plan records and a certificate
pub const ROOM: usize = 2 * PlanTable::BYTES + Made::ROOM;

// What the program prints for an input within the limit: the list, the mended plan and its certificate, or why the plan is refused.
pub struct MendBytes;

impl Printer<ROOM> for MendBytes {
    ghost text = { λ s. printed (records_from s).answer (records_from s) };

    ghost room = { (lit≤ tt, lit< tt) };

    fn put_text<'a>(input: &'a [u8], out: &'a mut [u8]) -> usize {
        let mut list = [0u8; PlanTable::BYTES];
        let mut mended = [0u8; PlanTable::BYTES];
        let mut certificate = [0u8; Made::ROOM];
        let m = mending::mend(input, &mut list, &mut mended, &mut certificate);
        let Answer::Grade(_) = m.answer else {
            return lines::put_refusal(out, 0, m.answer);
        };
        // by way of a buffer of their own: the lent one changes only where all three have room
        let mut all = [0u8; ROOM];
        let a = lines::put_bytes(&mut all, 0, &list[..m.list]);
        let b = lines::put_bytes(&mut all, a, &mended[..m.mended]);
        let c = lines::put_bytes(&mut all, b, &certificate[..m.certificate]);
        lines::put_bytes(out, 0, &all[..c])
    }
}

// Writes the bytes at the start of the buffer and answers how many; where they have no room, nothing is written, and the answer is 0.
// A buffer of ROOM bytes has room for them.
#[tactic(auto, unfolding(crate::specs::Bytes::mend_bytes))]
pub fn bytes<'a>(input: &'a [u8], out: &'a mut [u8]) -> usize
    ensures value { result ≡ place_after out.old 0 (mend_bytes input.now) }
    ensures out_after { out.new ≡ written out.old 0 (mend_bytes input.now) }
    ensures input_len_bound { length (mend_bytes input.now) ≤ room }
{
    MendBytes::print(input, out)
}
