// The line of a refusal, and what lines are made of: bytes, decimal numbers and a plan's size, written into a lent buffer.
#![tactic(auto)]

ghost use Rattle.std.specs.Prelude.{◌≡◌, ℕ, ◌^◌, ◌<◌, List, ◌++◌, ◌≤◌, length, flat_map};
ghost use Rattle.lines.specs.Lines.{decimal, fault_line, refusal_line, size_text, too_long_line, limited, place_after, written, longest};

use itoa::Buffer;
use record::Answer;

// the longest input of a program that reads a plan, in bytes
pub const LIMIT: usize = 4096;

// No line that a program prints is longer.
pub const LONGEST: usize = 48;

// Each function answers the place behind what it wrote; where there is no room it writes nothing, and answers the place it was given: so the calls can
// follow one another without a test, as the definition place_after has it.
pub fn put_bytes<'a>(out: &'a mut [u8], at: usize, bytes: &'a [u8]) -> usize
    ensures value { result ≡ place_after out.old at bytes.now }
    ensures out_after { out.new ≡ written out.old at bytes.now }
{
    if out.len() < bytes.len() || out.len() - bytes.len() < at {
        return at;
    }
    let end = at + bytes.len();
    out[at..end].copy_from_slice(bytes);
    end
}

// All the parts, one behind the other, or none.
pub fn put_all(out: &mut [u8], at: usize, parts: &[&[u8]]) -> usize
    ensures value { result ≡ place_after out.old at (flat_map (λ part. part.now) parts.now) }
    ensures out_after { out.new ≡ written out.old at (flat_map (λ part. part.now) parts.now) }
{
    if out.len() < at {
        return at;
    }
    let mut room = out.len() - at;
    for part in parts {
        if room < part.len() {
            return at;
        }
        room -= part.len();
    }
    let mut next = at;
    for part in parts {
        next = put_bytes(out, next, part);
    }
    next
}

pub fn put_both<'a>(out: &'a mut [u8], at: usize, first: &'a [u8], second: &'a [u8]) -> usize
    ensures value { result ≡ place_after out.old at (first.now ++ second.now) }
    ensures out_after { out.new ≡ written out.old at (first.now ++ second.now) }
{
    put_all(out, at, &[first, second])
}

pub fn put_decimal(out: &mut [u8], at: usize, n: u64) -> usize
    ensures value { result ≡ place_after out.old at (decimal n) }
    ensures out_after { out.new ≡ written out.old at (decimal n) }
{
    put_bytes(out, at, Buffer::new().format(n).as_bytes())
}

// A label and a number.
pub fn put_numbered<'a>(out: &'a mut [u8], at: usize, label: &'a [u8], n: u64) -> usize
    ensures value { result ≡ place_after out.old at (label.now ++ decimal n) }
    ensures out_after { out.new ≡ written out.old at (label.now ++ decimal n) }
{
    put_all(out, at, &[label, Buffer::new().format(n).as_bytes()])
}

// A plan's numbers of boxes and cables.
pub fn put_size(out: &mut [u8], at: usize, n: u16, m: u16) -> usize
    ensures value { result ≡ place_after out.old at (size_text n m) }
    ensures out_after { out.new ≡ written out.old at (size_text n m) }
{
    let (mut boxes, mut cables) = (Buffer::new(), Buffer::new());
    put_all(
        out,
        at,
        &[
            b"boxes ",
            boxes.format(n).as_bytes(),
            b" cables ",
            cables.format(m).as_bytes(),
        ],
    )
}

fn put_fault<'a>(out: &'a mut [u8], at: usize, who: &'a [u8], number: u8, place: usize) -> usize
    requires { length who.now ≤ 11 }
    ensures value { result ≡ place_after out.old at (fault_line who.now number place) }
    ensures out_after { out.new ≡ written out.old at (fault_line who.now number place) }
    ensures place_len_bound { length (fault_line who.now number place) ≤ longest }
{
    let (mut numbers, mut places) = (Buffer::new(), Buffer::new());
    put_all(
        out,
        at,
        &[
            who,
            b" refused ",
            numbers.format(number).as_bytes(),
            b" at ",
            places.format(place).as_bytes(),
            b"\n",
        ],
    )
}

// The line of a refusal, which is never longer than LONGEST; an answer that refuses nothing has none.
pub fn put_refusal(out: &mut [u8], at: usize, answer: Answer) -> usize
    ensures value { result ≡ place_after out.old at (refusal_line answer) }
    ensures out_after { out.new ≡ written out.old at (refusal_line answer) }
    ensures answer_len_bound { length (refusal_line answer) ≤ longest }
{
    match answer {
        Answer::Accepted | Answer::Grade(_) => at,
        Answer::PlanFault(number, place) => put_fault(out, at, b"plan", number, place),
        Answer::CertificateFault(number, place) => put_fault(
            out,
            at,
            b"certificate",
            number,
            place,
        ),
    }
}

// What a program prints for its input, in ROOM bytes at most: `text` where the input is within the limit, else the line that says so.
pub trait Printer<const ROOM: usize> {
    ghost text: { List ℕ → List ℕ };

    // Writes the text at the start of the buffer and answers its length; where it has no room, nothing is written, and the answer is 0.
    fn put_text<'a>(input: &'a [u8], out: &'a mut [u8]) -> usize
        ensures value { result ≡ place_after out.old 0 (text input.now) }
        ensures out_after { out.new ≡ written out.old 0 (text input.now) }
        ensures input_len_bound { length (text input.now) ≤ ROOM };

    // The line of a long input has room, and so many bytes can be lent.
    ghost room: { (length too_long_line ≤ ROOM) × (ROOM < 2 ^ 63) };

    final fn print<'a>(input: &'a [u8], out: &'a mut [u8]) -> usize
    where
        Self: Sized,
        ensures value { result ≡ place_after out.old 0 (limited text input.now) }
        ensures out_after { out.new ≡ written out.old 0 (limited text input.now) }
        ensures input_len_bound { length (limited text input.now) ≤ ROOM }
    {
        if LIMIT < input.len() {
            return put_bytes(out, 0, b"input too long\n");
        }
        Self::put_text(input, out)
    }
}
