// The line that the checking program prints, written into a lent buffer.
#![tactic(auto)]

ghost use Rattle.std.specs.Prelude.{◌≡◌, ◌≤◌, length};
ghost use Rattle.std.proofs.Common.{lit<, lit≤};
ghost use Rattle.checker.specs.Check.{grade_of};
ghost use Rattle.record.specs.declared.Answer.TheVariants.{Grade};
ghost use Rattle.lines.specs.Lines.{place_after, written, longest};
ghost use Rattle.gradeline.specs.Line.{graded_line, grade_line};

use itoa::Buffer;
use lines::Printer;
use record::Answer;

// By way of a text of its own, with the place behind it: the lent buffer changes only where the whole line has room.
fn put_grade(out: &mut [u8], n: u16, m: u16, grade: u8) -> usize
    ensures value { result ≡ place_after out.old 0 (graded_line (Grade grade) n m) }
    ensures out_after { out.new ≡ written out.old 0 (graded_line (Grade grade) n m) }
    ensures m_len_bound { length (graded_line (Grade grade) n m) ≤ longest }
{
    let mut size = [0u8; lines::LONGEST];
    let end = lines::put_size(&mut size, 0, n, m);
    let mut digits = Buffer::new();
    lines::put_all(
        out,
        0,
        &[
            &size[..end],
            b" grade ",
            digits.format(grade).as_bytes(),
            b"\n",
        ],
    )
}

// What the program prints for an input within the limit: the boxes, the cables and the grade, or why the input is refused.
pub struct GradeLine;

impl Printer<{ lines::LONGEST }> for GradeLine {
    ghost text = { λ s. graded_line (grade_of s).answer (grade_of s).n (grade_of s).m };

    ghost room = { (lit≤ tt, lit< tt) };

    fn put_text<'a>(input: &'a [u8], out: &'a mut [u8]) -> usize {
        let graded = checker::grade(input);
        let Answer::Grade(k) = graded.answer else {
            return lines::put_refusal(out, 0, graded.answer);
        };
        put_grade(out, graded.n, graded.m, k)
    }
}

// Writes the line at the start of the buffer and answers its length; where it has no room, nothing is written, and the answer is 0.
// A buffer of lines::LONGEST bytes has room for every line.
#[tactic(auto, unfolding(crate::specs::Line::grade_line))]
pub fn line<'a>(input: &'a [u8], out: &'a mut [u8]) -> usize
    ensures value { result ≡ place_after out.old 0 (grade_line input.now) }
    ensures out_after { out.new ≡ written out.old 0 (grade_line input.now) }
    ensures input_len_bound { length (grade_line input.now) ≤ longest }
{
    GradeLine::print(input, out)
}
