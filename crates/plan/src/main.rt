// Reads a plan record from standard input and prints its boxes and cables, or why it is refused.
#![tactic(auto)]

ghost use Rattle.std.specs.Prelude.{◌≡◌, ◌≤◌, length, IfSome, OnErr, OnOk};
ghost use Rattle.std.specs.Io.KnownBytes.{Appends};
ghost use Rattle.streams.specs.Front.{AppendsFront};
ghost use Rattle.std.proofs.Common.{lit<, lit≤};
ghost use Rattle.reading.specs.Code.{whole_plan};
ghost use Rattle.record.specs.declared.Answer.TheVariants.{Accepted};
ghost use Rattle.lines.specs.Lines.{place_after, written, longest};
ghost use Rattle.plan.specs.Line.{size_line, plan_line};

use lines::Printer;
use std::io::{self, Read, Write};

// By way of a text of its own, with the place behind it: the lent buffer changes only where the whole line has room.
fn put_size(out: &mut [u8], n: u16, m: u16) -> usize
    ensures value { result ≡ place_after out.old 0 (size_line Accepted n m) }
    ensures out_after { out.new ≡ written out.old 0 (size_line Accepted n m) }
    ensures m_len_bound { length (size_line Accepted n m) ≤ longest }
{
    let mut size = [0u8; lines::LONGEST];
    let end = lines::put_size(&mut size, 0, n, m);
    lines::put_both(out, 0, &size[..end], b"\n")
}

// What the program prints for an input within the limit: the boxes and cables, or why the plan is refused.
struct PlanLine;

impl Printer<{ lines::LONGEST }> for PlanLine {
    ghost text = { λ s. size_line (whole_plan s).answer (whole_plan s).plan.graph.n (whole_plan s).plan.m };

    ghost room = { (lit≤ tt, lit< tt) };

    fn put_text<'a>(input: &'a [u8], out: &'a mut [u8]) -> usize {
        match reading::read_plan(input) {
            Ok(read) => put_size(out, read.plan.graph.n, read.plan.m),
            Err(answer) => lines::put_refusal(out, 0, answer),
        }
    }
}

// A read or a write that fails ends the program with its error; what is on standard output then is a front of the answer.
#[tactic(auto, unfolding(crate::specs::Line::plan_line))]
fn run<R: Read, W: Write>(reader: &mut R, writer: &mut W) -> io::Result<()>
    ensures ok { OnOk result (IfSome (R.remaining reader.old) (λ xs. Appends (W.contents writer.old) (W.contents writer.new) (plan_line xs))) }
    ensures err { OnErr result (IfSome (R.remaining reader.old) (λ xs. AppendsFront (W.contents writer.old) (W.contents writer.new) (plan_line xs))) }
{
    streams::answer::<PlanLine, _, _, _>(reader, writer)
}

fn main(rt: HostRuntime) -> io::Result<()> {
    run(&mut rt.stdin(), &mut rt.stdout())
}
