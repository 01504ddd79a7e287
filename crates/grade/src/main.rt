// The checking program: a plan and, directly after it, a certificate from standard input; one line out.
#![tactic(auto)]

ghost use Rattle.std.specs.Prelude.{IfSome, OnErr, OnOk};
ghost use Rattle.std.specs.Io.KnownBytes.{Appends};
ghost use Rattle.streams.specs.Front.{AppendsFront};
ghost use Rattle.gradeline.specs.Line.{grade_line};

use gradeline::GradeLine;
use std::io::{self, Read, Write};

// A read or a write that fails ends the program with its error; what is on standard output then is a front of the answer.
#[tactic(auto, unfolding(gradeline::specs::Line::grade_line))]
fn run<R: Read, W: Write>(reader: &mut R, writer: &mut W) -> io::Result<()>
    ensures ok { OnOk result (IfSome (R.remaining reader.old) (λ xs. Appends (W.contents writer.old) (W.contents writer.new) (grade_line xs))) }
    ensures err { OnErr result (IfSome (R.remaining reader.old) (λ xs. AppendsFront (W.contents writer.old) (W.contents writer.new) (grade_line xs))) }
{
    streams::answer::<GradeLine, _, _, _>(reader, writer)
}

fn main(rt: HostRuntime) -> io::Result<()> {
    run(&mut rt.stdin(), &mut rt.stdout())
}
