// Makes a certificate: a plan record from standard input; the plan followed by its certificate out, or why the plan is refused.
#![tactic(auto)]

ghost use Rattle.std.specs.Prelude.{IfSome, OnErr, OnOk};
ghost use Rattle.std.specs.Io.KnownBytes.{Appends};
ghost use Rattle.streams.specs.Front.{AppendsFront};
ghost use Rattle.certifybytes.specs.Bytes.{certify_bytes};

use certifybytes::CertifyBytes;
use std::io::{self, Read, Write};

// A read or a write that fails ends the program with its error; what is on standard output then is a front of the answer.
#[tactic(auto, unfolding(certifybytes::specs::Bytes::certify_bytes))]
fn run<R: Read, W: Write>(reader: &mut R, writer: &mut W) -> io::Result<()>
    ensures ok { OnOk result (IfSome (R.remaining reader.old) (λ xs. Appends (W.contents writer.old) (W.contents writer.new) (certify_bytes xs))) }
    ensures err { OnErr result (IfSome (R.remaining reader.old) (λ xs. AppendsFront (W.contents writer.old) (W.contents writer.new) (certify_bytes xs))) }
{
    streams::answer::<CertifyBytes, _, _, _>(reader, writer)
}

fn main(rt: HostRuntime) -> io::Result<()> {
    run(&mut rt.stdin(), &mut rt.stdout())
}
