// The counting program: how many plans of four, five and six boxes have each grade; three lines out, and nothing is read.
#![tactic(auto)]

ghost use Rattle.std.specs.Prelude.{OnErr, OnOk};
ghost use Rattle.std.specs.Io.KnownBytes.{Appends};
ghost use Rattle.streams.specs.Front.{AppendsFront};
ghost use Rattle.countlines.specs.Text.{count_text};

use std::io::{self, Write};
use streams::write_full;

// A write that fails ends the program with its error; what is on standard output then is a front of the answer.
fn run<W: Write>(writer: &mut W) -> io::Result<()>
    ensures ok { OnOk result (Appends (W.contents writer.old) (W.contents writer.new) count_text) }
    ensures err { OnErr result (AppendsFront (W.contents writer.old) (W.contents writer.new) count_text) }
{
    let mut out = [0u8; countlines::ROOM];
    let len = countlines::text(&mut out);
    write_full(writer, &out[..len])
}

fn main(rt: HostRuntime) -> io::Result<()> {
    run(&mut rt.stdout())
}
