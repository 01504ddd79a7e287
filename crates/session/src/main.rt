// Replays a session script from standard input and prints a line for each call, the opening first.
// A script is a plan record with its length before it, then calls: `s` or `p` with a part, its length before it, or `b` or `c`.
// A length is two bytes, the lower first. A script that ends inside a call, or has another call, ends the output.
#![tactic(auto)]

ghost use Rattle.std.specs.Prelude.{IfSome, OnErr, OnOk};
ghost use Rattle.std.specs.Io.KnownBytes.{Appends};
ghost use Rattle.streams.specs.Front.{AppendsFront};
ghost use Rattle.sessionlines.specs.Lines.{script_lines};

use std::io::{self, Read, Write};
use streams::{read_full, write_full};

// One byte more than the limit tells that the script is too long. A read or a write that fails ends the program with its error;
// what is on standard output then is a front of the answer.
fn run<R: Read, W: Write>(reader: &mut R, writer: &mut W) -> io::Result<()>
    ensures ok { OnOk result (IfSome (R.remaining reader.old) (λ xs. Appends (W.contents writer.old) (W.contents writer.new) (script_lines xs))) }
    ensures err { OnErr result (IfSome (R.remaining reader.old) (λ xs. AppendsFront (W.contents writer.old) (W.contents writer.new) (script_lines xs))) }
{
    let mut bytes = [0u8; sessionlines::LIMIT + 1];
    let n = read_full(reader, &mut bytes)?;
    let mut out = [0u8; lines::LONGEST];
    let mut turn = sessionlines::open(&bytes[..n], &mut out);
    write_full(writer, &out[..turn.len])?;
    // a while, since each call says where the next one stands
    while turn.at < n {
        turn = sessionlines::call(&bytes[..n], turn, &mut out);
        write_full(writer, &out[..turn.len])?;
    }
    Ok(())
}

fn main(rt: HostRuntime) -> io::Result<()> {
    run(&mut rt.stdin(), &mut rt.stdout())
}
