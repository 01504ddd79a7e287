// Reading an input into a lent buffer, and writing lent bytes, with what is left of both where that fails; and a program that answers its input.
#![tactic(auto)]

ghost use Rattle.std.specs.Prelude.{◌≡◌, ℕ, ◌<◌, ◌≤◌, IfOk, IfSome, OnErr, OnOk, length, take};
ghost use Rattle.std.specs.Io.{ReadsAtMost};
ghost use Rattle.std.specs.Io.KnownBytes.{Appends, Consumes, IsAtEnd};
ghost use Rattle.lines.specs.Lines.{limited};
ghost use Rattle.streams.specs.Front.{AppendsFront};

use lines::Printer;
use std::io::{Error, ErrorKind, Read, Result, Write};

// Reads until the buffer is full or the input ends, and answers how many bytes stand at its start.
pub fn read_full<R: Read>(reader: &mut R, buf: &mut [u8]) -> Result<usize>
    ensures bound { ReadsAtMost result buf.new }
    ensures len { length buf.new ≡ length buf.old }

    // They are the input's first bytes, as many as the buffer has room for.
    ensures front { IfOk result (λ n. IfSome (R.remaining reader.old) (λ xs. take n buf.new ≡ take (length buf.old) xs)) }
    ensures bytes { IfOk result (λ n. Consumes (R.remaining reader.old) (R.remaining reader.new) (take n buf.new)) }
    ensures end { IfOk result (λ n. n < length buf.old → IsAtEnd (R.remaining reader.new)) }

    // An error leaves the reader behind a front of its bytes, which stands in the buffer.
    ensures err { OnErr result ((n : ℕ) × (n ≤ length buf.old) × Consumes (R.remaining reader.old) (R.remaining reader.new) (take n buf.new)) }
{
    // `Read::read_exact` says nothing of an input that ends early, nor what an error leaves of it.
    let mut done = 0;
    while done < buf.len() {
        let n = reader.read(&mut buf[done..])?;
        if n == 0 {
            return Ok(done);
        }
        done += n;
    }
    Ok(done)
}

// A write that a signal interrupts is tried again, so many times at most in one call: nothing says that signals end. A read that fails is not tried again.
const RETRIES: usize = 1000;

// Writes all the bytes. Where that fails, a front of them is written.
pub fn write_full<W: Write>(writer: &mut W, bytes: &[u8]) -> Result<()>
    ensures ok { OnOk result (Appends (W.contents writer.old) (W.contents writer.new) bytes.now) }
    ensures err { OnErr result (AppendsFront (W.contents writer.old) (W.contents writer.new) bytes.now) }
{
    // `Write::write_all` does not say what an error leaves.
    let mut done = 0;
    let mut tries = RETRIES;
    while done < bytes.len() {
        match writer.write(&bytes[done..]) {
            Ok(0) => return Err(Error::from(ErrorKind::WriteZero)),
            Ok(n) => done += n,
            Err(e) => {
                if tries == 0 || e.kind() != ErrorKind::Interrupted {
                    return Err(e);
                }
                tries -= 1;
            }
        }
    }
    Ok(())
}

// Writes what a program prints for the whole input: one byte more than the limit tells that it is too long.
// A read or a write that fails ends it with the error; what was written then is a front of the answer.
pub fn answer<P: Printer<ROOM>, const ROOM: usize, R: Read, W: Write>(
    reader: &mut R,
    writer: &mut W,
) -> Result<()>
    ensures ok { OnOk result (IfSome (R.remaining reader.old) (λ xs. Appends (W.contents writer.old) (W.contents writer.new) (limited P.text xs))) }
    ensures err { OnErr result (IfSome (R.remaining reader.old) (λ xs. AppendsFront (W.contents writer.old) (W.contents writer.new) (limited P.text xs))) }
{
    let mut bytes = [0u8; lines::LIMIT + 1];
    let n = read_full(reader, &mut bytes)?;
    let mut out = [0u8; ROOM];
    let len = P::print(&bytes[..n], &mut out);
    write_full(writer, &out[..len])
}
