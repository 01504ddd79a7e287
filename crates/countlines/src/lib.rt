// The lines that the counting program prints, written into a lent buffer.
#![tactic(auto)]

ghost use Rattle.std.specs.Prelude.{◌≡◌, ◌≤◌, length};
ghost use Rattle.lines.specs.Lines.{place_after, written};
ghost use Rattle.counting.specs.Counts.{max_size};
ghost use Rattle.countlines.specs.Text.{count_line, count_text, text_room};

use counting::Counts;

// The text has room in so many bytes.
pub const ROOM: usize = 3 * lines::LONGEST;

// By way of a text of its own, with the place behind it: the lent buffer changes only where the whole line has room.
fn put_line(out: &mut [u8], at: usize, size: u64) -> usize
    requires { size ≤ max_size }
    ensures value { result ≡ place_after out.old at (count_line size) }
    ensures out_after { out.new ≡ written out.old at (count_line size) }
{
    let of = counting::count_all(size).of;
    let mut line = [0u8; lines::LONGEST];
    let mut end = lines::put_decimal(&mut line, 0, size);
    for count in of {
        end = lines::put_numbered(&mut line, end, b" ", count.into());
    }
    lines::put_both(out, at, &line[..end], b"\n")
}

// Writes the lines at the start of the buffer and answers their length; where they have no room, nothing is written, and the answer is 0.
// By way of a text of their own, with the place behind it, for the same reason.
pub fn text(out: &mut [u8]) -> usize
    ensures value { result ≡ place_after out.old 0 count_text }
    ensures out_after { out.new ≡ written out.old 0 count_text }
    ensures count_text_len_bound { length count_text ≤ text_room }
{
    let mut all = [0u8; ROOM];
    let a = put_line(&mut all, 0, Counts::MIN_SIZE);
    let b = put_line(&mut all, a, Counts::MIN_SIZE + 1);
    let end = put_line(&mut all, b, Counts::MAX_SIZE);
    lines::put_bytes(out, 0, &all[..end])
}
