// The lines that the session program prints, each written into a lent buffer, turn after turn.
#![tactic(auto)]

ghost use Rattle.std.specs.Prelude.{◌≡◌, ◌-◌, ◌≤◌, ◌++◌, length};
ghost use Rattle.script.specs.Replay.{step_of};
ghost use Rattle.lines.specs.Lines.{decimal, newline, place_after, written, longest};
ghost use Rattle.sessionlines.specs.Lines.{answer_line, step_line, printed, step_turn, open_turn, call_turn, turn_in};

use record::Answer;
use sessions::Session;

// the longest script, in bytes
pub const LIMIT: usize = 65536;

// The session after a turn, where its script goes on, and how many bytes at the start of the buffer are the line.
#[derive(Clone, Copy)]
pub struct Turn {
    session: Session,
    pub at: usize,
    pub len: usize,
}

// A label, a number and the line's end; the last two by way of a text of their own: the lent buffer changes only where the whole has room.
fn put_number<'a>(out: &'a mut [u8], label: &'a [u8], n: u64) -> usize
    requires { length label.now ≤ 9 }
    ensures value { result ≡ place_after out.old 0 (label.now ++ decimal n ++ newline) }
    ensures out_after { out.new ≡ written out.old 0 (label.now ++ decimal n ++ newline) }
    ensures newline_len_bound { length (label.now ++ decimal n ++ newline) ≤ longest }
{
    let mut text = [0u8; 21];
    let a = lines::put_decimal(&mut text, 0, n);
    let end = lines::put_bytes(&mut text, a, b"\n");
    lines::put_both(out, 0, label, &text[..end])
}

fn put_answer(out: &mut [u8], answer: Answer) -> usize
    ensures value { result ≡ place_after out.old 0 (answer_line answer) }
    ensures out_after { out.new ≡ written out.old 0 (answer_line answer) }
    ensures answer_len_bound { length (answer_line answer) ≤ longest }
{
    match answer {
        Answer::Accepted => lines::put_bytes(out, 0, b"accepted\n"),
        Answer::Grade(k) => put_number(out, b"grade ", k as u64),
        Answer::PlanFault(_, _) | Answer::CertificateFault(_, _) => {
            lines::put_refusal(out, 0, answer)
        }
    }
}

fn put_step(out: &mut [u8], unread: usize, answer: Answer) -> usize
    ensures value { result ≡ place_after out.old 0 (step_line unread answer) }
    ensures out_after { out.new ≡ written out.old 0 (step_line unread answer) }
    ensures answer_len_bound { length (step_line unread answer) ≤ longest }
{
    match answer {
        Answer::Accepted => put_number(out, b"accepted ", unread as u64),
        _ => put_answer(out, answer),
    }
}

// A turn whose line is known.
fn say<'a>(line: &'a [u8], session: Session, at: usize, out: &'a mut [u8]) -> Turn
    requires { length line.now ≤ longest }
    ensures value { result ≡ turn_in out.old (printed line.now session at) }
    ensures out_after { out.new ≡ written out.old 0 line.now }
    ensures line_len_bound { length line.now ≤ longest }
{
    let len = lines::put_bytes(out, 0, line);
    Turn { session, at, len }
}

// A start or a path with its part, which stands from start to end.
fn step<'a>(
    session: Session,
    call: u8,
    part: &'a [u8],
    start: usize,
    end: usize,
    out: &'a mut [u8],
) -> Turn
    requires { start ≤ end }
    ensures value { result ≡ turn_in out.old (step_turn (step_of call session part.now) start end) }
    ensures out_after { out.new ≡ written out.old 0 (step_turn (step_of call session part.now) start end).bytes }
    ensures end_len_bound { length (step_turn (step_of call session part.now) start end).bytes ≤ longest }
{
    // the two calls themselves: by way of script::step the session would be copied once more
    let stepped = if call == b's' {
        session.start(part)
    } else {
        session.path(part)
    };
    let left = (end - start).saturating_sub(stepped.read);
    let len = put_step(out, left, stepped.answer);
    Turn {
        session: stepped.session,
        at: end,
        len,
    }
}

// Each function writes its line at the start of the buffer; where the line has no room, nothing is written, and the length is 0.
// A buffer of lines::LONGEST bytes has room for every line.
pub fn open<'a>(script: &'a [u8], out: &'a mut [u8]) -> Turn
    ensures value { result ≡ turn_in out.old (open_turn script.now) }
    ensures out_after { out.new ≡ written out.old 0 (open_turn script.now).bytes }
    ensures script_len_bound { length (open_turn script.now).bytes ≤ longest }
{
    if LIMIT < script.len() {
        return say(b"input too long\n", Session::none(), script.len(), out);
    }
    let Some((start, end)) = script::part_at(script, 0) else {
        return say(b"script cut short\n", Session::none(), script.len(), out);
    };
    let opened = sessions::open(&script[start..end]);
    let len = put_answer(out, opened.answer);
    Turn {
        session: opened.session,
        at: end,
        len,
    }
}

// The call where the script goes on after a turn.
pub fn call<'a>(script: &'a [u8], turn: Turn, out: &'a mut [u8]) -> Turn
    ensures value { result ≡ turn_in out.old (call_turn script.now turn.session turn.at) }
    ensures out_after { out.new ≡ written out.old 0 (call_turn script.now turn.session turn.at).bytes }
    ensures at_len_bound { length (call_turn script.now turn.session turn.at).bytes ≤ longest }
{
    let session = turn.session;
    let at = turn.at;
    if script.len() <= at {
        return Turn {
            session,
            at,
            len: 0,
        };
    }
    let byte = script[at];
    match byte {
        b'c' | b'b' => {
            let alone = script::step_alone(session, byte);
            let len = put_answer(out, alone.answer);
            Turn {
                session: alone.session,
                at: at + 1,
                len,
            }
        }
        b's' | b'p' => {
            let Some((start, end)) = script::part_at(script, at + 1) else {
                return say(b"script cut short\n", session, script.len(), out);
            };
            step(session, byte, &script[start..end], start, end, out)
        }
        _ => say(b"unknown call\n", session, script.len(), out),
    }
}
