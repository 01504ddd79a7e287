// Session scripts: where their parts stand, and a replay into a buffer of answers.
#![tactic(auto)]

ghost use Rattle.std.specs.Prelude.{◌≡◌, ◌<◌, ◌≤◌, length, IfSome};
ghost use Rattle.script.specs.Script.{part_at};
ghost use Rattle.script.specs.Replay.{word, answer_word, has_room_for, answered, step_of, lone_of, replay_on, replay_of, replayed_of, status_number};

use record::Answer;
use sessions::{Session, Stepped};

// How a script ended.
#[derive(Clone, Copy, PartialEq, Eq)]
pub enum Status {
    // at its end
    Whole,
    InsideCall,
    UnknownCall,
    // without room for the next answer
    NoRoom,
}

impl Status {
    // The format's number.
    pub fn number(self) -> u8
        ensures { result ≡ status_number self }
    {
        self as u8
    }
}

// How many answers were written, and how the script ended.
#[derive(Clone, Copy)]
pub struct Replayed {
    pub count: usize,
    pub status: Status,
}

// Where a part begins and ends; None where the script ends before it does.
pub fn part_at(s: &[u8], at: usize) -> Option<(usize, usize)>
    ensures value { result ≡ part_at s.now at }
    ensures within { IfSome result (λ p. (p.0 ≤ p.1) × (p.1 ≤ length s.now) × (at < p.1)) }
{
    let low = *s.get(at)?;
    let high = *s.get(at + 1)?;
    let start = at + 2;
    let size = low as usize + 256 * high as usize;
    if s.len() - start < size {
        return None;
    }
    Some((start, start + size))
}

fn word_of(kind: u64, number: u8, place: usize) -> u64
    requires { kind < 4 }
    ensures { result ≡ word kind number place }
{
    kind + 256 * number as u64 + 65536 * (place as u64 % 281474976710656)
}

// An answer as one word: the number that the word has is that of this crate's format, which crate record, where a From had to stand, knows nothing of.
pub fn answer_word(a: Answer) -> u64
    ensures { result ≡ answer_word a }
{
    match a {
        Answer::Accepted => word_of(0, 0, 0),
        Answer::Grade(k) => word_of(1, k, 0),
        Answer::PlanFault(r, p) => word_of(2, r, p),
        Answer::CertificateFault(r, p) => word_of(3, r, p),
    }
}

// Writes an answer behind those that stand at the start of the buffer, or nothing where it has no room: whether it had.
fn put_answer(out: &mut [u8], count: usize, a: Answer) -> bool
    ensures value { result ≡ has_room_for out.old count }
    ensures out_after { out.new ≡ answered out.old count a }
{
    if out.len() / 8 <= count {
        return false;
    }
    let at = 8 * count;
    out[at..at + 8].copy_from_slice(&answer_word(a).to_le_bytes());
    true
}

// A start or a path, by the byte of the call: promised for every byte, so it takes no enum of calls.
pub fn step(session: Session, call: u8, part: &[u8]) -> Stepped
    ensures { result ≡ step_of call session part.now }
{
    if call == b's' {
        return session.start(part);
    }
    session.path(part)
}

// A closing or a taking back, which have no part, by the byte of the call: promised for every byte too.
pub fn step_alone(session: Session, call: u8) -> Stepped
    ensures { result ≡ lone_of call session }
{
    if call == b'c' {
        return session.close();
    }
    session.back()
}

// The calls of a script from a place on.
fn replay_on<'a>(s: &'a [u8], out: &'a mut [u8], first: Session, from: usize) -> Replayed
    ensures value { result ≡ replayed_of (replay_on (length s.now) s.now first from out.old 1) }
    ensures out_after { out.new ≡ (replay_on (length s.now) s.now first from out.old 1).buffer }
{
    // the last step is kept whole: each taking apart of a step may copy its session
    let mut now = Stepped {
        session: first,
        answer: Answer::Accepted,
        read: 0,
    };
    let mut at = from;
    let mut count = 1;
    // a while, since each call says itself where the next one stands
    while at < s.len() {
        let call = s[at];
        match call {
            b'c' | b'b' => {
                now = step_alone(now.session, call);
                at += 1;
            }
            b's' | b'p' => {
                let Some((start, end)) = part_at(s, at + 1) else {
                    return Replayed {
                        count,
                        status: Status::InsideCall,
                    };
                };
                if call == b's' {
                    now = now.session.start(&s[start..end]);
                } else {
                    now = now.session.path(&s[start..end]);
                }
                at = end;
            }
            _ => return Replayed {
                count,
                status: Status::UnknownCall,
            },
        }
        if !put_answer(out, count, now.answer) {
            return Replayed {
                count,
                status: Status::NoRoom,
            };
        }
        count += 1;
    }
    Replayed {
        count,
        status: Status::Whole,
    }
}

// Replays a script: the answers of its calls at the start of the buffer, the opening's first; every other byte keeps its value.
pub fn replay<'a>(s: &'a [u8], out: &'a mut [u8]) -> Replayed
    ensures value { result ≡ replayed_of (replay_of s.now out.old) }
    ensures out_after { out.new ≡ (replay_of s.now out.old).buffer }
{
    let Some((start, end)) = part_at(s, 0) else {
        return Replayed {
            count: 0,
            status: Status::InsideCall,
        };
    };
    let opened = sessions::open(&s[start..end]);
    if !put_answer(out, 0, opened.answer) {
        return Replayed {
            count: 0,
            status: Status::NoRoom,
        };
    }
    replay_on(s, out, opened.session, end)
}
