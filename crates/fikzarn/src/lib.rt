// The functions for callers in other languages: numbers and byte slices, one word for an answer.
#![tactic(auto)]

ghost use Rattle.std.specs.Prelude.{◌≡◌};
ghost use Rattle.graph.specs.Limits.{min_vertices, max_vertices, max_edges};
ghost use Rattle.reading.specs.Code.{whole_plan};
ghost use Rattle.checker.specs.Check.{check_of};
ghost use Rattle.certifier.specs.Made.{certificate_room, length_from, made_from, filled_from};
ghost use Rattle.counting.specs.Counts.{count_of};
ghost use Rattle.mending.specs.Mend.{mend_from};
ghost use Rattle.script.specs.Replay.{answer_word, replay_of};
ghost use Rattle.fikzarn.specs.Words.{plan_rewritten, made_word, replay_word, mended_word, edition};

use certifier::Made;
use graph::GraphTable;
use mending::Mended;
use record::Answer;

// Reads a whole plan record. Where it is accepted and has room, writes it again at the start of out; else out stays as it was.
#[unsafe(no_mangle)]
pub extern "C" fn fikzarn_plan(input: &[u8], out: &mut [u8]) -> u64
    ensures { (result ≡ answer_word (whole_plan input.now).answer) × (out.new ≡ plan_rewritten input.now out.old) }
{
    match reading::read_plan(input) {
        Ok(read) => {
            // the same answer whether it has room or not
            let _ = writing::write_plan(read.plan, out);
            script::answer_word(Answer::Accepted)
        }
        Err(refusal) => script::answer_word(refusal),
    }
}

// Checks a certificate record beside a plan record.
#[unsafe(no_mangle)]
pub extern "C" fn fikzarn_check(plan: &[u8], certificate: &[u8]) -> u64
    ensures { result ≡ answer_word (check_of plan.now certificate.now) }
{
    script::answer_word(checker::check(plan, certificate))
}

// What the maker gave as one word: a grade has the certificate's length in the place. The word is this
// crate's, so no From in crate certifier.
fn made_word(made: Made) -> u64
    ensures { result ≡ made_word made }
{
    match made.answer {
        Answer::Grade(k) => 1 + 256 * k as u64 + 65536 * (made.length as u64 % 281474976710656),
        _ => script::answer_word(made.answer),
    }
}

// Makes a certificate: at the start of out, every other byte stays; the answer's word, with the certificate's length in the place.
#[unsafe(no_mangle)]
pub extern "C" fn fikzarn_certify(plan: &[u8], out: &mut [u8]) -> u64
    ensures value { result ≡ made_word (made_from plan.now out.old) }
    ensures out_after { out.new ≡ filled_from plan.now out.old }
{
    made_word(certifier::certify(plan, out))
}

// The word that fikzarn_certify answers where the certificate has room.
#[unsafe(no_mangle)]
pub extern "C" fn fikzarn_certificate_length(plan: &[u8]) -> u64
    ensures { result ≡ made_word (length_from plan.now) }
{
    made_word(certifier::certificate_length(plan))
}

// Replays a session script: the answers' words at the start of out, eight bytes each, the lowest first; every other byte stays.
// Answers how the script ended and, from the third byte on, how many answers were written.
#[unsafe(no_mangle)]
pub extern "C" fn fikzarn_session(script: &[u8], out: &mut [u8]) -> u64
    ensures value { result ≡ replay_word (replay_of script.now out.old) }
    ensures out_after { out.new ≡ (replay_of script.now out.old).buffer }
{
    let replayed = script::replay(script, out);
    replayed.status.number() as u64 + 65536 * (replayed.count as u64 % 281474976710656)
}

// How many plans of 4, 5 or 6 boxes, no two cables alike, have that grade; 0 for any other size or grade.
#[unsafe(no_mangle)]
pub extern "C" fn fikzarn_count(size: u64, grade: u64) -> u64
    ensures { result ≡ count_of size grade }
{
    counting::count(size, grade)
}

// What a mend gave as one word: a grade has the three lengths in the place, 16 bits each. The word is this crate's too.
fn mended_word(m: Mended) -> u64
    ensures { result ≡ mended_word m }
{
    let list = m.list as u64 % 65536;
    let mended = m.mended as u64 % 65536;
    let certificate = m.certificate as u64 % 65536;
    match m.answer {
        Answer::Grade(k) => {
            1 + 256 * k as u64 + 65536 * (list + 65536 * mended + 4294967296 * certificate)
        }
        _ => script::answer_word(m.answer),
    }
}

// Mends a plan: the list of cables to lay, the mended plan and its certificate, each at the start of its own buffer, every other byte stays; the answer's word, with the
// three lengths in the place.
#[unsafe(no_mangle)]
pub extern "C" fn fikzarn_mend(
    plan: &[u8],
    list: &mut [u8],
    mended: &mut [u8],
    certificate: &mut [u8],
) -> u64
    ensures value { result ≡ mended_word (mend_from plan.now list.old mended.old certificate.old).answer }
    ensures list_after { list.new ≡ (mend_from plan.now list.old mended.old certificate.old).list }
    ensures mended_after { mended.new ≡ (mend_from plan.now list.old mended.old certificate.old).mended }
    ensures certificate_after { certificate.new ≡ (mend_from plan.now list.old mended.old certificate.old).certificate }
{
    mended_word(mending::mend(plan, list, mended, certificate))
}

// The edition of the format.
#[unsafe(no_mangle)]
pub extern "C" fn fikzarn_edition() -> u64
    ensures { result ≡ edition }
{
    7
}

#[unsafe(no_mangle)]
pub extern "C" fn fikzarn_min_boxes() -> u64
    ensures { result ≡ min_vertices }
{
    GraphTable::MIN_VERTICES as u64
}

#[unsafe(no_mangle)]
pub extern "C" fn fikzarn_max_boxes() -> u64
    ensures { result ≡ max_vertices }
{
    GraphTable::MAX_VERTICES as u64
}

#[unsafe(no_mangle)]
pub extern "C" fn fikzarn_max_cables() -> u64
    ensures { result ≡ max_edges }
{
    GraphTable::MAX_EDGES as u64
}

// The bytes that have room for every certificate.
#[unsafe(no_mangle)]
pub extern "C" fn fikzarn_certificate_room() -> u64
    ensures { result ≡ certificate_room }
{
    Made::ROOM as u64
}
