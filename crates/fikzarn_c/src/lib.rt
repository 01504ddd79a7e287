// The functions of the library `fikzarn` for callers in other languages: numbers and byte slices, one word for an answer.
// C passes a slice as a pointer and then a length. Each function does what fikzarn's of the same name does, and states its clauses again:
// an archive can't be used by a crate, and the claims speak of the library.
#![tactic(auto)]

ghost use Rattle.std.specs.Prelude.{◌≡◌};
ghost use Rattle.graph.specs.Limits.{min_vertices, max_vertices, max_edges};
ghost use Rattle.reading.specs.Code.{whole_plan};
ghost use Rattle.checker.specs.Check.{check_of};
ghost use Rattle.certifier.specs.Made.{certificate_room, length_from, made_from, filled_from};
ghost use Rattle.counting.specs.Counts.{count_of};
ghost use Rattle.mending.specs.Mend.{mend_from};
ghost use Rattle.script.specs.Replay.{answer_word, replay_of};
ghost use Rattle.fikzarn.specs.Words.{plan_rewritten, made_word, replay_word, mended_word, edition};

// Reads a whole plan record. Where it is accepted and has room, writes it again at the start of out; else out stays as it was.
#[unsafe(no_mangle)]
pub extern "C" fn fikzarn_plan(input: &[u8], out: &mut [u8]) -> u64
    ensures { (result ≡ answer_word (whole_plan input.now).answer) × (out.new ≡ plan_rewritten input.now out.old) }
{
    fikzarn::fikzarn_plan(input, out)
}

// Checks a certificate record beside a plan record.
#[unsafe(no_mangle)]
pub extern "C" fn fikzarn_check(plan: &[u8], certificate: &[u8]) -> u64
    ensures { result ≡ answer_word (check_of plan.now certificate.now) }
{
    fikzarn::fikzarn_check(plan, certificate)
}

// Makes a certificate: at the start of out, every other byte stays; the answer's word, with the certificate's length in the place.
#[unsafe(no_mangle)]
pub extern "C" fn fikzarn_certify(plan: &[u8], out: &mut [u8]) -> u64
    ensures value { result ≡ made_word (made_from plan.now out.old) }
    ensures out_after { out.new ≡ filled_from plan.now out.old }
{
    fikzarn::fikzarn_certify(plan, out)
}

// The word that fikzarn_certify answers where the certificate has room.
#[unsafe(no_mangle)]
pub extern "C" fn fikzarn_certificate_length(plan: &[u8]) -> u64
    ensures { result ≡ made_word (length_from plan.now) }
{
    fikzarn::fikzarn_certificate_length(plan)
}

// Replays a session script: the answers' words at the start of out, eight bytes each, the lowest first; every other byte stays.
// Answers how the script ended and, from the third byte on, how many answers were written.
#[unsafe(no_mangle)]
pub extern "C" fn fikzarn_session(script: &[u8], out: &mut [u8]) -> u64
    ensures value { result ≡ replay_word (replay_of script.now out.old) }
    ensures out_after { out.new ≡ (replay_of script.now out.old).buffer }
{
    fikzarn::fikzarn_session(script, out)
}

// How many plans of 4, 5 or 6 boxes, no two cables alike, have that grade; 0 for any other size or grade.
#[unsafe(no_mangle)]
pub extern "C" fn fikzarn_count(size: u64, grade: u64) -> u64
    ensures { result ≡ count_of size grade }
{
    fikzarn::fikzarn_count(size, grade)
}

// Mends a plan: the list of cables to lay, the mended plan and its certificate, each at the start of its own buffer, every other byte stays; the answer's word, with the
// three lengths in the place.
#[unsafe(no_mangle)]
pub extern "C" fn fikzarn_mend(
    plan: &[u8],
    list: &mut [u8],
    mended: &mut [u8],
    certificate: &mut [u8],
) -> u64
    ensures value { result ≡ mended_word (mend_from plan.now list.old mended.old certificate.old).answer }
    ensures list_after { list.new ≡ (mend_from plan.now list.old mended.old certificate.old).list }
    ensures mended_after { mended.new ≡ (mend_from plan.now list.old mended.old certificate.old).mended }
    ensures certificate_after { certificate.new ≡ (mend_from plan.now list.old mended.old certificate.old).certificate }
{
    fikzarn::fikzarn_mend(plan, list, mended, certificate)
}

// The edition of the format.
#[unsafe(no_mangle)]
pub extern "C" fn fikzarn_edition() -> u64
    ensures { result ≡ edition }
{
    fikzarn::fikzarn_edition()
}

#[unsafe(no_mangle)]
pub extern "C" fn fikzarn_min_boxes() -> u64
    ensures { result ≡ min_vertices }
{
    fikzarn::fikzarn_min_boxes()
}

#[unsafe(no_mangle)]
pub extern "C" fn fikzarn_max_boxes() -> u64
    ensures { result ≡ max_vertices }
{
    fikzarn::fikzarn_max_boxes()
}

#[unsafe(no_mangle)]
pub extern "C" fn fikzarn_max_cables() -> u64
    ensures { result ≡ max_edges }
{
    fikzarn::fikzarn_max_cables()
}

// The bytes that have room for every certificate.
#[unsafe(no_mangle)]
pub extern "C" fn fikzarn_certificate_room() -> u64
    ensures { result ≡ certificate_room }
{
    fikzarn::fikzarn_certificate_room()
}
