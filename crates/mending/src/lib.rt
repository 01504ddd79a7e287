// The cables that would mend a plan (request 6 of document 02): the list, the mended plan, and its certificate.
#![tactic(auto)]

ghost use Rattle.std.specs.Prelude.{◌≡◌, ◌+◌, ◌≤◌, length, take};
ghost use Rattle.record.specs.Write.{overwritten};
ghost use Rattle.graph.specs.Limits.{max_edges};
ghost use Rattle.reading.specs.Plan.{Allowed, plan_bytes};
ghost use Rattle.writing.specs.Write.{edges_of};
ghost use Rattle.certifier.specs.Made.{record_from};
ghost use Rattle.striking.specs.Code.{edges_held};
ghost use Rattle.mending.specs.Mend.{merged, records_from, mend_from};
ghost use Rattle.mending.specs.Code.{edges_ahead, takes_first, plan_in, draft_in, decision};

use arrayvec::ArrayVec;
use certifier::Made;
use graph::GraphTable;
use reading::PlanTable;
use record::Answer;
use striking::Edges;

const PLAN_ROOM: usize = PlanTable::BYTES;

const CERTIFICATE_ROOM: usize = Made::ROOM;

// How far the edges of two lists are taken, and how many they are.
#[derive(Clone, Copy)]
struct Places {
    i: usize,
    m: usize,
    j: usize,
    k: usize,
}

// Whether the next edge is the first list's: the second has none left, or its next does not come before it.
// Counts within the limit are no type of their own: see reading's `read_ends`.
fn takes_first(a: &[u16; PlanTable::ENDS], b: &[u16; PlanTable::ENDS], p: Places) -> bool
    requires { (p.m ≤ max_edges) × (p.k ≤ max_edges) × (p.i ≤ p.m) × (p.j ≤ p.k) }
    ensures { result ≡ takes_first (edges_ahead a.now p.i p.m) (edges_ahead b.now p.j p.k) }
{
    let i = p.i;
    let j = p.j;
    if p.m <= i {
        return false;
    }
    if p.k <= j {
        return true;
    }
    reading::follows(a[2 * i], a[2 * i + 1], b[2 * j], b[2 * j + 1])
}

// Two lists of edges in cable order as one; those of the first may be doubles.
// A call of its own: inlined, its locals would lie on the stack beside those of all callers.
#[inline(never)]
fn merge(a: &[u16; PlanTable::ENDS], m: u16, b: &[u16; PlanTable::ENDS], k: u16) -> Edges
    requires { m + k ≤ max_edges }
    ensures { result ≡ edges_held (merged (edges_of a.now m) (edges_of b.now k)) }
{
    let mut ends = [0u16; PlanTable::ENDS];
    let mut i = 0;
    for at in 0..m as usize + k as usize {
        let j = at - i;
        let p = Places {
            i,
            m: m as usize,
            j,
            k: k as usize,
        };
        if takes_first(a, b, p) {
            ends[2 * at] = a[2 * i];
            ends[2 * at + 1] = a[2 * i + 1];
            i += 1;
            continue;
        }
        ends[2 * at] = b[2 * j];
        ends[2 * at + 1] = b[2 * j + 1];
    }
    Edges { ends, count: m + k }
}

// What is decided before a byte is written: the three records.
#[derive(Drop)]
struct Draft {
    list: ArrayVec<u8, PLAN_ROOM>,
    mended: ArrayVec<u8, PLAN_ROOM>,
    certificate: ArrayVec<u8, CERTIFICATE_ROOM>,
}

// The first bytes of an array.
fn front<const N: usize>(bytes: [u8; N], length: usize) -> ArrayVec<u8, N>
    ensures { result.items ≡ take length bytes.entry }
{
    let mut record = ArrayVec::from_array_in((), bytes);
    record.truncate(length);
    record
}

// The record of the plan of n vertices with these edges.
fn record_of(n: u16, edges: Edges) -> ArrayVec<u8, PLAN_ROOM>
    requires { Allowed (plan_in n edges) }
    ensures { result.items ≡ plan_bytes (plan_in n edges) }
{
    let mut bytes = [0u8; PLAN_ROOM];
    let rows = [0u64; GraphTable::ROW_WORDS];
    let graph = GraphTable { n, d: 0, rows };
    let ends = edges.ends;
    let plan = PlanTable {
        graph,
        m: edges.count,
        ends,
    };
    let length = writing::write_plan(plan, &mut bytes).unwrap();
    front(bytes, length)
}

// The records of a plan with its list, which have room together: the certificate is the maker's for the mended record.
fn draft_of(n: u16, list: Edges, mended: Edges) -> Draft
    requires { (Allowed (plan_in n list)) × (Allowed (plan_in n mended)) }
    ensures { result ≡ draft_in (plan_bytes (plan_in n list)) (plan_bytes (plan_in n mended)) (record_from (plan_bytes (plan_in n mended))) }
{
    let list = record_of(n, list);
    let mended = record_of(n, mended);
    let mut bytes = [0u8; CERTIFICATE_ROOM];
    let made = certifier::certify(mended.as_slice(), &mut bytes);
    let certificate = front(bytes, made.length);
    Draft {
        list,
        mended,
        certificate,
    }
}

// All that is decided of a plan record. 32 counts every edge of the record.
fn decide(plan: &[u8]) -> Result<Draft, Answer>
    ensures { result ≡ decision (records_from plan.now) }
{
    let read = reading::read_plan(plan)?;
    let table = read.plan;
    let m = table.m;
    let list = striking::mend_list(&table.graph.rows, table.graph.n);
    if GraphTable::MAX_EDGES - m < list.count {
        return Err(Answer::PlanFault(32, 0));
    }
    let mended = merge(&table.ends, m, &list.ends, list.count);
    Ok(draft_of(table.graph.n, list, mended))
}

// The answer, and how many bytes were written into each buffer; 0 beside a refusal. The exports and the theorems of claims (RefusedMends) name this form.
#[derive(Clone, Copy)]
pub struct Mended {
    pub answer: Answer,
    pub list: usize,
    pub mended: usize,
    pub certificate: usize,
}

// The first bytes of a buffer become these.
fn put(out: &mut [u8], bytes: &[u8])
    requires { length bytes.now ≤ length out.old }
    ensures { out.new ≡ overwritten out.old 0 bytes.now }
{
    out[..bytes.len()].copy_from_slice(bytes);
}

fn refused(answer: Answer) -> Mended
    ensures { result ≡ record { answer = answer; list = 0; mended = 0; certificate = 0 } }
{
    Mended {
        answer,
        list: 0,
        mended: 0,
        certificate: 0,
    }
}

// MENDING. All is decided, then all three buffers are tested, and only then is a byte written. A refused plan has nothing to write, so no buffer is
// too short for it.
pub fn mend(plan: &[u8], list: &mut [u8], mended: &mut [u8], certificate: &mut [u8]) -> Mended
    ensures value { result ≡ (mend_from plan.now list.old mended.old certificate.old).answer }
    ensures list_after { list.new ≡ (mend_from plan.now list.old mended.old certificate.old).list }
    ensures mended_after { mended.new ≡ (mend_from plan.now list.old mended.old certificate.old).mended }
    ensures certificate_after { certificate.new ≡ (mend_from plan.now list.old mended.old certificate.old).certificate }
{
    let draft = match decide(plan) {
        Ok(draft) => draft,
        Err(answer) => return refused(answer),
    };
    let first = draft.list.as_slice();
    let second = draft.mended.as_slice();
    let third = draft.certificate.as_slice();
    if list.len() < first.len() || mended.len() < second.len() || certificate.len() < third.len() {
        return refused(Answer::PlanFault(30, 0));
    }
    put(list, first);
    put(mended, second);
    put(certificate, third);
    Mended {
        answer: Answer::Grade(3),
        list: first.len(),
        mended: second.len(),
        certificate: third.len(),
    }
}
