// The plan record, read into lent rows or into a plan by value.
#![tactic(auto)]

ghost use Rattle.std.specs.Prelude.{◌≡◌, ◌≤◌, ◌<◌};
ghost use Rattle.record.specs.Loop.{runs};
ghost use Rattle.vertexset.specs.Set.{capacity};
ghost use Rattle.graph.specs.Limits.{max_edges};
ghost use Rattle.reading.specs.Plan.{edge, proper, follows};
ghost use Rattle.reading.specs.Code.{whole_plan, leading_plan, plan_result, head_of, rows_left, no_ends, end_count, numbers_in, ends_read, by_value, edge_read, edge_loop, edges_in, key_of};

use graph::GraphTable;
use record::{Answer, Number};

// A plan by value: its graph, and the m edges of its record in their order, doubles among them: of each the lower and the higher vertex.
// The definitions (table_of, by_value) have the array whole, zeros behind the edges, and m beside it.
#[derive(Clone, Copy)]
pub struct PlanTable {
    pub graph: GraphTable,
    pub m: u16,
    pub ends: [u16; PlanTable::ENDS],
}

impl PlanTable {
    pub const ENDS: usize = 2 * GraphTable::MAX_EDGES as usize;

    // No plan record is longer: two numbers of two bytes at most, and a byte for each vertex of an edge.
    pub const BYTES: usize = 4 + PlanTable::ENDS;
}

// An accepted plan with the place after its last edge.
#[derive(Clone, Copy)]
pub struct PlanRead {
    pub plan: PlanTable,
    pub next: usize,
}

// The numbers of an accepted plan (vertices, edges, pairs of adjacent vertices) and the place after its last edge.
#[derive(Clone, Copy)]
pub struct PlanHead {
    pub n: u16,
    pub m: u16,
    pub d: u16,
    pub next: usize,
}

// The lower vertex comes first, and the higher is one of n.
pub fn proper(n: u16, u: u16, v: u16) -> bool
    ensures { result ≡ proper n (u, v) }
{
    u < v && v < n
}

// An edge as one number, so that one comparison tells the order of two: where two pairs are compared, reading a plan takes 1.11 times as long.
fn key(u: u16, v: u16) -> u32
    ensures { result ≡ key_of (u, v) }
{
    u as u32 * 65536 + v as u32
}

// The edge from u to v does not come before the edge from lower to higher.
pub fn follows(lower: u16, higher: u16, u: u16, v: u16) -> bool
    ensures { result ≡ follows (lower, higher) (u, v) }
{
    key(lower, higher) <= key(u, v)
}

// An edge at a place, after the edge before it: its lower and its higher vertex, and the place behind it.
fn read_edge(s: &[u8], n: u16, before: (u16, u16), at: usize) -> Result<((u16, u16), usize), Answer>
    ensures { result ≡ edge_read (edge n before s.now at) }
{
    let lower = record::read_number(s, at);
    let Number::Value(u, mid) = lower else {
        return Err(lower.plan_fault());
    };
    let higher = record::read_number(s, mid);
    let Number::Value(v, next) = higher else {
        return Err(higher.plan_fault());
    };
    if !proper(n, u, v) {
        return Err(Answer::PlanFault(5, at));
    }
    if !follows(before.0, before.1, u, v) {
        return Err(Answer::PlanFault(6, at));
    }
    Ok(((u, v), next))
}

// The edges of a plan, joined in the rows as they come.
// n within the capacity is the caller's one test, and no type of its own: see paths' `read_rest`.
fn read_edges(
    s: &[u8],
    n: u16,
    m: u16,
    from: usize,
    rows: &mut [u64; GraphTable::ROW_WORDS],
) -> Result<PlanHead, Answer>
    requires { n ≤ capacity }
    ensures value { result ≡ runs (edge_loop n m) m (0, 0) ((0, 0), 0) s.now from }
    ensures rows_after { rows.new ≡ edges_in n m rows.old s.now from }
{
    let mut at = from;
    let mut before = (0, 0);
    let mut d: u16 = 0;
    for _ in 0..m {
        let ((u, v), next) = read_edge(s, n, before, at)?;
        graph::join(rows, u, v);
        // a pair more, where it is not the edge before
        if key(before.0, before.1) != key(u, v) {
            d += 1;
        }
        before = (u, v);
        at = next;
    }
    Ok(PlanHead { n, m, d, next: at })
}

// A plan at the start of s, up to its last edge, whatever follows. Its edges are joined in the rows as they come, so those before
// a fault stay in them.
pub fn read_leading_rows(
    s: &[u8],
    rows: &mut [u64; GraphTable::ROW_WORDS],
) -> Result<PlanHead, Answer>
    ensures value { result ≡ head_of (leading_plan s.now) }
    ensures rows_after { rows.new ≡ rows_left rows.old s.now }
{
    let x = record::read_number(s, 0);
    let Number::Value(n, m_at) = x else {
        return Err(x.plan_fault());
    };
    if n < GraphTable::MIN_VERTICES || GraphTable::MAX_VERTICES < n {
        return Err(Answer::PlanFault(3, 0));
    }
    let y = record::read_number(s, m_at);
    let Number::Value(m, at) = y else {
        return Err(y.plan_fault());
    };
    if GraphTable::MAX_EDGES < m {
        return Err(Answer::PlanFault(4, m_at));
    }
    read_edges(s, n, m, at, rows)
}

// A whole plan record: a byte after its last edge is refused.
pub fn read_plan_rows(s: &[u8], rows: &mut [u64; GraphTable::ROW_WORDS]) -> Result<PlanHead, Answer>
    ensures value { result ≡ head_of (whole_plan s.now) }
    ensures rows_after { rows.new ≡ rows_left rows.old s.now }
{
    let head = read_leading_rows(s, rows)?;
    if head.next < s.len() {
        return Err(Answer::PlanFault(7, head.next));
    }
    Ok(head)
}

// The next count numbers of the record, laid in the array from its beginning on.
fn lay_numbers(s: &[u8], from: usize, count: usize, ends: &mut [u16; PlanTable::ENDS])
    requires { count ≤ end_count }
    ensures { ends.new ≡ numbers_in count ends.old s.now from }
{
    let mut at = from;
    for i in 0..count {
        let Number::Value(v, next) = record::read_number(s, at) else {
            return;
        };
        ends[i] = v;
        at = next;
    }
}

// The edges of a plan that was accepted, in the order of its record. A second reading, so that callers who only need the rows keep no array.
// m within the limit comes from the plan that was read; a type for it would be no plainer, since each definition speaks of the number m.
fn read_ends(s: &[u8], m: u16, ends: &mut [u16; PlanTable::ENDS])
    requires { m ≤ max_edges }
    ensures { ends.new ≡ ends_read ends.old m s.now }
{
    let Number::Value(_, m_at) = record::read_number(s, 0) else {
        return;
    };
    let Number::Value(_, at) = record::read_number(s, m_at) else {
        return;
    };
    lay_numbers(s, at, 2 * m as usize, ends);
}

// What was read into rows that were bare, as a plan by value.
fn by_value(s: &[u8], head: PlanHead, rows: [u64; GraphTable::ROW_WORDS]) -> PlanRead
    requires { head.m ≤ max_edges }
    ensures { result ≡ by_value head rows (ends_read no_ends head.m s.now) }
{
    let mut ends = [0u16; PlanTable::ENDS];
    read_ends(s, head.m, &mut ends);
    let graph = GraphTable {
        n: head.n,
        d: head.d,
        rows,
    };
    let plan = PlanTable {
        graph,
        m: head.m,
        ends,
    };
    PlanRead {
        plan,
        next: head.next,
    }
}

// The same by value: a plan at the start of s. It and read_plan are two public names over one function.
pub fn read_leading_plan(s: &[u8]) -> Result<PlanRead, Answer>
    ensures { result ≡ plan_result (leading_plan s.now) }
{
    let mut rows = [0u64; GraphTable::ROW_WORDS];
    let head = read_leading_rows(s, &mut rows)?;
    Ok(by_value(s, head, rows))
}

// A whole plan record by value.
pub fn read_plan(s: &[u8]) -> Result<PlanRead, Answer>
    ensures { result ≡ plan_result (whole_plan s.now) }
{
    let mut rows = [0u64; GraphTable::ROW_WORDS];
    let head = read_plan_rows(s, &mut rows)?;
    Ok(by_value(s, head, rows))
}
