// The pairs of vertices that bring a graph to connectivity 3 (request 6 of document 02): all that are missing are proposed, and struck out from the last
// to the first where the connectivity is still 3 without them.
#![tactic(auto)]

ghost use Rattle.std.specs.Prelude.{◌≡◌, ◌≤◌};
ghost use Rattle.vertexset.specs.Set.{capacity};
ghost use Rattle.striking.specs.Code.{struck_by, completed, struck_all, added, edges_held, list_in};

use graph::GraphTable;
use reading::PlanTable;
use vertexset::VertexSet;

// Edges in the order of a record, and how many they are: that may be more than there is room for, so it is no length of a vector (the definition edges_held).
#[derive(Clone, Copy)]
pub struct Edges {
    pub ends: [u16; PlanTable::ENDS],
    pub count: u16,
}

// Joins every pair of the n vertices.
// n within the capacity is the caller's one test, and no type of its own: see paths' `read_rest`.
fn complete(rows: &mut [u64; GraphTable::ROW_WORDS], n: u16)
    requires { n ≤ capacity }
    ensures { rows.new ≡ completed rows.old n }
{
    for u in 0..n {
        for v in u + 1..n {
            graph::join(rows, u, v);
        }
    }
}

// Looks at one pair: where the plan has no edge there it is parted, and joined again where it is needed.
fn strike(
    plan: &[u64; GraphTable::ROW_WORDS],
    work: &mut [u64; GraphTable::ROW_WORDS],
    u: u16,
    v: u16,
)
    ensures { work.new ≡ struck_by plan.now work.old (u, v) }
{
    if graph::adjacent(plan, u, v) {
        return;
    }
    graph::part(work, u, v);
    if local::spared(work, u, v) {
        return;
    }
    graph::join(work, u, v);
}

// Looks at every pair, from the last to the first.
fn strike_all(plan: &[u64; GraphTable::ROW_WORDS], work: &mut [u64; GraphTable::ROW_WORDS], n: u16)
    ensures { work.new ≡ struck_all plan.now work.old n }
{
    for u in (0..n).rev() {
        for v in (u + 1..n).rev() {
            strike(plan, work, u, v);
        }
    }
}

// The pairs that are joined at work and not in the plan.
fn list(plan: &[u64; GraphTable::ROW_WORDS], work: &[u64; GraphTable::ROW_WORDS], n: u16) -> Edges
    requires { n ≤ capacity }
    ensures { result ≡ edges_held (added plan.now work.now n) }
{
    let mut ends = [0u16; PlanTable::ENDS];
    let mut count = 0u16;
    for u in 0..n {
        for v in u + 1..n {
            if !graph::adjacent(work, u, v) || graph::adjacent(plan, u, v) {
                continue;
            }
            if count < GraphTable::MAX_EDGES {
                ends[2 * count as usize] = u;
                ends[2 * count as usize + 1] = v;
            }
            count += 1;
        }
    }
    Edges { ends, count }
}

// THE LIST, of n vertices that the rows have room for; else it is empty.
// A call of its own: inlined, its locals would lie on the stack beside those of all callers.
#[inline(never)]
pub fn mend_list(plan: &[u64; GraphTable::ROW_WORDS], n: u16) -> Edges
    ensures { result ≡ edges_held (list_in plan.now n) }
{
    if VertexSet::CAPACITY < n {
        return Edges {
            ends: [0u16; PlanTable::ENDS],
            count: 0,
        };
    }
    let mut work = *plan;
    complete(&mut work, n);
    strike_all(plan, &mut work, n);
    list(plan, &work, n)
}
