// The plan record, written from a plan by value.
#![tactic(auto)]

ghost use Rattle.std.specs.Prelude.{◌≡◌, ◌+◌, ◌≤◌, ◌<◌, length};
ghost use Rattle.record.specs.Number.{number_bytes, number_limit};
ghost use Rattle.record.specs.Write.{overwritten};
ghost use Rattle.graph.specs.Limits.{max_edges};
ghost use Rattle.reading.specs.Plan.{edge_bytes};
ghost use Rattle.writing.specs.Write.{edges_of, size_of, edges_bytes, EdgesLow, written_plan, with_plan};

use graph::GraphTable;
use reading::PlanTable;

// How many bytes the first m edges take; None where one of them is not allowed behind the one before it.
// m within the limit is no type of its own: see reading's `read_ends`.
fn measure(ends: &[u16; PlanTable::ENDS], n: u16, m: u16) -> Option<usize>
    requires { m ≤ max_edges }
    ensures { result ≡ size_of n (edges_of ends.now m) }
{
    let mut bytes: usize = 0;
    let mut before = (0, 0);
    for i in 0..m as usize {
        let u = ends[2 * i];
        let v = ends[2 * i + 1];
        if !reading::proper(n, u, v) || !reading::follows(before.0, before.1, u, v) {
            return None;
        }
        bytes += record::number_length(u) + record::number_length(v);
        before = (u, v);
    }
    Some(bytes)
}

// Writes a number that has room, and gives the place after it.
fn put_number(out: &mut [u8], at: usize, v: u16) -> usize
    requires { (v < number_limit) × (at + length (number_bytes v) ≤ length out.old) }
    ensures { (result ≡ at + length (number_bytes v)) × (out.new ≡ overwritten out.old at (number_bytes v)) }
{
    record::write_number(out, at, v).unwrap()
}

// The same for the edge from u to v.
fn put_edge(out: &mut [u8], at: usize, u: u16, v: u16) -> usize
    requires { (u < number_limit) × (v < number_limit) × (at + length (edge_bytes (u, v)) ≤ length out.old) }
    ensures { (result ≡ at + length (edge_bytes (u, v))) × (out.new ≡ overwritten out.old at (edge_bytes (u, v))) }
{
    let mid = put_number(out, at, u);
    put_number(out, mid, v)
}

// Writes the first m edges, whose vertices have a form and which have room, and gives the place after them.
fn put_edges(ends: &[u16; PlanTable::ENDS], m: u16, out: &mut [u8], from: usize) -> usize
    requires { (m ≤ max_edges) × (EdgesLow ends.now m) × (from + length (edges_bytes ends.now m) ≤ length out.old) }
    ensures { (result ≡ from + length (edges_bytes ends.now m)) × (out.new ≡ overwritten out.old from (edges_bytes ends.now m)) }
{
    let mut next = from;
    for i in 0..m as usize {
        next = put_edge(out, next, ends[2 * i], ends[2 * i + 1]);
    }
    next
}

// Writes the record of a plan at the start of a buffer, where Records allows it and it has room; gives the place after it.
pub fn write_plan(p: PlanTable, out: &mut [u8]) -> Option<usize>
    ensures { (result ≡ written_plan out.old p) × (out.new ≡ with_plan out.old p) }
{
    let n = p.graph.n;
    let m = p.m;
    if n < GraphTable::MIN_VERTICES || GraphTable::MAX_VERTICES < n || GraphTable::MAX_EDGES < m {
        return None;
    }
    let bytes = measure(&p.ends, n, m)?;
    if out.len() < record::number_length(n) + record::number_length(m) + bytes {
        return None;
    }
    let m_at = put_number(out, 0, n);
    let from = put_number(out, m_at, m);
    Some(put_edges(&p.ends, m, out, from))
}
