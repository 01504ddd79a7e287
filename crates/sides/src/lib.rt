// Certificates of kinds 0 and 1, after their kind: the side of a separation, and a spanning tree before it.
#![tactic(auto)]

ghost use Rattle.std.specs.Prelude.{◌≡◌, ◌≤◌, ◌<◌};
ghost use Rattle.record.specs.Loop.{runs};
ghost use Rattle.vertexset.specs.Set.{has, empty_set, capacity};
ghost use Rattle.graph.specs.Rows.{adjacent_in, rows_graph};
ghost use Rattle.certificates.specs.Tests.{with, nobody, some_below};
ghost use Rattle.certificates.specs.Records.{side_vertex, side, pair, body};
ghost use Rattle.paths.specs.Items.{item_read, end_read, limited};
ghost use Rattle.sides.specs.Code.{side_loop, misses_row, none_between, RestOf, Low, side_tested, pair_read, pair_loop};

use graph::GraphTable;
use paths::Item;
use record::Answer;
use vertexset::VertexSet;

// The vertices of a side, and where reading goes on.
#[derive(Clone, Copy)]
struct SideRead {
    next: usize,
    set: VertexSet,
}

// A vertex of a side that must not be below least.
fn read_side_vertex(
    s: &[u8],
    n: u16,
    removed: VertexSet,
    least: u16,
    at: usize,
) -> Result<Item, Answer>
    ensures { result ≡ item_read (side_vertex n (has removed.words) least s.now at) }
{
    let x = paths::read_vertex(s, n, at)?;
    if x.value < least {
        return Err(Answer::CertificateFault(20, at));
    }
    if removed.contains(x.value) {
        return Err(Answer::CertificateFault(21, at));
    }
    Ok(x)
}

fn read_side_vertices(
    s: &[u8],
    n: u16,
    removed: VertexSet,
    count: u16,
    from: usize,
) -> Result<SideRead, Answer>
    ensures { result ≡ runs (side_loop n (has removed.words)) count 0 empty_set s.now from }
{
    let mut set = VertexSet::empty();
    let mut least: u16 = 0;
    let mut next = from;
    for _ in 0..count {
        let x = read_side_vertex(s, n, removed, least, next)?;
        set = set.insert(x.value);
        least = x.value + 1;
        next = x.next;
    }
    Ok(SideRead { next, set })
}

// No vertex of the rest is adjacent to u: the rest loses nothing by taking out u's row.
fn misses(rows: &[u64; GraphTable::ROW_WORDS], u: u16, rest: VertexSet) -> bool
    ensures { result ≡ misses_row rows.now (has rest.words) u }
{
    rest.subset(rest.minus(graph::row(rows, u)))
}

// No edge runs between the side and the rest.
fn none_between(rows: &[u64; GraphTable::ROW_WORDS], side: VertexSet, rest: VertexSet) -> bool
    ensures { result ≡ none_between rows.now (has side.words) (has rest.words) }
{
    // one step for each member and word, as request 3 asks
    let mut walk = side.walk_from(0);
    while walk.going() {
        let here = walk;
        walk = here.step(side);
        if here.meets() {
            if !misses(rows, here.member(), rest) {
                return false;
            }
        }
    }
    true
}

// The vertices below n that are neither removed nor in the side.
// n within the capacity is the caller's one test, and no type of its own: see paths' `read_rest`.
fn rest_of(n: u16, removed: VertexSet, side: VertexSet) -> VertexSet
    requires { n ≤ capacity }
    ensures { RestOf n removed.words side.words result.words }
{
    VertexSet::below(n).minus(removed).minus(side)
}

// A set of vertices below n holds one.
fn holds_one(n: u16, set: VertexSet) -> bool
    requires { (n ≤ capacity) × Low n set.words }
    ensures { result ≡ some_below n (has set.words) }
{
    0 < set.size()
}

// A side that was read up to next, tested for 22 and 23.
fn tested_side(
    rows: &[u64; GraphTable::ROW_WORDS],
    n: u16,
    removed: VertexSet,
    side: VertexSet,
    at: usize,
    next: usize,
) -> Result<usize, Answer>
    requires { (n ≤ capacity) × Low n side.words }
    ensures { result ≡ side_tested (rows_graph n rows.now) (has removed.words) (has side.words) at next }
{
    if !holds_one(n, side) {
        return Err(Answer::CertificateFault(22, at));
    }
    let rest = rest_of(n, removed, side);
    if !holds_one(n, rest) {
        return Err(Answer::CertificateFault(22, at));
    }
    if !none_between(rows, side, rest) {
        return Err(Answer::CertificateFault(23, at));
    }
    Ok(next)
}

// A side beside the removed vertices.
pub fn read_side(
    s: &[u8],
    rows: &[u64; GraphTable::ROW_WORDS],
    n: u16,
    removed: VertexSet,
    at: usize,
) -> Result<usize, Answer>
    ensures { result ≡ end_read (limited n (side (rows_graph n rows.now) (has removed.words)) s.now at) }
{
    if VertexSet::CAPACITY < n {
        return Err(Answer::CertificateFault(9, at));
    }
    let count = paths::read_ranged(s, 0, n, at)?;
    let read = read_side_vertices(s, n, removed, count.value, count.next)?;
    tested_side(rows, n, removed, read.set, at, read.next)
}

// Kind 0: a side, with no vertex removed.
pub fn read_separation(
    s: &[u8],
    rows: &[u64; GraphTable::ROW_WORDS],
    n: u16,
    at: usize,
) -> Result<usize, Answer>
    ensures { result ≡ end_read (limited n (body (rows_graph n rows.now) 0) s.now at) }
{
    read_side(s, rows, n, VertexSet::empty(), at)
}

// A new vertex and a named one, with an edge between them; the new one is handed back.
fn read_pair(
    s: &[u8],
    rows: &[u64; GraphTable::ROW_WORDS],
    n: u16,
    named: VertexSet,
    at: usize,
) -> Result<Item, Answer>
    ensures { result ≡ pair_read (pair n (adjacent_in rows.now) (has named.words) s.now at) }
{
    let new = paths::read_vertex(s, n, at)?;
    let old = paths::read_vertex(s, n, new.next)?;
    if !graph::adjacent(rows, new.value, old.value) {
        return Err(Answer::CertificateFault(24, at));
    }
    if !named.contains(old.value) {
        return Err(Answer::CertificateFault(25, at));
    }
    if named.contains(new.value) {
        return Err(Answer::CertificateFault(26, at));
    }
    Ok(Item {
        value: new.value,
        next: old.next,
    })
}

// The pairs of a spanning tree that begins with first.
fn read_pairs(
    s: &[u8],
    rows: &[u64; GraphTable::ROW_WORDS],
    n: u16,
    first: u16,
    count: u16,
    from: usize,
) -> Result<usize, Answer>
    requires { (n ≤ capacity) × (first < n) }
    ensures { result ≡ runs (pair_loop n (adjacent_in rows.now)) count (with nobody first) tt s.now from }
{
    let mut named = VertexSet::empty().insert(first);
    let mut next = from;
    for _ in 0..count {
        let x = read_pair(s, rows, n, named, next)?;
        named = named.insert(x.value);
        next = x.next;
    }
    Ok(next)
}

// Kind 1: a removed vertex, a spanning tree, and a side.
pub fn read_tree(
    s: &[u8],
    rows: &[u64; GraphTable::ROW_WORDS],
    n: u16,
    at: usize,
) -> Result<usize, Answer>
    ensures { result ≡ end_read (limited n (body (rows_graph n rows.now) 1) s.now at) }
{
    if VertexSet::CAPACITY < n {
        return Err(Answer::CertificateFault(9, at));
    }
    let removed = paths::read_vertex(s, n, at)?;
    let first = paths::read_vertex(s, n, removed.next)?;
    let next = read_pairs(s, rows, n, first.value, n - 1, first.next)?;
    read_side(s, rows, n, VertexSet::empty().insert(removed.value), next)
}
