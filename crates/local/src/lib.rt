// Local connectivity: whether two vertices stay connected whatever few others are removed.
#![tactic(auto)]

ghost use Rattle.std.specs.Prelude.{◌≡◌};
ghost use Rattle.local.specs.Withstands.{withstands, spared};

use graph::GraphTable;
use search::Reach;
use vertexset::VertexSet;

// Whether u and v are connected without the removed vertices and without any k more. A path that is found stands unless one of its inner
// vertices goes, so only these are tried.
fn withstands(
    rows: &[u64; GraphTable::ROW_WORDS],
    u: u16,
    v: u16,
    removed: VertexSet,
    k: u16,
) -> bool
    ensures { result ≡ withstands k rows.now u v removed }
{
    let mut space = [0u16; Reach::SPACE];
    let r = search::explore(
        rows,
        &mut space,
        detours::single(v),
        detours::single(u),
        removed,
    );
    if VertexSet::CAPACITY <= r.goal {
        return false;
    }
    if k == 0 {
        return true;
    }
    let path = search::route(&space, r);
    for &c in path.as_slice() {
        if c == u || c == v {
            continue;
        }
        if !withstands(rows, u, v, removed.insert(c), k - 1) {
            return false;
        }
    }
    true
}

// Whether two vertices stay connected whatever two others are removed. Three common neighbours are enough.
pub fn spared(rows: &[u64; GraphTable::ROW_WORDS], u: u16, v: u16) -> bool
    ensures { result ≡ spared rows.now u v }
{
    let row = graph::row(rows, u);
    let others = row.minus(graph::row(rows, v));
    if 3 <= row.minus(others).size() {
        return true;
    }
    withstands(rows, u, v, VertexSet::empty(), 2)
}
