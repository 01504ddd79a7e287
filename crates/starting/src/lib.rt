// The start of a build: a cycle through vertex 0, a third path, a path across; from these four branch vertices and six links.
#![tactic(auto)]

ghost use Rattle.std.specs.Prelude.{◌≡◌, ◌∷◌, ◌+◌};
ghost use Rattle.vertexset.specs.Set.{next};
ghost use Rattle.search.specs.Arrays.{placed, placed_end};
ghost use Rattle.construction.specs.Sets.{stop};
ghost use Rattle.construction.specs.Start.{marked, link_in, sorted, three_paths, third_path, across, begun, start_on, begin};
ghost use Rattle.detours.specs.Code.{settled_of};
ghost use Rattle.starting.specs.Code.{paths_of, start_of};

use detours::{Cut, Ears, Found};
use graph::GraphTable;
use search::{Reach, VertexList};
use vertexset::VertexSet;

// The four branch vertices and six paths of a start: the array whole, zeros behind its length, as `begin` promises it (the definition paths_of).
#[derive(Clone, Copy)]
pub struct Start {
    pub four: VertexSet,
    pub flat: [u16; Ears::ROOM],
    pub len: usize,
}

// A third path from vertex 0 to the cycle through it.
fn third_path<'a>(
    rows: &'a [u64; GraphTable::ROW_WORDS],
    space: &'a mut [u16; Reach::SPACE],
    around: &'a [u16],
) -> Found
    ensures { result ≡ settled_of (third_path rows.now around.now) }
{
    let set = detours::with_all(VertexSet::empty(), around);
    let z = graph::row(rows, 0).minus(set).next_from(0);
    detours::settled(detours::find_on(
        rows,
        space,
        detours::single(z),
        set.minus(detours::single(0)),
        0,
    ))
}

// A path from inside the third path across to the cycle.
fn path_across<'a>(
    rows: &'a [u64; GraphTable::ROW_WORDS],
    space: &'a mut [u16; Reach::SPACE],
    around: &'a [u16],
    third: &'a [u16],
) -> Found
    ensures { result ≡ settled_of (across rows.now around.now third.now) }
{
    let ends = detours::pair(0, detours::number_at(third, 0));
    let seeds = detours::with_all(VertexSet::empty(), third).minus(ends);
    let goals = detours::with_all(VertexSet::empty(), around).minus(ends);
    detours::settled(detours::find(rows, space, seeds, goals, ends))
}

// Neighbours on the three paths are joined in a table.
fn join_paths<'a>(
    table: &'a mut [u64; GraphTable::ROW_WORDS],
    around: &'a VertexList,
    third: &'a VertexList,
    across: &'a VertexList,
)
    ensures { table.new ≡ marked table.old (three_paths around.now.items third.now.items across.now.items) }
{
    let mut closed = [0u16; search::PATH_ROOM + 1];
    let k = search::put_all(&mut closed, 1, around.as_slice());
    let mut flat = [0u16; Ears::ROOM];
    let first = detours::add_path(&mut flat, 0, &closed[0..k]);
    let second = detours::add_path(&mut flat, first, third.as_slice());
    let len = detours::add_path(&mut flat, second, across.as_slice());
    detours::mark(table, &flat[0..len]);
}

// The link between two branch vertices, behind the other links.
fn add_link<'a>(
    table: &'a [u64; GraphTable::ROW_WORDS],
    space: &'a mut [u16; Reach::SPACE],
    four: VertexSet,
    flat: &'a mut [u16; Ears::ROOM],
    len: usize,
    u: u16,
    w: u16,
) -> usize
    ensures flat_after { flat.new ≡ placed flat.old len (stop ∷ link_in table.now four u w) }
    ensures value { result ≡ placed_end flat.old len (stop ∷ link_in table.now four u w) }
{
    let r = search::explore(
        table,
        space,
        detours::single(w),
        detours::single(u),
        four.minus(detours::pair(u, w)),
    );
    detours::add_path(flat, len, search::route(space, r).as_slice())
}

// The four branch vertices, ascending.
#[tactic(auto, using(vertexset::proofs::Laws::next_low))]
fn ascending(four: VertexSet) -> (u16, u16, u16, u16)
    ensures p { result.0 ≡ next four.words 0 }
    ensures q { result.1 ≡ next four.words (result.0 + 1) }
    ensures r { result.2 ≡ next four.words (result.1 + 1) }
    ensures s { result.3 ≡ next four.words (result.2 + 1) }
{
    let p = four.next_from(0);
    let q = four.next_from(p + 1);
    let r = four.next_from(q + 1);
    let s = four.next_from(r + 1);
    (p, q, r, s)
}

// The six links in the order of the record.
fn six_links<'a>(
    table: &'a [u64; GraphTable::ROW_WORDS],
    space: &'a mut [u16; Reach::SPACE],
    four: VertexSet,
) -> Start
    ensures { result ≡ paths_of (begun four (sorted table.now four)) }
{
    let (p, q, r, s) = ascending(four);
    let mut flat = [0u16; Ears::ROOM];
    let mut len = 0;
    for (u, w) in [(p, q), (p, r), (p, s), (q, r), (q, s), (r, s)] {
        len = add_link(table, space, four, &mut flat, len, u, w);
    }
    Start { four, flat, len }
}

// The start on three paths.
fn start_on<'a>(
    space: &'a mut [u16; Reach::SPACE],
    around: &'a VertexList,
    third: &'a VertexList,
    across: &'a VertexList,
) -> Start
    ensures { result ≡ paths_of (start_on around.now.items third.now.items across.now.items) }
{
    let four = detours::pair(0, detours::number_at(third.as_slice(), 0))
        .insert(detours::number_at(across.as_slice(), 0))
        .insert(detours::last_of(across.as_slice()));
    let mut table = [0u64; GraphTable::ROW_WORDS];
    join_paths(&mut table, around, third, across);
    six_links(&table, space, four)
}

// THE START: four branch vertices and six links; or a cut. All searches share one space.
// A call of its own: inlined, its locals would lie on the stack beside those of all callers.
#[inline(never)]
pub fn begin(rows: &[u64; GraphTable::ROW_WORDS]) -> Result<Start, Cut>
    ensures { result ≡ start_of (begin rows.now) }
{
    let row = graph::row(rows, 0);
    if row.size() < 3 {
        return Err(Cut {
            removed: row,
            side: detours::single(0),
        });
    }
    let mut space = [0u16; Reach::SPACE];
    let around = detours::settled(detours::cycle(rows, &mut space))?;
    let third = third_path(rows, &mut space, around.as_slice())?;
    let across = path_across(rows, &mut space, around.as_slice(), third.as_slice())?;
    Ok(start_on(&mut space, &around, &third, &across))
}
