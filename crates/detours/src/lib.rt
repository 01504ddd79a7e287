// Paths and cuts by one search each: a way out of a set of vertices and back, a cycle through vertex 0; ears until every vertex is in.
#![tactic(auto)]

ghost use Rattle.std.specs.Prelude.{◌≡◌, [], ◌∷◌, take, get_or};
ghost use Rattle.vertexset.specs.Set.{empty_set, capacity};
ghost use Rattle.search.specs.Arrays.{placed, placed_end};
ghost use Rattle.search.specs.Code.{path_of, left_in};
ghost use Rattle.construction.specs.Sets.{stop, pair, single, set_with_all, last_of};
ghost use Rattle.construction.specs.Search.{explore};
ghost use Rattle.construction.specs.Ears.{no_cut, is_cut, failed, near_all, way_out, add_path, ears_on, ears};
ghost use Rattle.construction.specs.Start.{marked};
ghost use Rattle.detours.specs.Code.{cut_of, found_of, settled, way_of, ears_of, answered_in, detour_in, detour_left, cycle_in, cycle_left};

use graph::GraphTable;
use search::{Reach, VertexList};
use vertexset::VertexSet;

// Removed vertices, and a side that no edge leaves but to them. Without a side nothing is cut, as the definitions (no_cut, is_cut) have it.
#[derive(Clone, Copy)]
pub struct Cut {
    pub removed: VertexSet,
    pub side: VertexSet,
}

// A path of vertices, never empty; or a cut. Where nothing is cut either, the cut has the removed vertices, and nobody on its side.
pub type Found = Result<VertexList, Cut>;

// Ears one after the other in an array, a stop before each, and how many; and the cut that ended them, if one did: what find_ears and
// the certifier's `cut_certificate_in` promise tells the ears beside the cut, so this is no Result. find_ears promises the array whole,
// with zeros behind the ears (`flat_of`), so the length stands beside it.
#[derive(Clone, Copy)]
pub struct Ears {
    pub flat: [u16; Ears::ROOM],
    pub len: usize,
    pub count: u16,
    pub cut: Cut,
}

impl Ears {
    // a path takes a stop and its vertices: at most three numbers for each of its edges
    pub const ROOM: usize = 3 * GraphTable::MAX_EDGES as usize;
}

impl Cut {
    pub fn none() -> Self
        ensures { result ≡ cut_of no_cut }
    {
        Cut {
            removed: VertexSet::empty(),
            side: VertexSet::empty(),
        }
    }

    pub fn is_cut(self) -> bool
        ensures { result ≡ is_cut (record { removed = self.removed; side = self.side }) }
    {
        !self.side.is_empty()
    }
}

pub fn single(v: u16) -> VertexSet
    ensures { result ≡ single v }
{
    VertexSet::empty().insert(v)
}

pub fn pair(u: u16, v: u16) -> VertexSet
    ensures { result ≡ pair u v }
{
    single(u).insert(v)
}

pub fn with_all(set: VertexSet, list: &[u16]) -> VertexSet
    ensures { result ≡ set_with_all set list.now }
{
    let mut all = set;
    for &v in list {
        all = all.insert(v);
    }
    all
}

// The number at a place; 0 behind the end, as the definitions have it.
pub fn number_at(list: &[u16], i: usize) -> u16
    ensures { result ≡ get_or list.now i 0 }
{
    list.get(i).copied().unwrap_or(0)
}

// The last number; 0 where there is none, as the definitions have it.
pub fn last_of(list: &[u16]) -> u16
    ensures { result ≡ last_of list.now }
{
    list.last().copied().unwrap_or(0)
}

// A path without vertices.
pub fn no_path() -> VertexList
    ensures { result ≡ path_of [] }
{
    VertexList::new()
}

// The first numbers of an array that has room for a path; all where it has no more.
pub fn front<'a>(list: &'a [u16; VertexList::ROOM], count: usize) -> &'a [u16]
    ensures { result.now ≡ take count list.now }
{
    &list[..count.min(VertexList::ROOM)]
}

// A search's answer for those that go on with an empty path where nothing is cut: the cut only where somebody is on its side.
pub fn settled(found: Found) -> Found
    ensures { result ≡ settled found }
{
    match found {
        Ok(path) => Ok(path),
        Err(cut) => {
            if cut.is_cut() {
                return Err(cut);
            }
            Ok(no_path())
        }
    }
}

// Without a path: the cut, whether somebody is on its side or not.
fn failed(removed: VertexSet, side: VertexSet) -> Found
    ensures { result ≡ found_of (failed removed side) }
{
    Err(Cut { removed, side })
}

// A search, answered by a path or a cut. In a space of another size than Reach::SPACE nothing is searched, and nobody is on the side. Rows and space go
// side by side: many searches share a space, and a struct of the two would be taken apart again at each.
pub fn find<'a>(
    rows: &'a [u64; GraphTable::ROW_WORDS],
    space: &'a mut [u16],
    seeds: VertexSet,
    goals: VertexSet,
    removed: VertexSet,
) -> Found
    ensures space_after { space.new ≡ left_in space.old (explore rows.now seeds goals removed) }
    ensures value { result ≡ found_of (answered_in space.old (explore rows.now seeds goals removed) removed []) }
{
    let r = search::explore(rows, space, seeds, goals, removed);
    if r.goal < VertexSet::CAPACITY {
        return Ok(search::route(space, r));
    }
    let shut = r.shut;
    failed(removed, shut.minus(removed))
}

// The same without one vertex, to which the path goes on.
pub fn find_on<'a>(
    rows: &'a [u64; GraphTable::ROW_WORDS],
    space: &'a mut [u16],
    seeds: VertexSet,
    goals: VertexSet,
    x: u16,
) -> Found
    ensures space_after { space.new ≡ left_in space.old (explore rows.now seeds goals (single x)) }
    ensures value { result ≡ found_of (answered_in space.old (explore rows.now seeds goals (single x)) (single x) (x ∷ [])) }
{
    let mut path = find(rows, space, seeds, goals, single(x))?;
    path.push(x);
    Ok(path)
}

// The neighbours of the vertices of a list, beside others.
pub fn near_all<'a>(
    rows: &'a [u64; GraphTable::ROW_WORDS],
    near: VertexSet,
    list: &'a [u16],
) -> VertexSet
    ensures { result ≡ near_all rows.now near list.now }
{
    let mut all = near;
    for &v in list {
        all = all.union(graph::row(rows, v));
    }
    all
}

// The edge out of a set to the least vertex near it, from its least neighbour inside: (inside, outside).
fn way_out(
    rows: &[u64; GraphTable::ROW_WORDS],
    near: VertexSet,
    set: VertexSet,
) -> Option<(u16, u16)>
    ensures { result ≡ way_of (way_out rows.now near set) }
{
    let outside = near.minus(set).next_from(0);
    let row = graph::row(rows, outside);
    let inside = row.minus(row.minus(set)).next_from(0);
    if inside < VertexSet::CAPACITY {
        return Some((inside, outside));
    }
    None
}

// Out of a set along an edge to a vertex near it, and back to another of its vertices.
pub fn detour<'a>(
    rows: &'a [u64; GraphTable::ROW_WORDS],
    space: &'a mut [u16],
    near: VertexSet,
    set: VertexSet,
) -> Found
    ensures space_after { space.new ≡ detour_left space.old rows.now near set }
    ensures value { result ≡ found_of (detour_in space.old rows.now near set) }
{
    let Some((inside, outside)) = way_out(rows, near, set) else {
        return failed(VertexSet::empty(), set);
    };
    find_on(
        rows,
        space,
        single(outside),
        set.minus(single(inside)),
        inside,
    )
}

// A cycle through vertex 0.
pub fn cycle<'a>(rows: &'a [u64; GraphTable::ROW_WORDS], space: &'a mut [u16]) -> Found
    ensures space_after { space.new ≡ cycle_left space.old rows.now }
    ensures value { result ≡ found_of (cycle_in space.old rows.now) }
{
    let row = graph::row(rows, 0);
    if row.size() < 2 {
        return failed(row, single(0));
    }
    let x = row.next_from(0);
    find_on(rows, space, single(x), row.minus(single(x)), 0)
}

// A path behind the others, with a stop before it.
pub fn add_path<'a>(flat: &'a mut [u16], len: usize, path: &'a [u16]) -> usize
    ensures flat_after { flat.new ≡ placed flat.old len (stop ∷ path.now) }
    ensures value { result ≡ placed_end flat.old len (stop ∷ path.now) }
{
    if flat.len() <= len {
        return len;
    }
    if flat.len() - len <= path.len() {
        return len;
    }
    flat[len] = VertexSet::CAPACITY;
    search::put_all(flat, len + 1, path)
}

// Neighbours in a list of paths are joined; a stop is no vertex.
pub fn mark<'a>(table: &'a mut [u64; GraphTable::ROW_WORDS], list: &'a [u16])
    ensures { table.new ≡ marked table.old list.now }
{
    for link in list.windows(2) {
        graph::join(table, link[0], link[1]);
    }
}

fn ears_of(flat: [u16; Ears::ROOM], len: usize, count: u16, cut: Cut) -> Ears
    ensures { result ≡ record { flat = flat; len = len; count = count; cut = cut } }
{
    Ears {
        flat,
        len,
        count,
        cut,
    }
}

// Ears behind the first until every vertex is in; or a cut. Beside the vertices that are in stand their neighbours.
fn more_ears<'a>(
    rows: &'a [u64; GraphTable::ROW_WORDS],
    space: &'a mut [u16; Reach::SPACE],
    full: VertexSet,
    first: &'a [u16],
) -> Ears
    ensures { result ≡ ears_of (ears_on rows.now full capacity (add_path [] first.now) 1 (set_with_all empty_set first.now)) }
{
    let mut flat = [0u16; Ears::ROOM];
    let mut len = add_path(&mut flat, 0, first);
    let mut set = with_all(VertexSet::empty(), first);
    let mut near = near_all(rows, VertexSet::empty(), first);
    let mut count: u16 = 1;
    for _ in 0..VertexSet::CAPACITY {
        if full.minus(set).is_empty() {
            return ears_of(flat, len, count, Cut::none());
        }
        let found = match settled(detour(rows, space, near, set)) {
            Ok(path) => path,
            Err(cut) => return ears_of(flat, len, count, cut),
        };
        let path = found.as_slice();
        len = add_path(&mut flat, len, path);
        set = with_all(set, path);
        near = near_all(rows, near, path);
        count += 1;
    }
    ears_of(flat, len, count, Cut::none())
}

// EARS until every vertex is in; or a cut. All searches share one space.
pub fn find_ears(rows: &[u64; GraphTable::ROW_WORDS], full: VertexSet) -> Ears
    ensures { result ≡ ears_of (ears rows.now full) }
{
    let mut space = [0u16; Reach::SPACE];
    match settled(cycle(rows, &mut space)) {
        Ok(first) => more_ears(rows, &mut space, full, first.as_slice()),
        Err(cut) => ears_of([0u16; Ears::ROOM], 0, 0, cut),
    }
}
