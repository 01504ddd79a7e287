// One search serves the certifier: from seeds to the nearest goal, with vertices removed; a path, or the closed set that was reached.
#![tactic(auto)]

ghost use Rattle.std.specs.Prelude.{◌≡◌, ◌≤◌, ◌<◌, ◌+◌, ◌==◌, [], ◌∷◌, ◌++◌, leb, length, reverse, get_or, replicate, take, drop};
ghost use Rattle.construction.specs.Sets.{members};
ghost use Rattle.construction.specs.Search.{explore};
ghost use Rattle.search.specs.Arrays.{placed, placed_end};
ghost use Rattle.search.specs.Code.{path_room, pushed, reach_of, route_in, space_after, left_in, answer_in, reached_after, reached_end, visits_in};
ghost use Rattle.vertexset.specs.Set.{capacity};

use graph::GraphTable;
use std::marker::Model;
use vertexset::VertexSet;

// What a search answers: how many vertices it reached, and how many of them are seeds; the vertices reached or removed; the goal that
// was met, or CAPACITY, and the place of the vertex next to it. CAPACITY for none, since explore promises the answer of its definition,
// `answer_in`, whose goal is the number capacity there.
#[derive(Clone, Copy)]
pub struct Reach {
    pub count: usize,
    pub seeds: usize,
    pub shut: VertexSet,
    pub goal: u16,
    pub last: usize,
}

impl Reach {
    // The space that a search is lent: the vertices reached, in order, the seeds first; and from HALF on, for each the place of
    // the one it was reached from. One slice and not two, since explore promises the whole of what is lent.
    pub const SPACE: usize = 2 * Reach::HALF;

    pub const HALF: usize = VertexSet::CAPACITY as usize;
}

pub const PATH_ROOM: usize = VertexList::ROOM;

// A list of vertices that lies in the value itself: no heap. No ArrayVec of the kit, since it is Copy. Contracts see its items alone; what stands
// behind them is zeros, so that these give the fields back, which a copy needs.
#[derive(Clone, Copy)]
pub struct VertexList {
    vertices: [u16; VertexList::ROOM],
    count: usize,
}

impl Model for VertexList {
    ghost use Rattle.std.specs.Prelude.{length, take};
    ghost use Rattle.std.proofs.Common.{sym, length-take-le};
    ghost use Rattle.search.specs.Arrays.{padded, Fronted};
    ghost use Rattle.search.specs.Code.{Vertices, path_room};

    ghost Value = { Vertices };

    ghost view = { λ p. record { items = take p.count p.vertices } };

    ghost invariant = { λ p. Fronted path_room p.vertices p.count };

    ghost inverse = { λ v. record { vertices = padded path_room v.items; count = length v.items } };

    ghost inverse_ok = { λ p h i. record {
      vertices = sym h.zeros i;
      count = length-take-le p.count p.vertices h.within i;
    } };
}

impl VertexList {
    // every vertex, and two more
    pub const ROOM: usize = VertexSet::CAPACITY as usize + 2;

    pub fn new() -> Self
        ensures { result.items ≡ [] }
    {
        VertexList {
            vertices: [0u16; VertexList::ROOM],
            count: 0,
        }
    }

    // The first vertices of a slice, as many as have room.
    pub fn from_slice(list: &[u16]) -> Self
        ensures { result.items ≡ take path_room list.now }
    {
        let mut vertices = [0u16; VertexList::ROOM];
        let front = &list[..VertexList::ROOM.min(list.len())];
        let count = put_all(&mut vertices, 0, front);
        VertexList { vertices, count }
    }

    pub fn is_empty(&self) -> bool
        ensures { result ≡ (length self.now.items == 0) }
    {
        self.count == 0
    }

    pub fn as_slice(&self) -> &[u16]
        ensures value { result.now ≡ self.now.items }
        ensures fits { length result.now ≤ path_room }
    {
        &self.vertices[..self.count]
    }

    // A vertex behind the others; without room nothing changes.
    pub fn push(&mut self, v: u16)
        ensures { self.new ≡ pushed self.old v }
    {
        if self.count < VertexList::ROOM {
            self.vertices[self.count] = v;
            self.count += 1;
        }
    }

    pub fn reverse(&mut self)
        ensures { self.new.items ≡ reverse self.old.items }
    {
        self.vertices[..self.count].reverse();
    }
}

// Whether k numbers have room from a place on, in an array of this length.
fn has_room(len: usize, at: usize, k: usize) -> bool
    ensures { result ≡ leb (at + k) len }
{
    at <= len && k <= len - at
}

// The numbers of a list, put from a place on; the place behind them. Nothing is put where they have no room, and the place is the one given, as the
// definition placed_end has it.
pub fn put_all<'a>(items: &'a mut [u16], at: usize, list: &'a [u16]) -> usize
    ensures after { items.new ≡ placed items.old at list.now }
    ensures value { result ≡ placed_end items.old at list.now }
{
    if !has_room(items.len(), at, list.len()) {
        return at;
    }
    // no copy_from_slice, of which the compiler makes a call of memmove: an archive for C needs nothing from outside but memcpy and memset
    for i in 0..list.len() {
        items[at + i] = list[i];
    }
    at + list.len()
}

// The members of a set, ascending. The walk takes one step for each member and word, and stays a walk.
pub fn put_members(items: &mut [u16], at: usize, set: VertexSet) -> usize
    ensures after { items.new ≡ placed items.old at (members set) }
    ensures value { result ≡ placed_end items.old at (members set) }
{
    if !has_room(items.len(), at, set.size() as usize) {
        return at;
    }
    let mut i = at;
    let mut walk = set.walk_from(0);
    while walk.going() {
        let here = walk;
        walk = here.step(set);
        if here.meets() {
            items[i] = here.member();
            i += 1;
        }
    }
    i
}

// One number, some times.
pub fn put_copies(items: &mut [u16], at: usize, times: usize, v: u16) -> usize
    ensures after { items.new ≡ placed items.old at (replicate times v) }
    ensures value { result ≡ placed_end items.old at (replicate times v) }
{
    if !has_room(items.len(), at, times) {
        return at;
    }
    let end = at + times;
    items[at..end].fill(v);
    end
}

// Vertices reached from the one at a place, behind the others.
fn put_reached(space: &mut [u16; Reach::SPACE], at: usize, set: VertexSet, from: u16) -> usize
    ensures space_after { space.new ≡ reached_after space.old at (members set) from }
    ensures value { result ≡ reached_end at (members set) }
{
    let k = set.size() as usize;
    if k == 0 {
        return at;
    }
    if !has_room(Reach::HALF, at, k) {
        return at;
    }
    put_members(space, at, set);
    put_copies(space, Reach::HALF + at, k, from);
    at + k
}

// The visits, from the seeds on, which stand in the space already; to the first goal.
fn visit<'a>(
    rows: &'a [u64; GraphTable::ROW_WORDS],
    space: &'a mut [u16; Reach::SPACE],
    goals: VertexSet,
    seeds: usize,
    closed: VertexSet,
) -> Reach
    requires { seeds ≤ capacity }
    ensures space_after { space.new ≡ space_after space.old (visits_in rows.now goals seeds space.old closed) }
    ensures value { result ≡ reach_of (visits_in rows.now goals seeds space.old closed) }
{
    let mut count = seeds;
    let mut shut = closed;
    let mut head = 0;
    // A visit reaches more vertices: the bound grows while the loop runs.
    while head < count {
        let row = graph::row(rows, space[head]);
        let goal = row.minus(row.minus(goals)).next_from(0);
        if goal < VertexSet::CAPACITY {
            return Reach {
                count,
                seeds,
                shut,
                goal,
                last: head,
            };
        }
        count = put_reached(space, count, row.minus(shut), head as u16);
        shut = shut.union(row);
        head += 1;
    }
    Reach {
        count,
        seeds,
        shut,
        goal: VertexSet::CAPACITY,
        last: head,
    }
}

// THE SEARCH. What stands in the space is not read, and only what is reached is written: nothing is cleared. In a space of another
// size nothing is searched.
pub fn explore<'a>(
    rows: &'a [u64; GraphTable::ROW_WORDS],
    space: &'a mut [u16],
    seeds: VertexSet,
    goals: VertexSet,
    removed: VertexSet,
) -> Reach
    ensures space_after { space.new ≡ left_in space.old (explore rows.now seeds goals removed) }
    ensures value { result ≡ answer_in space.old (explore rows.now seeds goals removed) }
{
    let Some(space) = space.as_mut_array() else {
        return Reach {
            count: 0,
            seeds: 0,
            shut: VertexSet::empty(),
            goal: VertexSet::CAPACITY,
            last: 0,
        };
    };
    let count = put_reached(space, 0, seeds, 0);
    visit(rows, space, goals, count, seeds.union(removed))
}

// The number at place i of the list of this length that begins at a place; 0 behind its end.
pub fn entry(items: &[u16], start: usize, count: usize, i: usize) -> u16
    ensures { result ≡ get_or (take count (drop start items.now)) i 0 }
{
    if count <= i {
        return 0;
    }
    let Some(list) = items.get(start..) else {
        return 0;
    };
    list.get(i).copied().unwrap_or(0)
}

// The path that was found, from its goal back to a seed, out of the space that the search left.
pub fn route(space: &[u16], r: Reach) -> VertexList
    ensures { result.items ≡ route_in space.now r }
{
    let mut path = VertexList::new();
    path.push(r.goal);
    let mut i = r.last;
    for _ in 0..VertexSet::CAPACITY {
        path.push(entry(space, 0, r.count, i));
        if i < r.seeds {
            return path;
        }
        i = entry(space, Reach::HALF, r.count, i) as usize;
    }
    path
}
