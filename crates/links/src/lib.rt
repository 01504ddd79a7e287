// Links of a build: the two ends of a path, and the tables of what they join and of the way along them.
#![tactic(auto)]

ghost use Rattle.std.specs.Prelude.{◌≡◌, ◌*◌};
ghost use Rattle.links.specs.Ends.{same_link, link_end, addition_of, held};
ghost use Rattle.links.specs.Tables.{part_start, pointer, pointed, pointed_both, mated, link_around, link_at, end_in, mated_aside, split_rows, split_mates, split_by, split_mates_by, is_inner, cleared, rejoined_rows, unmated_aside, rejoined_mates, outer_aside, link_split};

use graph::GraphTable;
use vertexset::VertexSet;

// A link, named by its two ends: no two links have the same. With it come its two outermost inner vertices, next to a and next to b.
#[derive(Clone, Copy)]
pub struct Link {
    pub a: u16,
    pub b: u16,
    pub first: u16,
    pub last: u16,
}

// An end of a path: a branch vertex, or an inner vertex together with its link.
#[derive(Clone, Copy)]
pub enum End {
    Branch(u16),
    Inner(u16, Link),
}

#[derive(Clone, Copy)]
pub struct Ends {
    pub first: End,
    pub last: End,
}

// What taking a path does, by the cases of its two ends; Held where one link holds both.
#[derive(Clone, Copy)]
pub enum Addition {
    Held,
    VertexVertex,
    EdgeVertex(u16, Link),
    EdgeEdge(u16, Link, u16, Link),
}

// A part of the table of pointers, which has three, one behind the other: to the vertex before each vertex on its link, to the one after it, and
// from one outermost inner vertex of a link to the other.
#[derive(Clone, Copy)]
enum Part {
    Before,
    After,
    Mate,
}

impl Part {
    fn start(self) -> usize
        ensures { result ≡ part_start self }
    {
        match self {
            Part::Before => 0,
            Part::After => VertexSet::CAPACITY as usize,
            Part::Mate => 2 * VertexSet::CAPACITY as usize,
        }
    }
}

impl Link {
    pub const POINTERS: usize = 3 * VertexSet::CAPACITY as usize;

    // one of its two ends, which no derived equality says either
    fn has_end(self, v: u16) -> bool
        ensures { result ≡ link_end v self }
    {
        (v == self.a) | (v == self.b)
    }

    // A link is the same with its ends turned, which no derived equality says.
    fn same(self, other: Link) -> bool
        ensures { result ≡ same_link self other }
    {
        ((self.a == other.a) & (self.b == other.b)) | ((self.a == other.b) & (self.b == other.a))
    }
}

impl End {
    // A path that ends here splits a link, and raises the end to a branch vertex.
    pub fn is_inner(self) -> bool
        ensures { result ≡ is_inner self }
    {
        matches!(self, End::Inner(_, _))
    }
}

impl Ends {
    // The table of links has the layout of a graph's rows.
    pub fn addition(self, linked: &[u64; GraphTable::ROW_WORDS]) -> Addition
        ensures { result ≡ addition_of linked.now self.first self.last }
    {
        match (self.first, self.last) {
            (End::Branch(x), End::Branch(y)) => {
                if graph::adjacent(linked, x, y) {
                    return Addition::Held;
                }
                Addition::VertexVertex
            }
            (End::Branch(x), End::Inner(y, l)) | (End::Inner(y, l), End::Branch(x)) => {
                if l.has_end(x) {
                    return Addition::Held;
                }
                Addition::EdgeVertex(y, l)
            }
            (End::Inner(x, k), End::Inner(y, l)) => {
                if k.same(l) {
                    return Addition::Held;
                }
                Addition::EdgeEdge(x, k, y, l)
            }
        }
    }
}

impl Addition {
    pub fn is_held(self) -> bool
        ensures { result ≡ held self }
    {
        matches!(self, Addition::Held)
    }
}

fn pointer(pointers: &[u16; Link::POINTERS], part: Part, v: u16) -> u16
    ensures { result ≡ pointer pointers.now (part_start part) v }
{
    if v < VertexSet::CAPACITY {
        return pointers[part.start() + v as usize];
    }
    0
}

// The link with these outermost inner vertices.
fn link_around(pointers: &[u16; Link::POINTERS], first: u16, last: u16) -> Link
    ensures { result ≡ link_around pointers.now (first, last) }
{
    Link {
        a: pointer(pointers, Part::Before, first),
        b: pointer(pointers, Part::After, last),
        first,
        last,
    }
}

// The link on which v stands. Walked both ways at once, so that a long link costs no more than its shorter side: the outermost vertex of
// the other side is the mate of the one that is met.
fn link_at(pointers: &[u16; Link::POINTERS], branch: VertexSet, v: u16) -> Link
    ensures { result ≡ link_at pointers.now branch v }
{
    let mut u = v;
    let mut w = v;
    for _ in 0..VertexSet::CAPACITY {
        let before = pointer(pointers, Part::Before, u);
        if branch.contains(before) {
            return link_around(pointers, u, pointer(pointers, Part::Mate, u));
        }
        let after = pointer(pointers, Part::After, w);
        if branch.contains(after) {
            return link_around(pointers, pointer(pointers, Part::Mate, w), w);
        }
        u = before;
        w = after;
    }
    link_around(pointers, u, w)
}

// The end that a path has at v.
pub fn end_of(pointers: &[u16; Link::POINTERS], branch: VertexSet, v: u16) -> End
    ensures { result ≡ end_in pointers.now branch v }
{
    if branch.contains(v) {
        return End::Branch(v);
    }
    End::Inner(v, link_at(pointers, branch, v))
}

fn point(pointers: &mut [u16; Link::POINTERS], part: Part, v: u16, to: u16)
    ensures { pointers.new ≡ pointed pointers.old (part_start part) v to }
{
    if v < VertexSet::CAPACITY {
        pointers[part.start() + v as usize] = to;
    }
}

// A vertex that stands between two others on its link points to both.
pub fn point_between(pointers: &mut [u16; Link::POINTERS], u: u16, v: u16, w: u16)
    ensures { pointers.new ≡ pointed_both pointers.old u v w }
{
    point(pointers, Part::Before, v, u);
    point(pointers, Part::After, v, w);
}

// The outermost inner vertices of a link point to each other.
pub fn mate(pointers: &mut [u16; Link::POINTERS], first: u16, last: u16)
    ensures { pointers.new ≡ mated pointers.old first last }
{
    point(pointers, Part::Mate, first, last);
    point(pointers, Part::Mate, last, first);
}

// What x leaves of its link on one side has the outermost vertex of that side and x's neighbour there outermost; where x is
// outermost, nothing is left.
fn mate_aside(pointers: &mut [u16; Link::POINTERS], part: Part, x: u16, outer: u16)
    ensures { pointers.new ≡ mated_aside pointers.old (part_start part) x outer }
{
    if x == outer {
        return;
    }
    let next = pointer(pointers, part, x);
    mate(pointers, outer, next);
}

// The link is split at its inner vertex x. The two tables go side by side, as callers lend them: a session lends those of its build.
fn split_link<'a>(
    linked: &'a mut [u64; GraphTable::ROW_WORDS],
    pointers: &'a mut [u16; Link::POINTERS],
    x: u16,
    l: Link,
)
    ensures linked_after { linked.new ≡ split_rows linked.old x l }
    ensures pointers_after { pointers.new ≡ split_mates pointers.old x l }
{
    graph::part(linked, l.a, l.b);
    graph::join(linked, l.a, x);
    graph::join(linked, x, l.b);
    mate_aside(pointers, Part::Before, x, l.first);
    mate_aside(pointers, Part::After, x, l.last);
}

// The links are split that an addition splits.
pub fn split_by<'a>(
    linked: &'a mut [u64; GraphTable::ROW_WORDS],
    pointers: &'a mut [u16; Link::POINTERS],
    a: Addition,
)
    ensures linked_after { linked.new ≡ split_by linked.old a }
    ensures pointers_after { pointers.new ≡ split_mates_by pointers.old a }
{
    match a {
        Addition::Held => {}
        Addition::VertexVertex => {}
        Addition::EdgeVertex(x, k) => split_link(linked, pointers, x, k),
        Addition::EdgeEdge(x, k, y, l) => {
            split_link(linked, pointers, x, k);
            split_link(linked, pointers, y, l);
        }
    }
}

// A vertex is on no link any more: it points to nothing. The vertex that stood before it.
pub fn clear(pointers: &mut [u16; Link::POINTERS], v: u16) -> u16
    ensures value { result ≡ pointer pointers.old 0 v }
    ensures pointers_after { pointers.new ≡ cleared pointers.old v }
{
    let before = pointer(pointers, Part::Before, v);
    point(pointers, Part::Before, v, 0);
    point(pointers, Part::After, v, 0);
    point(pointers, Part::Mate, v, 0);
    before
}

// The neighbour of x on one side of a link that was split at x is no longer outermost; where x is outermost, there is none inside. It shares with
// mate_aside only where that neighbour stands: one function for both would take a flag for what it does there.
fn unmate_aside(pointers: &mut [u16; Link::POINTERS], part: Part, x: u16, outer: u16)
    ensures { pointers.new ≡ unmated_aside pointers.old (part_start part) x outer }
{
    if x == outer {
        return;
    }
    let next = pointer(pointers, part, x);
    point(pointers, Part::Mate, next, 0);
}

// A link that was split at x is whole again; in the table of links what was done last is taken back first, so that no step is one of split_link's
// with a flag turned.
fn rejoin_link<'a>(
    linked: &'a mut [u64; GraphTable::ROW_WORDS],
    pointers: &'a mut [u16; Link::POINTERS],
    x: u16,
    l: Link,
)
    ensures linked_after { linked.new ≡ rejoined_rows linked.old x l }
    ensures pointers_after { pointers.new ≡ rejoined_mates pointers.old x l }
{
    graph::part(linked, l.b, x);
    graph::part(linked, x, l.a);
    graph::join(linked, l.b, l.a);
    unmate_aside(pointers, Part::Before, x, l.first);
    unmate_aside(pointers, Part::After, x, l.last);
    mate(pointers, l.first, l.last);
}

// The outermost vertex, on one side of x, of the link that was split at x: the mate of x's neighbour there, which is outermost in its
// part; x itself where that neighbour is a branch vertex.
fn outer_aside(pointers: &[u16; Link::POINTERS], branch: VertexSet, part: Part, x: u16) -> u16
    ensures { result ≡ outer_aside pointers.now branch (part_start part) x }
{
    let next = pointer(pointers, part, x);
    if branch.contains(next) {
        return x;
    }
    pointer(pointers, Part::Mate, next)
}

// The link that was split at x is whole again. Which one it was is told by x's own pointers, which it keeps as a branch vertex, and by the
// mates of its neighbours.
pub fn rejoin<'a>(
    linked: &'a mut [u64; GraphTable::ROW_WORDS],
    pointers: &'a mut [u16; Link::POINTERS],
    branch: VertexSet,
    x: u16,
)
    ensures linked_after { linked.new ≡ rejoined_rows linked.old x (link_split pointers.old branch x) }
    ensures pointers_after { pointers.new ≡ rejoined_mates pointers.old x (link_split pointers.old branch x) }
{
    let first = outer_aside(pointers, branch, Part::Before, x);
    let last = outer_aside(pointers, branch, Part::After, x);
    let l = link_around(pointers, first, last);
    rejoin_link(linked, pointers, x, l);
}
