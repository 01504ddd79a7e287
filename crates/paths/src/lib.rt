// Vertices and paths of a certificate, read and tested.
#![tactic(auto)]

ghost use Rattle.std.specs.Prelude.{◌≡◌, ◌-◌, ◌<◌, ◌≤◌};
ghost use Rattle.record.specs.Number.{number};
ghost use Rattle.record.specs.Read.{◌needs⟨◌⟩◌, within, folded};
ghost use Rattle.record.specs.Loop.{runs};
ghost use Rattle.vertexset.specs.Set.{has, inserted, capacity};
ghost use Rattle.graph.specs.Rows.{adjacent_in};
ghost use Rattle.certificates.specs.Tests.{all_below};
ghost use Rattle.certificates.specs.Records.{vertex, path};
ghost use Rattle.paths.specs.Items.{taken, refused, item_read, limited};
ghost use Rattle.paths.specs.Paths.{path_read, vertices_at};
ghost use Rattle.paths.specs.Code.{path_loop, path_begun};

use graph::GraphTable;
use record::{Answer, Number};
use vertexset::VertexSet;

// A number of a certificate that was read and tested, and the place after it.
#[derive(Clone, Copy)]
pub struct Item {
    pub value: u16,
    pub next: usize,
}

impl Item {
    // What a reader answers that has a number, and one that refuses it.
    pub fn taken(value: u16, next: usize) -> Result<Self, Answer>
        ensures { result ≡ taken value next }
    {
        Ok(Item { value, next })
    }

    pub fn refused(number: u8, place: usize) -> Result<Self, Answer>
        ensures { result ≡ refused number place }
    {
        Err(Answer::CertificateFault(number, place))
    }
}

// A path that was read: where reading goes on, its two ends, whether its neighbours are adjacent, whether no vertex is twice on it
// and all inner ones are new, and how many vertices it has.
#[derive(Clone, Copy)]
pub struct PathRead {
    pub next: usize,
    pub first: u16,
    pub last: u16,
    pub along: bool,
    pub new: bool,
    pub len: u16,
}

fn read_item(s: &[u8], at: usize) -> Result<Item, Answer>
    ensures { result ≡ item_read (number s.now at) }
{
    let x = record::read_number(s, at);
    let Number::Value(value, next) = x else {
        return Item::refused(record::fault_number(x), record::fault_place(x));
    };
    Item::taken(value, next)
}

// A number from least to most, refused 9 otherwise.
pub fn read_ranged(s: &[u8], least: u16, most: u16, at: usize) -> Result<Item, Answer>
    ensures { result ≡ item_read ((number needs⟨ 9 ⟩ within least most) s.now at) }
{
    let x = read_item(s, at)?;
    if x.value < least || most < x.value {
        return Item::refused(9, at);
    }
    Ok(x)
}

// A vertex below n, refused 9 otherwise.
pub fn read_vertex(s: &[u8], n: u16, at: usize) -> Result<Item, Answer>
    ensures { result ≡ item_read (vertex n s.now at) }
{
    let x = read_item(s, at)?;
    if n <= x.value {
        return Item::refused(9, at);
    }
    Ok(x)
}

// The vertices of a path after its first. The words of their set are changed in place, so that no set is copied for a vertex.
// n within the capacity is what the caller tests in one line; a type for it would be no plainer, since each definition speaks of the number n.
// Record, rows, n and place go side by side through the readers of a certificate: the definitions take them one by one, and the place alone moves.
fn read_rest(
    s: &[u8],
    rows: &[u64; GraphTable::ROW_WORDS],
    n: u16,
    old: VertexSet,
    len: u16,
    first: u16,
    from: usize,
) -> Result<PathRead, Answer>
    requires { (0 < len) × (n ≤ capacity) }
    ensures { result ≡ runs (path_loop (adjacent_in rows.now) (has old.words) n first len) (len - 1) tt (path_begun first len) s.now from }
{
    let begun = VertexSet::empty().insert(first);
    let mut words = begun.words;
    let mut along = true;
    let mut new = true;
    let mut last = first;
    let mut next = from;
    for i in 1..len {
        let x = read_vertex(s, n, next)?;
        let v = x.value;
        let word = (v / 64) as usize;
        let w = words[word];
        along = along & graph::adjacent(rows, last, v);
        new = new & ((w >> (v % 64)) % 2 == 0) & ((i + 1 == len) | !old.contains(v));
        words[word] = w | (1u64 << (v % 64));
        last = v;
        next = x.next;
    }
    Ok(PathRead {
        next,
        first,
        last,
        along,
        new,
        len,
    })
}

// A path of at least as many vertices. The two public readers below keep their names, each with its own least number.
fn read_path(
    s: &[u8],
    rows: &[u64; GraphTable::ROW_WORDS],
    n: u16,
    old: VertexSet,
    least: u16,
    at: usize,
) -> Result<PathRead, Answer>
    requires { 2 ≤ least }
    ensures { result ≡ path_read (adjacent_in rows.now) (has old.words) (limited n (path n least) s.now at) }
{
    if VertexSet::CAPACITY < n {
        return Err(Answer::CertificateFault(9, at));
    }
    let x = read_ranged(s, least, n, at)?;
    let y = read_vertex(s, n, x.next)?;
    read_rest(s, rows, n, old, x.value, y.value, y.next)
}

// Every vertex below n is in the set.
pub fn all_below(set: VertexSet, n: u16) -> bool
    ensures { result ≡ all_below n (has set.words) }
{
    if VertexSet::CAPACITY < n {
        return false;
    }
    VertexSet::below(n).subset(set)
}

// A path that may be a link: two vertices or more.
pub fn read_link_path(
    s: &[u8],
    rows: &[u64; GraphTable::ROW_WORDS],
    n: u16,
    old: VertexSet,
    at: usize,
) -> Result<PathRead, Answer>
    ensures { result ≡ path_read (adjacent_in rows.now) (has old.words) (limited n (path n 2) s.now at) }
{
    read_path(s, rows, n, old, 2, at)
}

// A path that may be an ear: three vertices or more.
pub fn read_ear_path(
    s: &[u8],
    rows: &[u64; GraphTable::ROW_WORDS],
    n: u16,
    old: VertexSet,
    at: usize,
) -> Result<PathRead, Answer>
    ensures { result ≡ path_read (adjacent_in rows.now) (has old.words) (limited n (path n 3) s.now at) }
{
    read_path(s, rows, n, old, 3, at)
}

// A set with the vertices of the path that stands at a place; the set as it was where none can be read there. The path is read
// again rather than kept.
pub fn with_path(s: &[u8], n: u16, at: usize, set: VertexSet) -> VertexSet
    ensures { result ≡ folded inserted set (vertices_at n s.now at) }
{
    let Ok(x) = read_ranged(s, 2, n, at) else {
        return set;
    };
    let mut words = set.words;
    let mut next = x.next;
    for _ in 0..x.value {
        let Ok(y) = read_vertex(s, n, next) else {
            return set;
        };
        let v = y.value;
        next = y.next;
        if v < VertexSet::CAPACITY {
            words[(v / 64) as usize] |= 1u64 << (v % 64);
        }
    }
    VertexSet { words }
}
