// A graph by value: rows of bits, one for each vertex; two vertices are joined or parted in them, or found adjacent.
#![tactic(auto)]

ghost use Rattle.std.specs.Prelude.{◌≡◌, ℕ};
ghost use Rattle.graph.specs.Rows.{adjacent_in, row_of, no_graph, joined_rows, changed_at, parted_rows};

use vertexset::VertexSet;

// n vertices, d pairs of adjacent ones, and for each vertex a row of bits: the vertices adjacent to it.
#[derive(Clone, Copy)]
pub struct GraphTable {
    pub n: u16,
    pub d: u16,
    pub rows: [u64; GraphTable::ROW_WORDS],
}

impl GraphTable {
    pub const MIN_VERTICES: u16 = 4;

    pub const MAX_VERTICES: u16 = 128;

    pub const MAX_EDGES: u16 = 512;

    // a row is as long as a vertex set, and there is one for each vertex that a set can hold
    pub const ROW_BITS: usize = VertexSet::CAPACITY as usize;

    pub const ROW_WORDS: usize = GraphTable::ROW_BITS * VertexSet::WORDS;

    pub fn none() -> Self
        ensures { result ≡ no_graph }
    {
        GraphTable {
            n: 0,
            d: 0,
            rows: [0u64; GraphTable::ROW_WORDS],
        }
    }
}

// Two vertices are adjacent.
pub fn adjacent(rows: &[u64; GraphTable::ROW_WORDS], u: u16, v: u16) -> bool
    ensures { result ≡ adjacent_in rows.now u v }
{
    if u < VertexSet::CAPACITY && v < VertexSet::CAPACITY {
        let i = u as usize * VertexSet::WORDS + (v / 64) as usize;
        return (rows[i] >> (v % 64)) % 2 == 1;
    }
    false
}

// The vertices adjacent to a vertex.
pub fn row(rows: &[u64; GraphTable::ROW_WORDS], u: u16) -> VertexSet
    ensures { result ≡ row_of rows.now u }
{
    let mut set = VertexSet::empty();
    if VertexSet::CAPACITY <= u {
        return set;
    }
    let first = u as usize * VertexSet::WORDS;
    // a search with copy_from_slice here took 1.6 times as long
    for i in 0..VertexSet::WORDS {
        set.words[i] = rows[first + i];
    }
    set
}

// Bit v of row u becomes what f makes of its word and of the bit alone, whichever function it is; a number past the vertices changes nothing.
fn change_bit<F: Fn(u64, u64) -> u64>(rows: &mut [u64; GraphTable::ROW_WORDS], u: u16, v: u16, f: F)
    requires { F.IsAlwaysCallable f }
    ensures { (g : ℕ → ℕ → ℕ) → ((w b r : ℕ) → F.post f w b r → r ≡ g w b) → rows.new ≡ changed_at g rows.old u v }
{
    if u < VertexSet::CAPACITY && v < VertexSet::CAPACITY {
        let i = u as usize * VertexSet::WORDS + (v / 64) as usize;
        rows[i] = f(rows[i], 1u64 << (v % 64));
    }
}

// Two vertices are joined in a table of rows; a number past the vertices joins nothing.
pub fn join(rows: &mut [u64; GraphTable::ROW_WORDS], u: u16, v: u16)
    ensures { rows.new ≡ joined_rows rows.old u v }
{
    let with = |word: u64, bit: u64| word | bit;
    change_bit(rows, u, v, with);
    change_bit(rows, v, u, with);
}

// Two vertices are parted in a table of rows; a number past the vertices parts nothing.
pub fn part(rows: &mut [u64; GraphTable::ROW_WORDS], u: u16, v: u16)
    ensures { rows.new ≡ parted_rows rows.old u v }
{
    let without = |word: u64, bit: u64| word ^ (word & bit);
    change_bit(rows, u, v, without);
    change_bit(rows, v, u, without);
}
