// Certificates of kind 2: two removed vertices, ears that take in every vertex, and a side.
#![tactic(auto)]

ghost use Rattle.std.specs.Prelude.{◌≡◌, ◌≤◌};
ghost use Rattle.vertexset.specs.Set.{has, capacity};
ghost use Rattle.graph.specs.Rows.{adjacent_in, rows_graph};
ghost use Rattle.certificates.specs.Records.{body};
ghost use Rattle.paths.specs.Items.{end_read, limited};
ghost use Rattle.ears.specs.Code.{no_ears, ear_read, ear_fault, ear_beside, all_ears};

use graph::GraphTable;
use paths::PathRead;
use record::Answer;
use vertexset::VertexSet;

// The vertices that are in, and whether there is an ear yet: two tests of the definition (ear_beside), so the flag stands beside the set.
#[derive(Clone, Copy)]
struct Ears {
    set: VertexSet,
    begun: bool,
}

// The ears with one more, and where reading goes on after it.
#[derive(Clone, Copy)]
struct EarRead {
    next: usize,
    ears: Ears,
}

impl Ears {
    fn none() -> Self
        ensures { result ≡ no_ears }
    {
        Ears {
            set: VertexSet::empty(),
            begun: false,
        }
    }

    // Document 01's number for an ear that was read whole and is out of order.
    fn fault(self, rows: &[u64; GraphTable::ROW_WORDS], p: PathRead) -> Option<u8>
        ensures { result ≡ ear_fault (adjacent_in rows.now) self p }
    {
        let along = p.along & (self.begun | graph::adjacent(rows, p.last, p.first));
        let ends = !self.begun | (self.set.contains(p.first) & self.set.contains(p.last));
        if !along {
            return Some(24);
        }
        if !ends {
            return Some(25);
        }
        if !p.new {
            return Some(26);
        }
        None
    }
}

// One ear beside those before it. Its vertices are read again where it is taken in, so that no list of them is kept.
// n within the capacity is the caller's one test, and no type of its own: see paths' `read_rest`.
fn read_ear(
    s: &[u8],
    rows: &[u64; GraphTable::ROW_WORDS],
    n: u16,
    ears: Ears,
    at: usize,
) -> Result<EarRead, Answer>
    requires { n ≤ capacity }
    ensures { result ≡ ear_read ears (ear_beside (rows_graph n rows.now) ears.begun (has ears.set.words) s.now at) }
{
    let p = paths::read_ear_path(s, rows, n, ears.set, at)?;
    if let Some(r) = ears.fault(rows, p) {
        return Err(Answer::CertificateFault(r, at));
    }
    let grown = Ears {
        set: paths::with_path(s, n, at, ears.set),
        begun: true,
    };
    Ok(EarRead {
        next: p.next,
        ears: grown,
    })
}

// As many ears as are counted, and then every vertex is in.
fn read_all_ears(
    s: &[u8],
    rows: &[u64; GraphTable::ROW_WORDS],
    n: u16,
    count: u16,
    from: usize,
) -> Result<usize, Answer>
    requires { n ≤ capacity }
    ensures { result ≡ end_read (all_ears (rows_graph n rows.now) count s.now from) }
{
    let mut ears = Ears::none();
    let mut next = from;
    for _ in 0..count {
        let x = read_ear(s, rows, n, ears, next)?;
        ears = x.ears;
        next = x.next;
    }
    if !paths::all_below(ears.set, n) {
        return Err(Answer::CertificateFault(28, next));
    }
    Ok(next)
}

// Kind 2: a removed pair, ears that take in every vertex, and a side.
pub fn read_ears(
    s: &[u8],
    rows: &[u64; GraphTable::ROW_WORDS],
    n: u16,
    at: usize,
) -> Result<usize, Answer>
    ensures { result ≡ end_read (limited n (body (rows_graph n rows.now) 2) s.now at) }
{
    if VertexSet::CAPACITY < n {
        return Err(Answer::CertificateFault(9, at));
    }
    let first = paths::read_vertex(s, n, at)?;
    let second = paths::read_vertex(s, n, first.next)?;
    if second.value <= first.value {
        return Err(Answer::CertificateFault(20, first.next));
    }
    let count = paths::read_ranged(s, 1, n - 2, second.next)?;
    let next = read_all_ears(s, rows, n, count.value, count.next)?;
    let removed = VertexSet::empty().insert(first.value).insert(second.value);
    sides::read_side(s, rows, n, removed, next)
}
