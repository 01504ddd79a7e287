// Builds for grade 3: what reading and taking a path does, taking it back, the start, and a certificate of kind 3.
#![tactic(auto)]

ghost use Rattle.std.specs.Prelude.{◌≡◌, suc, ◌≤◌, ◌<◌, leb, length};
ghost use Rattle.record.specs.Read.{◌needs⟨◌⟩◌, led, folded};
ghost use Rattle.record.specs.Loop.{runs};
ghost use Rattle.vertexset.specs.Set.{inserted, capacity};
ghost use Rattle.connectivity.specs.Build.{further_count};
ghost use Rattle.certificates.specs.Records.{vertex, path, branch_four};
ghost use Rattle.paths.specs.Items.{told, item_read, end_read, limited};
ghost use Rattle.paths.specs.Paths.{vertices_at};
ghost use Rattle.graph.specs.Rows.{rows_graph};
ghost use Rattle.links.specs.Tables.{point_along, mated_ends};
ghost use Rattle.build.specs.State.{entered, raised_at, path_taken, no_trace, unwound, lowered, taken_back, bare_build, four_set, start_on, start_entered, start_of, start_in, started, build_body};
ghost use Rattle.build.specs.Code.{path_fault, build_in, PathAt, ToldAt, inner_at, before_at, traced, on_path_read, start_path_read, further_read, four_read, four_of, no_start, answered, sets_left, start_left, start_loop, further_loop};

use graph::GraphTable;
use links::{End, Ends, Link};
use paths::{Item, PathRead};
use record::Answer;
use vertexset::VertexSet;

// The record, the graph's rows with n, and the two tables of a build are passed one by one: they are fields of what the callers have (a session, the
// tables of a whole certificate), and a struct of references to them would be made at each call and taken apart in each body.

// The branch vertices of a build, and all vertices that are in.
#[derive(Clone, Copy)]
pub struct Sets {
    pub branch: VertexSet,
    pub built: VertexSet,
}

// A build: its vertices, the way along its links, and which branch vertices a link joins.
#[derive(Clone, Copy)]
pub struct Build {
    pub sets: Sets,
    pub pointers: [u16; Link::POINTERS],
    pub linked: [u64; GraphTable::ROW_WORDS],
}

// What is handed on of a part that was read and taken in: the place after it, and the sets of the build then.
#[derive(Clone, Copy)]
pub struct Taken {
    pub next: usize,
    pub sets: Sets,
}

// Why a start is refused, and the sets of what had entered the tables before the fault: it stays in them.
#[derive(Clone, Copy)]
pub struct Untaken {
    pub answer: Answer,
    pub sets: Sets,
}

// What taking a path in did to a build: the path's two ends, the vertex before the last one on it, and which of its ends it raised,
// where it split a link.
#[derive(Clone, Copy)]
pub struct Trace {
    pub first: u16,
    pub last: u16,
    pub before: u16,
    pub from: bool,
    pub upto: bool,
}

// What `Taken` has, and the trace that the path leaves.
#[derive(Clone, Copy)]
pub struct Traced {
    pub taken: Taken,
    pub trace: Trace,
}

// The sets of a build that a path entered, and the vertex before the last one on it.
#[derive(Clone, Copy)]
struct Entered {
    sets: Sets,
    before: u16,
}

// The four branch vertices of a start, ascending, and the place after them.
#[derive(Clone, Copy)]
struct Four {
    next: usize,
    p: u16,
    q: u16,
    r: u16,
    s: u16,
}

// Document 01's number for what is wrong with a path that was read whole.
fn path_fault(along: bool, ends: bool, new: bool, apart: bool) -> Option<u8>
    ensures { result ≡ path_fault along ends new apart }
{
    if !along {
        return Some(24);
    }
    if !ends {
        return Some(25);
    }
    if !new {
        return Some(26);
    }
    if !apart {
        return Some(27);
    }
    None
}

// The inner vertices of the path that was read at a place, of which there are some, are in, and point to their neighbours on it, the outermost
// to each other. They are read again, so that no list of them is kept; what was read before can be read.
fn take_inner<'a>(
    s: &'a [u8],
    n: u16,
    at: usize,
    sets: Sets,
    pointers: &'a mut [u16; Link::POINTERS],
) -> Entered
    requires path_at { PathAt n s.now at }
    requires nonzero { 0 < length (inner_at n s.now at) }
    ensures sets_value { result.sets ≡ record { branch = sets.branch; built = folded inserted sets.built (inner_at n s.now at) } }
    ensures before_value { result.before ≡ before_at n s.now at }
    ensures pointers_after { pointers.new ≡ mated_ends (point_along pointers.old (vertices_at n s.now at)) (inner_at n s.now at) }
{
    let Ok(x) = paths::read_ranged(s, 2, n, at) else {
        unreachable!()
    };
    let Ok(a) = paths::read_vertex(s, n, x.next) else {
        unreachable!()
    };
    let Ok(b) = paths::read_vertex(s, n, a.next) else {
        unreachable!()
    };
    let mut words = sets.built.words;
    let mut u = a.value;
    let mut v = b;
    for _ in 2..x.value {
        let Ok(w) = paths::read_vertex(s, n, v.next) else {
            unreachable!()
        };
        words[(v.value / 64) as usize] |= 1u64 << (v.value % 64);
        links::point_between(pointers, u, v.value, w.value);
        u = v.value;
        v = w;
    }
    links::mate(pointers, b.value, u);
    let branch = sets.branch;
    let built = VertexSet { words };
    Entered {
        sets: Sets { branch, built },
        before: u,
    }
}

// A path that was read at a place enters the build as a link.
fn enter<'a>(
    s: &'a [u8],
    n: u16,
    at: usize,
    x: PathRead,
    sets: Sets,
    pointers: &'a mut [u16; Link::POINTERS],
    linked: &'a mut [u64; GraphTable::ROW_WORDS],
) -> Entered
    requires { ToldAt n s.now at x }
    ensures build_after { build_in result.sets pointers.new linked.new
        ≡ on_path_read entered (build_in sets pointers.old linked.old) (path n 2 s.now at) }
    ensures before_value { result.before ≡ before_at n s.now at }
{
    graph::join(linked, x.first, x.last);
    if x.len < 3 {
        return Entered {
            sets,
            before: x.first,
        };
    }
    take_inner(s, n, at, sets, pointers)
}

// A path of the start between two ends, read, tested and taken in; nothing changes where it is refused.
fn take_start_path<'a>(
    s: &'a [u8],
    rows: &'a [u64; GraphTable::ROW_WORDS],
    n: u16,
    ends: (u16, u16),
    so_far: Taken,
    pointers: &'a mut [u16; Link::POINTERS],
    linked: &'a mut [u64; GraphTable::ROW_WORDS],
) -> Result<Taken, Answer>
    ensures value { result ≡ told (λ P next. record { next = next; sets = (entered (build_in so_far.sets pointers.old linked.old) P).sets })
        (start_path_read n rows.now ends (build_in so_far.sets pointers.old linked.old) s.now so_far.next) }
    ensures pointers_after { pointers.new ≡ (on_path_read entered (build_in so_far.sets pointers.old linked.old)
        (start_path_read n rows.now ends (build_in so_far.sets pointers.old linked.old) s.now so_far.next)).pointers }
    ensures linked_after { linked.new ≡ (on_path_read entered (build_in so_far.sets pointers.old linked.old)
        (start_path_read n rows.now ends (build_in so_far.sets pointers.old linked.old) s.now so_far.next)).linked }
{
    let at = so_far.next;
    let sets = so_far.sets;
    let x = paths::read_link_path(s, rows, n, sets.built, at)?;
    if let Some(r) = path_fault(x.along, (x.first, x.last) == ends, x.new, true) {
        return Err(Answer::CertificateFault(r, at));
    }
    let e = enter(s, n, at, x, sets, pointers, linked);
    Ok(Taken {
        next: x.next,
        sets: e.sets,
    })
}

// An inner vertex at which a path ends becomes a branch vertex.
fn raise(branch: VertexSet, end: End) -> VertexSet
    ensures { result ≡ raised_at branch end }
{
    match end {
        End::Branch(_) => branch,
        End::Inner(v, _) => branch.insert(v),
    }
}

impl Trace {
    // No path.
    pub fn none() -> Self
        ensures { result ≡ no_trace }
    {
        Trace {
            first: 0,
            last: 0,
            before: 0,
            from: false,
            upto: false,
        }
    }
}

// A further path, read, tested and taken in, with the trace by which it can be taken back; nothing changes where it is refused. The two tables are
// lent one beside the other: a session lends those of its build, and read_build its own, and a struct of both would have to be made for each call.
pub fn take_path<'a>(
    s: &'a [u8],
    rows: &'a [u64; GraphTable::ROW_WORDS],
    n: u16,
    at: usize,
    sets: Sets,
    pointers: &'a mut [u16; Link::POINTERS],
    linked: &'a mut [u64; GraphTable::ROW_WORDS],
) -> Result<Traced, Answer>
    ensures value { result ≡ told (traced (build_in sets pointers.old linked.old)) (further_read n rows.now (build_in sets pointers.old linked.old) s.now at) }
    ensures pointers_after { pointers.new ≡ (on_path_read path_taken (build_in sets pointers.old linked.old)
        (further_read n rows.now (build_in sets pointers.old linked.old) s.now at)).pointers }
    ensures linked_after { linked.new ≡ (on_path_read path_taken (build_in sets pointers.old linked.old)
        (further_read n rows.now (build_in sets pointers.old linked.old) s.now at)).linked }
{
    let branch = sets.branch;
    let built = sets.built;
    let x = paths::read_link_path(s, rows, n, built, at)?;
    let first = links::end_of(pointers, branch, x.first);
    let last = links::end_of(pointers, branch, x.last);
    let ends = Ends { first, last };
    let a = ends.addition(linked);
    let both = built.contains(x.first) & built.contains(x.last);
    if let Some(r) = path_fault(x.along, both, x.new, !a.is_held()) {
        return Err(Answer::CertificateFault(r, at));
    }
    links::split_by(linked, pointers, a);
    let raised = Sets {
        branch: raise(raise(branch, first), last),
        built,
    };
    let e = enter(s, n, at, x, raised, pointers, linked);
    let taken = Taken {
        next: x.next,
        sets: e.sets,
    };
    let trace = Trace {
        first: x.first,
        last: x.last,
        before: e.before,
        from: first.is_inner(),
        upto: last.is_inner(),
    };
    Ok(Traced { taken, trace })
}

// The inner vertices of a path are no longer in, from v back to its first end.
fn unwind<'a>(
    pointers: &'a mut [u16; Link::POINTERS],
    built: VertexSet,
    first: u16,
    v: u16,
) -> VertexSet
    ensures value { result ≡ (unwound capacity first v built pointers.old).0 }
    ensures pointers_after { pointers.new ≡ (unwound capacity first v built pointers.old).1 }
{
    let mut set = built;
    let mut u = v;
    for _ in 0..VertexSet::CAPACITY {
        if u == first {
            return set;
        }
        let before = links::clear(pointers, u);
        set = set.remove(u);
        u = before;
    }
    set
}

// An end that a path raised is a branch vertex no more, and the link that it split there is whole again.
fn lower<'a>(
    sets: Sets,
    pointers: &'a mut [u16; Link::POINTERS],
    linked: &'a mut [u64; GraphTable::ROW_WORDS],
    v: u16,
    raised: bool,
) -> Sets
    ensures { build_in result pointers.new linked.new ≡ lowered (build_in sets pointers.old linked.old) v raised }
{
    if !raised {
        return sets;
    }
    let branch = sets.branch;
    let built = sets.built;
    links::rejoin(linked, pointers, branch, v);
    Sets {
        branch: branch.remove(v),
        built,
    }
}

// The path that was taken in last, which left this trace, is taken back: in each table what was done last goes first.
pub fn take_back<'a>(
    sets: Sets,
    pointers: &'a mut [u16; Link::POINTERS],
    linked: &'a mut [u64; GraphTable::ROW_WORDS],
    t: Trace,
) -> Sets
    ensures { build_in result pointers.new linked.new ≡ taken_back (build_in sets pointers.old linked.old) t }
{
    graph::part(linked, t.last, t.first);
    let branch = sets.branch;
    let built = unwind(pointers, sets.built, t.first, t.before);
    let left = Sets { branch, built };
    let once = lower(left, pointers, linked, t.last, t.upto);
    lower(once, pointers, linked, t.first, t.from)
}

// A vertex above the one before it.
fn read_above(s: &[u8], n: u16, before: u16, at: usize) -> Result<Item, Answer>
    ensures { result ≡ item_read ((vertex n needs⟨ 20 ⟩ leb (suc before)) s.now at) }
{
    let x = paths::read_vertex(s, n, at)?;
    if x.value <= before {
        return Err(Answer::CertificateFault(20, at));
    }
    Ok(x)
}

impl Four {
    fn as_set(self) -> VertexSet
        ensures { result ≡ four_set (four_of self) }
    {
        VertexSet::empty()
            .insert(self.p)
            .insert(self.q)
            .insert(self.r)
            .insert(self.s)
    }
}

fn read_four(s: &[u8], n: u16, at: usize) -> Result<Four, Answer>
    ensures { result ≡ told four_read (branch_four n s.now at) }
{
    let p = paths::read_vertex(s, n, at)?;
    let q = read_above(s, n, p.value, p.next)?;
    let r = read_above(s, n, q.value, q.next)?;
    let last = read_above(s, n, r.value, r.next)?;
    Ok(Four {
        next: last.next,
        p: p.value,
        q: q.value,
        r: r.value,
        s: last.value,
    })
}

impl Build {
    // The four branch vertices and no links.
    pub fn bare(set: VertexSet) -> Self
        ensures { result ≡ bare_build set }
    {
        let sets = Sets {
            branch: set,
            built: set,
        };
        Build {
            sets,
            pointers: [0u16; Link::POINTERS],
            linked: [0u64; GraphTable::ROW_WORDS],
        }
    }
}

// A start that is refused before its paths are read: nothing entered.
fn no_start(answer: Answer) -> Untaken
    ensures { result ≡ no_start answer }
{
    let set = VertexSet::empty();
    let sets = Sets {
        branch: set,
        built: set,
    };
    Untaken { answer, sets }
}

// The six paths between the four.
// n within the capacity is the caller's one test, and no type of its own: see paths' `read_rest`.
fn read_six<'a>(
    s: &'a [u8],
    rows: &'a [u64; GraphTable::ROW_WORDS],
    n: u16,
    four: Four,
    pointers: &'a mut [u16; Link::POINTERS],
    linked: &'a mut [u64; GraphTable::ROW_WORDS],
) -> Result<Taken, Untaken>
    requires { n ≤ capacity }
    ensures value { answered result ≡ runs (start_loop n rows.now) 6 (start_of pointers.old linked.old (four_of four)) (start_of pointers.old linked.old (four_of four)) s.now four.next }
    ensures pointers_after { pointers.new
        ≡ (led (start_on (rows_graph n rows.now)) start_entered 6 (start_of pointers.old linked.old (four_of four)) s.now four.next).build.pointers }
    ensures linked_after { linked.new
        ≡ (led (start_on (rows_graph n rows.now)) start_entered 6 (start_of pointers.old linked.old (four_of four)) s.now four.next).build.linked }
    ensures build_after { build_in (sets_left result) pointers.new linked.new
        ≡ (led (start_on (rows_graph n rows.now)) start_entered 6 (start_of pointers.old linked.old (four_of four)) s.now four.next).build }
{
    let set = four.as_set();
    let sets = Sets {
        branch: set,
        built: set,
    };
    let pairs = [
        (four.p, four.q),
        (four.p, four.r),
        (four.p, four.s),
        (four.q, four.r),
        (four.q, four.s),
        (four.r, four.s),
    ];
    let mut so_far = Taken {
        next: four.next,
        sets,
    };
    for ends in pairs {
        so_far = match take_start_path(s, rows, n, ends, so_far, pointers, linked) {
            Ok(x) => x,
            Err(answer) => {
                return Err(Untaken {
                    answer,
                    sets: so_far.sets,
                });
            },
        };
    }
    Ok(so_far)
}

// Four ascending branch vertices and the six paths between them, which enter the tables as they come: those before a fault stay, and their sets are
// told with it.
pub fn read_start<'a>(
    s: &'a [u8],
    rows: &'a [u64; GraphTable::ROW_WORDS],
    n: u16,
    at: usize,
    pointers: &'a mut [u16; Link::POINTERS],
    linked: &'a mut [u64; GraphTable::ROW_WORDS],
) -> Result<Taken, Untaken>
    ensures value { answered result ≡ told (λ x next. record { next = next; sets = (started pointers.old linked.old x).sets })
        (limited n (start_in pointers.old linked.old (rows_graph n rows.now)) s.now at) }
    ensures pointers_after { pointers.new ≡ (start_left pointers.old linked.old (rows_graph n rows.now) s.now at).pointers }
    ensures linked_after { linked.new ≡ (start_left pointers.old linked.old (rows_graph n rows.now) s.now at).linked }
    ensures build_after { build_in (sets_left result) pointers.new linked.new
        ≡ start_left pointers.old linked.old (rows_graph n rows.now) s.now at }
{
    if VertexSet::CAPACITY < n {
        return Err(no_start(Answer::CertificateFault(9, at)));
    }
    let four = match read_four(s, n, at) {
        Ok(four) => four,
        Err(answer) => return Err(no_start(answer)),
    };
    read_six(s, rows, n, four, pointers, linked)
}

// The further paths, and 28 where a vertex is then no branch vertex.
fn read_further<'a>(
    s: &'a [u8],
    rows: &'a [u64; GraphTable::ROW_WORDS],
    n: u16,
    count: u16,
    start: Taken,
    pointers: &'a mut [u16; Link::POINTERS],
    linked: &'a mut [u64; GraphTable::ROW_WORDS],
) -> Result<usize, Answer>
    requires { n ≤ capacity }
    ensures { result ≡ runs (further_loop n rows.now) count (build_in start.sets pointers.old linked.old)
        (build_in start.sets pointers.old linked.old) s.now start.next }
{
    let mut so_far = start;
    for _ in 0..count {
        let x = take_path(s, rows, n, so_far.next, so_far.sets, pointers, linked)?;
        so_far = x.taken;
    }
    let sets = so_far.sets;
    if !paths::all_below(sets.branch, n) {
        return Err(Answer::CertificateFault(28, so_far.next));
    }
    Ok(so_far.next)
}

// A certificate of kind 3 after its kind: the place after it, or its fault. The tables of the build are made once.
pub fn read_build<'a>(
    s: &'a [u8],
    rows: &'a [u64; GraphTable::ROW_WORDS],
    n: u16,
    count: u16,
    at: usize,
) -> Result<usize, Answer>
    ensures { result ≡ end_read (limited n (build_body (rows_graph n rows.now) count) s.now at) }
{
    let mut pointers = [0u16; Link::POINTERS];
    let mut linked = [0u64; GraphTable::ROW_WORDS];
    let start = match read_start(s, rows, n, at, &mut pointers, &mut linked) {
        Ok(x) => x,
        Err(x) => return Err(x.answer),
    };
    read_further(s, rows, n, count, start, &mut pointers, &mut linked)
}

// How many paths come after the start, beside n vertices, d pairs of them adjacent.
pub fn further_count(d: u16, n: u16) -> u16
    ensures { result ≡ further_count d n }
{
    d.saturating_sub(n).saturating_sub(2)
}
