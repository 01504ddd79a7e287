// The steps of a build: further paths until every vertex is a branch vertex, or a cut; then the edges that no path has.
#![tactic(auto)]

ghost use Rattle.std.specs.Prelude.{◌≡◌, false, ◌+◌, ◌≤◌, ◌<◌, None, IfSome, length, position, take, drop};
ghost use Rattle.std.specs.List.{prefix_len};
ghost use Rattle.vertexset.specs.Set.{has};
ghost use Rattle.graph.specs.Limits.{max_edges};
ghost use Rattle.search.specs.Code.{path_of, path_room};
ghost use Rattle.construction.specs.Sets.{minus, set_of, members_from, place_of};
ghost use Rattle.construction.specs.Steps.{state, extended, segment, off_link, up_to, link_step, turned, pair_place, beside_place, reroute, out_step, step, steps, add_edges, finish};
ghost use Rattle.detours.specs.Code.{settled_of, Kept, FlatShows};
ghost use Rattle.stepping.specs.Code.{has_pair, put_between, put_between_end, state_in, Holds, Shows, built_in, Spans, AtWork, Works, Left};

use detours::{Cut, Ears, Found};
use graph::GraphTable;
use search::{Reach, VertexList};
use vertexset::VertexSet;

// The paths of a build, a stop before each; where a cut was met, those that were there by then: `build` promises them beside the cut, so this is no
// Result. The array is promised whole, zeros behind the paths (the definition built_of), so its length stands beside it.
#[derive(Clone, Copy)]
pub struct Built {
    pub flat: [u16; Ears::ROOM],
    pub len: usize,
    pub cut: Cut,
}

// What is kept beside the paths of a build in the construction.
#[derive(Clone, Copy)]
struct Progress {
    branch: VertexSet,
    built: VertexSet,
    // the neighbours of what is built
    near: VertexSet,
    len: usize,
    // no inner vertex stands before this place
    at: usize,
    // two fields, as the definition's State has them: a build ends at a cut, or without one once every vertex is in
    going: bool,
    cut: Cut,
}

// A link at work: the places from the first of its inner vertices up to behind the last, and the set of them.
#[derive(Clone, Copy)]
struct Work {
    first: usize,
    end: usize,
    link: VertexSet,
}

// What a step leaves.
#[derive(Clone, Copy)]
struct Stepped {
    progress: Progress,
    work: Option<Work>,
}

// (a) From the two outermost inner vertices of a link to the rest of the build, without the link's ends. Rows and space go side by side through the
// searches: a struct of the two would be taken apart again at each call of them.
fn off_link<'a>(
    rows: &'a [u64; GraphTable::ROW_WORDS],
    space: &'a mut [u16; Reach::SPACE],
    list: &'a [u16],
    built: VertexSet,
    w: Work,
) -> Found
    requires { w.link ≡ set_of (segment list.now w.first w.end) }
    ensures { result ≡ settled_of (off_link rows.now (state list.now built built 0) w.first w.end) }
{
    let ends = detours::pair(
        detours::number_at(list, w.first.saturating_sub(1)),
        detours::number_at(list, w.end),
    );
    let seeds = detours::pair(
        detours::number_at(list, w.first),
        detours::number_at(list, w.end.saturating_sub(1)),
    );
    detours::settled(detours::find(rows, space, seeds, built.minus(w.link).minus(ends), ends))
}

// The place of the first vertex in the set.
fn place_of(list: &[u16], set: VertexSet) -> Option<usize>
    ensures { result ≡ position (has set.words) list.now }
{
    list.iter().position(|v| set.contains(*v))
}

// A path up to its first vertex in the set; all where none is.
fn up_to<'a>(path: &'a [u16], set: VertexSet) -> &'a [u16]
    ensures { result.now ≡ up_to set path.now }
{
    match place_of(path, set) {
        Some(k) => &path[..=k],
        None => path,
    }
}

fn stopped(b: Progress, c: Cut) -> Progress
    ensures { result ≡ record { branch = b.branch; built = b.built; near = b.near; len = b.len; at = b.at; going = false; cut = c } }
{
    Progress {
        going: false,
        cut: c,
        ..b
    }
}

// A path is taken in; its ends are, or become, branch vertices.
// Holds ties the lent array to what is kept beside it, so a type for it would have to own both.
fn extend<'a>(
    rows: &'a [u64; GraphTable::ROW_WORDS],
    flat: &'a mut [u16],
    b: Progress,
    path: &'a [u16],
    at: usize,
) -> Progress
    requires { Holds rows.now flat.old b }
    ensures { Shows rows.now flat.new result (extended (state_in flat.old b) path.now at) }
{
    let len = detours::add_path(flat, b.len, path);
    Progress {
        branch: b
            .branch
            .insert(detours::number_at(path, 0))
            .insert(detours::last_of(path)),
        built: detours::with_all(b.built, path),
        near: detours::near_all(rows, b.near, path),
        len,
        at,
        going: true,
        cut: Cut::none(),
    }
}

// How many vertices at the front are in the set.
fn run_len(list: &[u16], set: VertexSet) -> usize
    ensures value { result ≡ prefix_len (has set.words) list.now }
    ensures bound { result ≤ length list.now }
{
    list.iter().take_while(|v| set.contains(**v)).count()
}

// The link that begins here: its inner vertices are the members of the set from here on.
fn span(list: &[u16], set: VertexSet, first: usize) -> Work
    requires { first ≤ length list.now }
    ensures { (result.first ≡ first) × Spans list.now set result }
{
    let end = first + run_len(&list[first..], set);
    Work {
        first,
        end,
        link: detours::with_all(VertexSet::empty(), &list[first..end]),
    }
}

// The link at work; where none is, the first one with inner vertices from here on, if there is one.
fn at_work(list: &[u16], inner: VertexSet, at: usize, work: Option<Work>) -> Option<Work>
    requires { AtWork list.now inner at work }
    ensures at_work { AtWork list.now inner at result }
    ensures list_len_bound { (result ≡ None) → (length list.now ≤ at + place_of (has inner.words) (drop at list.now)) }
{
    if work.is_some() {
        return work;
    }
    if inner.is_empty() {
        return None;
    }
    let k = place_of(list.get(at..)?, inner)?;
    Some(span(list, inner, at + k))
}

// What is left of the link at work when its inner vertex x becomes a branch vertex. Where x is its only one, or neither its first nor its last one,
// none is at work. Nor is one where a vertex stands twice in it, or no branch vertex behind it: a build has no such link, but that is nothing that
// the steps know.
fn work_left(list: &[u16], branch: VertexSet, w: Work, x: u16) -> Option<Work>
    requires { w.first < w.end }
    ensures { IfSome result (Left list.now branch w x) }
{
    let i = w.first;
    let j = w.end;
    if list.len() <= j || !branch.contains(list[j]) {
        return None;
    }
    if w.link.size() as usize != j - i || j == i + 1 {
        return None;
    }
    let link = w.link.minus(detours::single(x));
    if x == list[i] {
        return Some(Work {
            first: i + 1,
            end: j,
            link,
        });
    }
    if x == list[j - 1] {
        return Some(Work {
            first: i,
            end: j - 1,
            link,
        });
    }
    None
}

// A path from inside the link at work.
fn link_step<'a>(
    rows: &'a [u64; GraphTable::ROW_WORDS],
    space: &'a mut [u16; Reach::SPACE],
    flat: &'a mut [u16],
    b: Progress,
    w: Work,
) -> Stepped
    requires { Holds rows.now flat.old b × ((w.first < w.end) × Spans (take b.len flat.old) (minus b.built b.branch) w) }
    ensures shows { Shows rows.now flat.new result.progress (link_step rows.now (state_in flat.old b) w.first) }
    ensures works { Works (state_in flat.new result.progress) result.work }
{
    let list = &flat[..b.len];
    let found = match off_link(rows, space, list, b.built, w) {
        Ok(found) => found,
        Err(cut) => {
            return Stepped {
                progress: stopped(b, cut),
                work: None,
            };
        }
    };
    let path = up_to(found.as_slice(), w.link);
    let work = work_left(list, b.branch, w, detours::last_of(path));
    let progress = extend(rows, flat, b, path, w.first);
    Stepped { progress, work }
}

// Two vertices stand side by side somewhere in a list. No place ends the loop, so that the compiler takes several at once.
fn has_pair(list: &[u16], x: u16, y: u16) -> bool
    ensures { result ≡ has_pair x y list.now }
{
    let mut hit = false;
    for i in 1..list.len() {
        let a = list[i - 1];
        let b = list[i];
        hit |= ((a == x) & (b == y)) | ((a == y) & (b == x));
    }
    hit
}

// The first place from here on at which two vertices stand side by side, or the length, as the definition pair_place has it.
fn pair_from(list: &[u16], x: u16, y: u16, from: usize) -> usize
    requires { from ≤ length list.now }
    ensures { result ≡ from + pair_place x y (drop from list.now) }
{
    for i in from + 1..list.len() {
        let a = list[i - 1];
        let b = list[i];
        if ((a == x) & (b == y)) | ((a == y) & (b == x)) {
            return i - 1;
        }
    }
    list.len()
}

// The first place at which two vertices stand side by side, or the length; 32 places without them are passed over at once. A part of fewer is
// looked at place by place: with parts of any length the compiler makes slower code (1.06 times the time for a certificate of a 3-tree).
fn pair_place(list: &[u16], x: u16, y: u16) -> usize
    ensures { result ≡ pair_place x y list.now }
{
    for i in (0..list.len()).step_by(32) {
        if list.len() - i < 33 || has_pair(&list[i..i + 33], x, y) {
            return pair_from(list, x, y, i);
        }
    }
    list.len()
}

// Where two vertices stand side by side on a path, or the length, as the definition beside_place has it; only where an edge joins them can they.
fn beside<'a>(rows: &'a [u64; GraphTable::ROW_WORDS], list: &'a [u16], x: u16, y: u16) -> usize
    ensures { result ≡ beside_place rows.now x y list.now }
{
    if graph::adjacent(rows, x, y) {
        return pair_place(list, x, y);
    }
    list.len()
}

// The inner vertices of a path in the direction in which it leaves z, one of its ends.
fn turned(path: &[u16], z: u16) -> VertexList
    requires { length path.now ≤ path_room }
    ensures { result ≡ path_of (turned path.now z) }
{
    if path.len() < 2 {
        return VertexList::new();
    }
    let mut inner = VertexList::from_slice(&path[1..path.len() - 1]);
    if z != path[0] {
        inner.reverse();
    }
    inner
}

// A list is put in at a place.
fn put_between<'a>(flat: &'a mut [u16], len: usize, k: usize, new: &'a [u16]) -> usize
    requires { (k ≤ len) × (len ≤ length flat.old) }
    ensures flat_after { flat.new ≡ put_between flat.old len k new.now }
    ensures value { result ≡ put_between_end flat.old len new.now }
{
    if flat.len() - len < new.len() {
        return len;
    }
    flat.copy_within(k..len, k + new.len());
    search::put_all(flat, k, new);
    len + new.len()
}

// The inner vertices of a path are put in between its ends, which stand side by side at the place k.
fn reroute<'a>(
    rows: &'a [u64; GraphTable::ROW_WORDS],
    flat: &'a mut [u16],
    b: Progress,
    path: &'a [u16],
    k: usize,
) -> Progress
    requires { Holds rows.now flat.old b × ((k < b.len) × (length path.now ≤ path_room)) }
    ensures { Shows rows.now flat.new result (reroute (state_in flat.old b) path.now k) }
{
    let new = turned(path, flat[k]);
    let len = put_between(flat, b.len, k + 1, new.as_slice());
    Progress {
        built: detours::with_all(b.built, path),
        near: detours::near_all(rows, b.near, path),
        len,
        at: k + 1,
        going: true,
        cut: Cut::none(),
        ..b
    }
}

// (b) Out of the build and back; or every vertex is in.
fn out_step<'a>(
    rows: &'a [u64; GraphTable::ROW_WORDS],
    space: &'a mut [u16; Reach::SPACE],
    full: VertexSet,
    flat: &'a mut [u16],
    b: Progress,
) -> Progress
    requires { Holds rows.now flat.old b }
    ensures { Shows rows.now flat.new result (out_step rows.now full (state_in flat.old b)) }
{
    if full.minus(b.built).is_empty() {
        return stopped(b, Cut::none());
    }
    let found = match detours::settled(detours::detour(rows, space, b.near, b.built)) {
        Ok(found) => found,
        Err(cut) => return stopped(b, cut),
    };
    let path = found.as_slice();
    let k = beside(
        rows,
        &flat[..b.len],
        detours::last_of(path),
        detours::number_at(path, 0),
    );
    if k < b.len {
        return reroute(rows, flat, b, path, k);
    }
    extend(rows, flat, b, path, b.len)
}

// One step: (a) where an inner vertex is left, else (b).
fn step<'a>(
    rows: &'a [u64; GraphTable::ROW_WORDS],
    space: &'a mut [u16; Reach::SPACE],
    full: VertexSet,
    flat: &'a mut [u16],
    s: Stepped,
) -> Stepped
    requires { Holds rows.now flat.old s.progress × Works (state_in flat.old s.progress) s.work }
    ensures shows { Shows rows.now flat.new result.progress (step rows.now full (state_in flat.old s.progress)) }
    ensures works { Works (state_in flat.new result.progress) result.work }
{
    let b = s.progress;
    match at_work(&flat[..b.len], b.built.minus(b.branch), b.at, s.work) {
        Some(w) => link_step(rows, space, flat, b, w),
        None => Stepped {
            progress: out_step(rows, space, full, flat, b),
            work: None,
        },
    }
}

// Steps until none is left.
fn all_steps<'a>(
    rows: &'a [u64; GraphTable::ROW_WORDS],
    space: &'a mut [u16; Reach::SPACE],
    full: VertexSet,
    flat: &'a mut [u16],
    first: Progress,
) -> Progress
    requires { Holds rows.now flat.old first }
    ensures { Shows rows.now flat.new result (steps rows.now full (max_edges + 1) (state_in flat.old first)) }
{
    let mut s = Stepped {
        progress: first,
        work: None,
    };
    for _ in 0..=GraphTable::MAX_EDGES {
        if !s.progress.going {
            return s.progress;
        }
        s = step(rows, space, full, flat, s);
    }
    s.progress
}

// (c) The edges from u to the members of a set above it, each as a path. The walk takes one step for each member and word, and stays a walk.
fn add_edges(flat: &mut [u16], from: usize, u: u16, set: VertexSet) -> usize
    requires { Kept flat.old from × (u + 1 < 65536) }
    ensures { FlatShows flat.new result (add_edges u (members_from (u + 1) set) (take from flat.old)) }
{
    let mut len = from;
    let mut edge = [u, 0];
    let mut walk = set.walk_from(u + 1);
    while walk.going() {
        let here = walk;
        walk = here.step(set);
        if here.meets() {
            edge[1] = here.member();
            len = detours::add_path(flat, len, &edge);
        }
    }
    len
}

// The edges that no path has.
fn finish<'a>(
    rows: &'a [u64; GraphTable::ROW_WORDS],
    n: u16,
    flat: &'a mut [u16],
    from: usize,
) -> usize
    requires { Kept flat.old from }
    ensures { FlatShows flat.new result (finish rows.now n (take from flat.old)) }
{
    let mut table = [0u64; GraphTable::ROW_WORDS];
    detours::mark(&mut table, &flat[..from]);
    let mut len = from;
    for u in 0..n {
        let left = graph::row(rows, u).minus(graph::row(&table, u));
        len = add_edges(flat, len, u, left);
    }
    len
}

// THE BUILD on a start's branch vertices and paths: steps, and then the edges that no path has. Paths that have no room are none.
// A call of its own: inlined, its locals would lie on the stack beside those of all callers.
#[inline(never)]
pub fn build<'a>(
    rows: &'a [u64; GraphTable::ROW_WORDS],
    n: u16,
    full: VertexSet,
    four: VertexSet,
    list: &'a [u16],
) -> Built
    ensures { result ≡ built_in rows.now n full four list.now }
{
    let mut flat = [0u16; Ears::ROOM];
    let len = search::put_all(&mut flat, 0, list);
    let first = Progress {
        branch: four,
        built: detours::with_all(VertexSet::empty(), &flat[..len]),
        near: detours::near_all(rows, VertexSet::empty(), &flat[..len]),
        len,
        at: 0,
        going: true,
        cut: Cut::none(),
    };
    let mut space = [0u16; Reach::SPACE];
    let b = all_steps(rows, &mut space, full, &mut flat, first);
    let cut = b.cut;
    let len = if cut.is_cut() {
        b.len
    } else {
        finish(rows, n, &mut flat, b.len)
    };
    Built { flat, len, cut }
}
