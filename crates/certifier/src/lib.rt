// The certifier (document 01: the maker): from an accepted plan and a lent buffer, a certificate that the checker accepts; and how long it is.
#![tactic(auto)]

ghost use Rattle.std.specs.Prelude.{◌≡◌, [], ◌∷◌, ◌++◌, ◌+◌, ◌*◌, ◌≤◌, length, take};
ghost use Rattle.record.specs.Number.{number_bytes, list_bytes};
ghost use Rattle.record.specs.Write.{overwritten};
ghost use Rattle.vertexset.specs.Set.{capacity};
ghost use Rattle.search.specs.Arrays.{placed, placed_end};
ghost use Rattle.construction.specs.Sets.{members};
ghost use Rattle.construction.specs.Ears.{no_cut, path_space, eared};
ghost use Rattle.construction.specs.Certificate.{lengthened, certificate_numbers};
ghost use Rattle.detours.specs.Code.{ears_of};
ghost use Rattle.certifier.specs.Code.{number_room, numbers_of, tree_in, evidence_in, cut_numbers_in, cut_certificate_in, start_certificate_in, Small};
ghost use Rattle.certifier.specs.Made.{kind_in, length_from, made_from, filled_from};

use detours::{Cut, Ears};
use graph::GraphTable;
use record::{Answer, Number};
use search::Reach;
use starting::Start;
use vertexset::VertexSet;

// The numbers of a certificate. An array with its count and no ArrayVec, since search's put_ functions fill a slice from a place on, and
// an ArrayVec lends no place behind its last number.
#[derive(Clone, Copy)]
struct Numbers {
    items: [u16; Numbers::ROOM],
    count: usize,
}

// The answer, and the length of the certificate; 0 beside a refusal. The C interface and the theorems of crate claims read this struct
// (certify, certificate_length), so it stays where a Result would say the same.
#[derive(Clone, Copy)]
pub struct Made {
    pub answer: Answer,
    pub length: usize,
}

impl Numbers {
    // a vertex takes one byte where all are below 128, else two
    const VERTEX_BYTES: usize = 1 + (Number::GROUP < VertexSet::CAPACITY) as usize;

    const ROOM: usize = Ears::ROOM + 2 * VertexSet::CAPACITY as usize + 8;

    fn as_slice(&self) -> &[u16]
        ensures { result.now ≡ take self.now.count self.now.items }
    {
        &self.items[..self.count.min(Numbers::ROOM)]
    }
}

impl Made {
    // No certificate is longer.
    pub const ROOM: usize = Numbers::VERTEX_BYTES * Ears::ROOM;
}

// Each stop becomes the length of the path behind it. That a list of paths has room comes with the array that it stands in (Ears, Start, Built), whose
// definitions have the whole array and its length.
fn lengthen(list: &mut [u16])
    requires { length list.old ≤ path_space }
    ensures { list.new ≡ (lengthened list.old).0 }
{
    let mut k: u16 = 0;
    for i in (0..list.len()).rev() {
        if list[i] == VertexSet::CAPACITY {
            list[i] = k;
            k = 0;
        } else {
            k += 1;
        }
    }
}

// The tree that a search from vertex 0 left: vertex 0, and each other vertex with the one it was reached from.
fn put_tree<'a>(
    items: &'a mut [u16; Numbers::ROOM],
    at: usize,
    space: &'a [u16; Reach::SPACE],
    count: usize,
) -> usize
    requires { (count ≤ capacity) × (at + 2 * capacity ≤ number_room) }
    ensures after { items.new ≡ placed items.old at (tree_in space.now count) }
    ensures value { result ≡ placed_end items.old at (tree_in space.now count) }
{
    items[at] = 0;
    let mut end = at + 1;
    for i in 1..count {
        items[end] = search::entry(space, 0, count, i);
        let place = search::entry(space, Reach::HALF, count, i) as usize;
        items[end + 1] = search::entry(space, 0, count, place);
        end += 2;
    }
    end
}

// What stands between the removed vertices and the side: nothing, the tree, or the ears, by the format's number of the kind.
fn put_evidence<'a>(
    rows: &'a [u64; GraphTable::ROW_WORDS],
    space: &'a mut [u16; Reach::SPACE],
    items: &'a mut [u16; Numbers::ROOM],
    at: usize,
    e: Ears,
    k: u16,
) -> usize
    requires { (e.len ≤ path_space) × (at + 1 + path_space ≤ number_room) }
    ensures after { items.new ≡ placed items.old at (evidence_in rows.now e k) }
    ensures value { result ≡ placed_end items.old at (evidence_in rows.now e k) }
{
    if k == 0 {
        return at;
    }
    if k == 1 {
        let tree = search::explore(
            rows,
            space,
            detours::single(0),
            VertexSet::empty(),
            VertexSet::empty(),
        );
        return put_tree(items, at, space, tree.count);
    }
    let mut flat = e.flat;
    let paths = &mut flat[..e.len];
    lengthen(paths);
    items[at] = e.count;
    search::put_all(items, at + 1, paths)
}

// Kinds 0 to 2.
fn cut_numbers<'a>(
    rows: &'a [u64; GraphTable::ROW_WORDS],
    space: &'a mut [u16; Reach::SPACE],
    e: Ears,
    c: Cut,
) -> Numbers
    requires { e.len ≤ path_space }
    ensures { result ≡ numbers_of (cut_numbers_in rows.now e c) }
{
    let mut items = [0u16; Numbers::ROOM];
    let removed = c.removed;
    let side = c.side;
    let k = removed.size();
    items[0] = k;
    let first = search::put_members(&mut items, 1, removed);
    let second = put_evidence(rows, space, &mut items, first, e, k);
    let third = search::put_copies(&mut items, second, 1, side.size());
    let count = search::put_members(&mut items, third, side);
    Numbers { items, count }
}

fn no_ears() -> Ears
    ensures { result ≡ ears_of (eared [] 0 no_cut) }
{
    Ears {
        flat: [0u16; Ears::ROOM],
        len: 0,
        count: 0,
        cut: Cut::none(),
    }
}

// The certificate of a cut; where two vertices are removed, ears are asked for.
fn cut_certificate<'a>(
    rows: &'a [u64; GraphTable::ROW_WORDS],
    space: &'a mut [u16; Reach::SPACE],
    full: VertexSet,
    c: Cut,
) -> Numbers
    ensures { result ≡ numbers_of (cut_certificate_in rows.now full c) }
{
    let removed = c.removed;
    if removed.size() < 2 {
        return cut_numbers(rows, space, no_ears(), c);
    }
    let e = detours::find_ears(rows, full);
    let other = e.cut;
    if other.is_cut() {
        return cut_numbers(rows, space, e, other);
    }
    cut_numbers(rows, space, e, c)
}

// Kind 3.
fn build_numbers(four: VertexSet, list: &[u16]) -> Numbers
    requires { length list.now ≤ path_space }
    ensures { result ≡ numbers_of (3 ∷ (members four ++ list.now)) }
{
    let mut items = [0u16; Numbers::ROOM];
    items[0] = 3;
    let first = search::put_members(&mut items, 1, four);
    let count = search::put_all(&mut items, first, list);
    Numbers { items, count }
}

// The certificate of a build, or of the cut that it met.
// A call of its own: inlined, its locals would lie on the stack beside those of all callers.
#[inline(never)]
fn build_certificate<'a>(
    rows: &'a [u64; GraphTable::ROW_WORDS],
    space: &'a mut [u16; Reach::SPACE],
    n: u16,
    full: VertexSet,
    s: &'a Start,
) -> Numbers
    requires { s.now.len ≤ path_space }
    ensures { result ≡ numbers_of (start_certificate_in rows.now n full s.now) }
{
    let four = s.four;
    let b = stepping::build(rows, n, full, four, &s.flat[..s.len]);
    let c = b.cut;
    if c.is_cut() {
        return cut_certificate(rows, space, full, c);
    }
    let mut flat = b.flat;
    let paths = &mut flat[..b.len];
    lengthen(paths);
    build_numbers(four, paths)
}

// THE CERTIFICATE, as its numbers. The first search and the tree share a space.
fn certificate(rows: &[u64; GraphTable::ROW_WORDS], n: u16) -> Numbers
    ensures { result ≡ numbers_of (certificate_numbers rows.now n) }
{
    let mut space = [0u16; Reach::SPACE];
    let full = VertexSet::below(n);
    let tree = search::explore(
        rows,
        &mut space,
        detours::single(0),
        VertexSet::empty(),
        VertexSet::empty(),
    );
    let shut = tree.shut;
    if !full.minus(shut).is_empty() {
        let c = Cut {
            removed: VertexSet::empty(),
            side: shut,
        };
        return cut_certificate(rows, &mut space, full, c);
    }
    match starting::begin(rows) {
        Ok(s) => build_certificate(rows, &mut space, n, full, &s),
        Err(c) => cut_certificate(rows, &mut space, full, c),
    }
}

// The kind of a graph's certificate, which is not written.
pub fn kind(rows: &[u64; GraphTable::ROW_WORDS], n: u16) -> u16
    ensures { result ≡ kind_in rows.now n }
{
    certificate(rows, n).items[0]
}

// How many bytes these numbers take. The sum has 16 bits as the numbers have, so that the compiler adds eight at once.
fn bytes_of(list: &[u16]) -> usize
    requires { length list.now ≤ number_room }
    ensures { result ≡ length (list_bytes number_bytes list.now) }
{
    let mut bytes: u16 = 0;
    for &v in list {
        bytes += record::number_length(v) as u16;
    }
    bytes as usize
}

// Numbers, one behind the other, as bytes.
fn write_numbers<'a>(out: &'a mut [u8], list: &'a [u16])
    requires list_in_bounds { length (list_bytes number_bytes list.now) ≤ length out.old }
    requires small { Small list.now }
    ensures { out.new ≡ overwritten out.old 0 (list_bytes number_bytes list.now) }
{
    let mut at = 0;
    for &v in list {
        at = record::write_number(out, at, v).unwrap();
    }
}

// THE MAKER. A refused plan has no numbers, so no buffer is too short for it: its fault comes before 30.
pub fn certify<'a>(plan: &'a [u8], out: &'a mut [u8]) -> Made
    ensures value { result ≡ made_from plan.now out.old }
    ensures out_after { out.new ≡ filled_from plan.now out.old }
{
    let mut rows = [0u64; GraphTable::ROW_WORDS];
    let head = match reading::read_plan_rows(plan, &mut rows) {
        Ok(head) => head,
        Err(answer) => return Made { answer, length: 0 },
    };
    let numbers = certificate(&rows, head.n);
    let list = numbers.as_slice();
    let length = bytes_of(list);
    if out.len() < length {
        return Made {
            answer: Answer::PlanFault(30, 0),
            length: 0,
        };
    }
    write_numbers(out, list);
    let answer = Answer::Grade(numbers.items[0] as u8);
    Made { answer, length }
}

// What certify answers where there is room: certify, lent a buffer that is always long enough.
pub fn certificate_length(plan: &[u8]) -> Made
    ensures { result ≡ length_from plan.now }
{
    let mut room = [0u8; Made::ROOM];
    certify(plan, &mut room)
}
