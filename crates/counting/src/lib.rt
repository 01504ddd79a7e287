// How rare each grade is (request 5 of document 02): every plan of four, five or six vertices is drawn and graded, and the grades are counted.
#![tactic(auto)]

ghost use Rattle.std.specs.Prelude.{◌≡◌, [], ◌≤◌, ◌<◌, length, get_or};
ghost use Rattle.counting.specs.Counts.{pairs_of, sets_of, plan_with, connectivity_of, min_size, max_size, count_of, counts_of};

use graph::GraphTable;

// How many plans of a size have grade 0, 1, 2 and 3: a place for each grade, so the array has no length beside it.
#[derive(Clone, Copy)]
pub struct Counts {
    pub of: [u16; Counts::GRADES],
}

impl Counts {
    pub const GRADES: usize = 4;

    pub const MIN_SIZE: u64 = 4;

    pub const MAX_SIZE: u64 = 6;
}

// How many sets of pairs there are.
fn set_count(n: u16) -> u16
    requires { (min_size ≤ n) × (n ≤ max_size) }
    ensures { result ≡ length (sets_of (pairs_of n)) }
{
    1u16 << (n * (n - 1) / 2)
}

// The connectivity of the plan with this number, by the certifier's own decision. The sets without the next pair are the first half of those that are left, in
// the order of sets_of.
fn connectivity_of(n: u16, number: u16) -> u16
    requires { (min_size ≤ n) × (n ≤ max_size) × (number < length (sets_of (pairs_of n))) }
    ensures { result ≡ connectivity_of (plan_with n (get_or (sets_of (pairs_of n)) number [])) }
{
    let mut rows = [0u64; GraphTable::ROW_WORDS];
    let mut sets = set_count(n);
    let mut rest = number;
    for u in 0..n {
        for v in u + 1..n {
            sets /= 2;
            if rest < sets {
                continue;
            }
            rest -= sets;
            graph::join(&mut rows, u, v);
        }
    }
    certifier::kind(&rows, n)
}

// The counts of a size: each plan counts for its connectivity. Every size but four, five and six has counts of 0.
pub fn count_all(size: u64) -> Counts
    ensures { result ≡ counts_of size }
{
    let mut of = [0u16; Counts::GRADES];
    if size < Counts::MIN_SIZE || Counts::MAX_SIZE < size {
        return Counts { of };
    }
    let n = size as u16;
    for number in 0..set_count(n) {
        of[connectivity_of(n, number) as usize] += 1;
    }
    Counts { of }
}

// The count of one grade; no grade is above 3.
pub fn count(size: u64, grade: u64) -> u64
    ensures { result ≡ count_of size grade }
{
    if (Counts::GRADES as u64) <= grade {
        return 0;
    }
    count_all(size).of[grade as usize] as u64
}
