// The checker: a plan record and a certificate record in, an answer out.
#![tactic(auto)]

ghost use Rattle.std.specs.Prelude.{◌≡◌, ◌≤◌, ◌+◌, ◌||◌, ltb, leb};
ghost use Rattle.vertexset.specs.Set.{capacity};
ghost use Rattle.graph.specs.Rows.{rows_graph};
ghost use Rattle.checker.specs.Check.{check_of, grade_of};
ghost use Rattle.checker.specs.Code.{body_end, rows_answer};

use graph::GraphTable;
use record::{Answer, Number};

// The answer to a plan with a certificate behind it, and the plan's numbers of vertices and edges. These two stand beside a certificate's
// fault too, so this is no Result; where the plan is at fault they are 0, as `grade` promises.
#[derive(Clone, Copy)]
pub struct Graded {
    pub answer: Answer,
    pub n: u16,
    pub m: u16,
}

// Kind 3 asks for at least n + 2 pairs of adjacent vertices.
// n within the capacity comes from the plan that was read, and is no type of its own: see paths' `read_rest`.
fn enough(n: u16, d: u16, k: u16) -> bool
    requires { n ≤ capacity }
    ensures { result ≡ (ltb k 3 || leb (n + 2) d) }
{
    k < 3 || n + 2 <= d
}

// The body of a certificate of kind k, the format's number, after the kind.
fn read_body(
    s: &[u8],
    rows: &[u64; GraphTable::ROW_WORDS],
    n: u16,
    d: u16,
    k: u16,
    at: usize,
) -> Result<usize, Answer>
    requires { n ≤ capacity }
    ensures { result ≡ body_end (rows_graph n rows.now) d k s.now at }
{
    match k {
        0 => sides::read_separation(s, rows, n, at),
        1 => sides::read_tree(s, rows, n, at),
        2 => ears::read_ears(s, rows, n, at),
        _ => build::read_build(s, rows, n, build::further_count(d, n), at),
    }
}

// A whole certificate beside a graph of n vertices, d pairs of them adjacent.
fn check_certificate(s: &[u8], rows: &[u64; GraphTable::ROW_WORDS], n: u16, d: u16) -> Answer
    requires { n ≤ capacity }
    ensures { result ≡ rows_answer (rows_graph n rows.now) d s.now }
{
    let x = record::read_number(s, 0);
    let Number::Value(k, at) = x else {
        return x.certificate_fault();
    };
    if 3 < k {
        return Answer::CertificateFault(8, 0);
    }
    if !enough(n, d, k) {
        return Answer::CertificateFault(29, 0);
    }
    match read_body(s, rows, n, d, k, at) {
        Ok(next) => {
            if next < s.len() {
                return Answer::CertificateFault(7, next);
            }
            Answer::Grade(k as u8)
        }
        Err(fault) => fault,
    }
}

// The rows of the plan's graph are made once, and lent.
pub fn check(plan: &[u8], certificate: &[u8]) -> Answer
    ensures { result ≡ check_of plan.now certificate.now }
{
    let mut rows = [0u64; GraphTable::ROW_WORDS];
    match reading::read_plan_rows(plan, &mut rows) {
        Ok(head) => check_certificate(certificate, &rows, head.n, head.d),
        Err(fault) => fault,
    }
}

// The checking program's answer: a plan and, directly after it, a certificate.
pub fn grade(input: &[u8]) -> Graded
    ensures { result ≡ grade_of input.now }
{
    let mut rows = [0u64; GraphTable::ROW_WORDS];
    match reading::read_leading_rows(input, &mut rows) {
        Ok(head) => Graded {
            answer: check_certificate(&input[head.next..], &rows, head.n, head.d),
            n: head.n,
            m: head.m,
        },
        Err(answer) => Graded { answer, n: 0, m: 0 },
    }
}
