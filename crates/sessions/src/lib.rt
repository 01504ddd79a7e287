// The building session: opening, start, path, taking back, closing.
#![tactic(auto)]

ghost use Rattle.std.specs.Prelude.{◌≡◌, drop};
ghost use Rattle.sessions.specs.Session.{no_session, opening, refused_step, unread_step, start_step, is_due, path_step, has_path, back_step, closing, close_step, start_rest, path_rest};

use build::{Build, Trace};
use graph::GraphTable;
use links::Link;
use record::Answer;
use vertexset::VertexSet;

#[derive(Clone, Copy)]
pub struct Session {
    pub graph: GraphTable,
    // opened, and no start accepted yet; with `started` three states by two flags, as the definitions name them (no_session, opened_on, on_start)
    pub ready: bool,
    pub started: bool,
    pub taken: u16,
    pub build: Build,
    // the trace of each path that is in, in their order; none behind the last, as the definitions have the whole array
    pub traces: [Trace; Session::PATHS],
}

// A plan that was refused gives a session never opened, so the answer stands beside it, as the definition `opening` and the claims have it.
#[derive(Clone, Copy)]
pub struct Opened {
    pub answer: Answer,
    pub session: Session,
}

// The session after a call, its answer, and how many bytes of the part were read. A refused call hands its session back too, so the answer stands
// beside it.
#[derive(Clone, Copy)]
pub struct Stepped {
    pub session: Session,
    pub answer: Answer,
    pub read: usize,
}

impl Session {
    // no more paths can come after a start, by the limits of the format
    pub const PATHS: usize = GraphTable::MAX_EDGES as usize - GraphTable::MIN_VERTICES as usize - 2;

    // A session never opened.
    pub fn none() -> Self
        ensures { result ≡ no_session }
    {
        let graph = GraphTable::none();
        let build = Build::bare(VertexSet::empty());
        let trace = Trace::none();
        Session {
            graph,
            ready: false,
            started: false,
            taken: 0,
            build,
            traces: [trace; Session::PATHS],
        }
    }

    // Refused: the session as it was, and nothing read.
    fn refused(self, r: u8, p: usize) -> Stepped
        ensures { result ≡ refused_step self r p }
    {
        Stepped {
            session: self,
            answer: Answer::CertificateFault(r, p),
            read: 0,
        }
    }

    // The same with the answer of a reader.
    fn unread(self, answer: Answer) -> Stepped
        ensures { result ≡ unread_step self answer }
    {
        Stepped {
            session: self,
            answer,
            read: 0,
        }
    }

    // Four branch vertices and six paths; 31 before reading where a start was accepted already or the session never opened. They enter tables of
    // their own, since those before a fault stay in them; the session is written out, since one changed in place took 600 ns more (1,300 for 700, with its
    // opening).
    pub fn start(self, part: &[u8]) -> Stepped
        ensures { result ≡ start_step self part.now }
    {
        let ready = self.ready;
        if !ready {
            return self.refused(31, 0);
        }
        // a graph of its own is lent: where the session's is, a call copies the session, a refused one too
        let graph = self.graph;
        let mut pointers = [0u16; Link::POINTERS];
        let mut linked = [0u64; GraphTable::ROW_WORDS];
        let x = match build::read_start(part, &graph.rows, graph.n, 0, &mut pointers, &mut linked) {
            Ok(x) => x,
            Err(x) => return self.unread(x.answer),
        };
        let sets = x.sets;
        let build = Build {
            sets,
            pointers,
            linked,
        };
        let traces = self.traces;
        let session = Session {
            graph,
            ready: false,
            started: true,
            taken: 0,
            build,
            traces,
        };
        Stepped {
            session,
            answer: Answer::Accepted,
            read: x.next,
        }
    }

    // A path is due, and its trace has room (in every session that calls gave it has).
    fn is_due(&self) -> bool
        ensures { result ≡ is_due self.now }
    {
        let count = build::further_count(self.graph.d, self.graph.n);
        self.started && self.taken < count && (self.taken as usize) < Session::PATHS
    }

    // One further path; 31 before reading where none is due. Each call of a function with a session, and each return, may copy it, so this is one
    // function; the tables of the build are lent where they stand, since a path that is refused leaves them as they were.
    pub fn path(mut self, part: &[u8]) -> Stepped
        ensures { result ≡ path_step self part.now }
    {
        if !self.is_due() {
            return self.refused(31, 0);
        }
        let n = self.graph.n;
        let sets = self.build.sets;
        let it = &mut self;
        let x = match build::take_path(
            part,
            &it.graph.rows,
            n,
            0,
            sets,
            &mut it.build.pointers,
            &mut it.build.linked,
        ) {
            Ok(x) => x,
            Err(answer) => return self.unread(answer),
        };
        self.traces[self.taken as usize] = x.trace;
        self.taken += 1;
        self.build.sets = x.taken.sets;
        Stepped {
            session: self,
            answer: Answer::Accepted,
            read: x.taken.next,
        }
    }

    // A path is there to take back; that it is within the room only matters in a session that no calls gave.
    fn has_path(&self) -> bool
        ensures { result ≡ has_path self.now }
    {
        self.started && 0 < self.taken && self.taken as usize <= Session::PATHS
    }

    // Takes back the path that was accepted last; 31 where there is none. Nothing is read.
    pub fn back(mut self) -> Stepped
        ensures { result ≡ back_step self }
    {
        if !self.has_path() {
            return self.refused(31, 0);
        }
        let left = self.taken - 1;
        let i = left as usize;
        let sets = self.build.sets;
        let trace = self.traces[i];
        let it = &mut self;
        let grown = build::take_back(sets, &mut it.build.pointers, &mut it.build.linked, trace);
        self.taken = left;
        self.build.sets = grown;
        self.traces[i] = Trace::none();
        Stepped {
            session: self,
            answer: Answer::Accepted,
            read: 0,
        }
    }

    fn closing(&self) -> Answer
        ensures { result ≡ closing self.now }
    {
        if !self.started {
            return Answer::CertificateFault(31, 0);
        }
        if self.taken != build::further_count(self.graph.d, self.graph.n) {
            return Answer::CertificateFault(31, 0);
        }
        if paths::all_below(self.build.sets.branch, self.graph.n) {
            return Answer::Grade(3);
        }
        Answer::CertificateFault(28, 0)
    }

    // Grade 3 where every vertex is a branch vertex after the last path; the session stays as it is.
    pub fn close(self) -> Stepped
        ensures { result ≡ close_step self }
    {
        let answer = self.closing();
        Stepped {
            session: self,
            answer,
            read: 0,
        }
    }
}

// A session on a whole plan record; a refused opening gives a session never opened.
pub fn open(plan: &[u8]) -> Opened
    ensures { result ≡ opening plan.now }
{
    let x = match reading::read_plan(plan) {
        Ok(x) => x,
        Err(answer) => {
            let session = Session::none();
            return Opened { answer, session };
        }
    };
    let graph = x.plan.graph;
    if (graph.d as usize) < graph.n as usize + 2 {
        let session = Session::none();
        return Opened {
            answer: Answer::PlanFault(29, 0),
            session,
        };
    }
    let build = Build::bare(VertexSet::empty());
    let trace = Trace::none();
    let session = Session {
        graph,
        ready: true,
        started: false,
        taken: 0,
        build,
        traces: [trace; Session::PATHS],
    };
    Opened {
        answer: Answer::Accepted,
        session,
    }
}

// What stands from a place on.
fn rest<'a>(part: &'a [u8], at: usize) -> &'a [u8]
    ensures { result.now ≡ drop at part.now }
{
    part.get(at..).unwrap_or(&[])
}

// What a start leaves unread of the caller's record.
pub fn start_rest<'a>(session: Session, part: &'a [u8]) -> &'a [u8]
    ensures { result.now ≡ start_rest session part.now }
{
    let x = session.start(part);
    rest(part, x.read)
}

// What a path leaves unread of the caller's record.
pub fn path_rest<'a>(session: Session, part: &'a [u8]) -> &'a [u8]
    ensures { result.now ≡ path_rest session part.now }
{
    let x = session.path(part);
    rest(part, x.read)
}
