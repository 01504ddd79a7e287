// Numbers of a record, read and written, and the answer that every reader and checker gives.
#![tactic(auto)]

ghost use Rattle.std.specs.Prelude.{◌≡◌, length};
ghost use Rattle.record.specs.Number.{number_at, fault_number, fault_place, number_bytes};
ghost use Rattle.record.specs.Write.{written_number, with_number};

// What stands at a place: a number with the place after it, or what is wrong with it and where. The format's form takes it apart by `let .. else`,
// and each record has an answer of its own for what is wrong, so this is no Result.
#[derive(Clone, Copy)]
pub enum Number {
    Value(u16, usize),
    // the record ends inside the number or before it
    Ended(usize),
    // its last byte is 0, so a shorter form exists
    Padded(usize),
    // it goes on after its second byte
    Overlong(usize),
}

impl Number {
    // a byte that is not below it says that another follows
    pub const GROUP: u16 = 128;

    // every number that one or two bytes can hold is below it
    pub const LIMIT: u16 = Number::GROUP * Number::GROUP;

    // The answer to a plan in which it stands.
    pub fn plan_fault(self) -> Answer
        ensures { result ≡ Answer.PlanFault (fault_number self) (fault_place self) }
    {
        Answer::PlanFault(fault_number(self), fault_place(self))
    }

    // The answer to a certificate in which it stands.
    pub fn certificate_fault(self) -> Answer
        ensures { result ≡ Answer.CertificateFault (fault_number self) (fault_place self) }
    {
        Answer::CertificateFault(fault_number(self), fault_place(self))
    }
}

// An answer: accepted without a grade; a grade; or the record at fault with the papers' number and a place.
#[derive(Clone, Copy)]
pub enum Answer {
    Accepted,
    Grade(u8),
    PlanFault(u8, usize),
    CertificateFault(u8, usize),
}

pub fn read_number(s: &[u8], at: usize) -> Number
    ensures { result ≡ number_at s.now at }
{
    if s.len() <= at {
        return Number::Ended(s.len());
    }
    let a = s[at] as u16;
    if a < Number::GROUP {
        return Number::Value(a, at + 1);
    }
    let second = at + 1;
    if s.len() <= second {
        return Number::Ended(s.len());
    }
    let b = s[second] as u16;
    if b == 0 {
        return Number::Padded(at);
    }
    if b < Number::GROUP {
        return Number::Value(a - Number::GROUP + b * Number::GROUP, second + 1);
    }
    Number::Overlong(at)
}

// The papers' number for what is wrong with a number, and where; 0 and 0 for a number that was read.
pub fn fault_number(x: Number) -> u8
    ensures { result ≡ fault_number x }
{
    match x {
        Number::Value(_, _) => 0,
        Number::Ended(_) => 1,
        Number::Padded(_) => 2,
        Number::Overlong(_) => 33,
    }
}

pub fn fault_place(x: Number) -> usize
    ensures { result ≡ fault_place x }
{
    match x {
        Number::Value(_, _) => 0,
        Number::Ended(p) => p,
        Number::Padded(p) => p,
        Number::Overlong(p) => p,
    }
}

// How many bytes the form of a number takes; 2 where it has none.
pub fn number_length(v: u16) -> usize
    ensures { result ≡ length (number_bytes v) }
{
    if Number::GROUP <= v {
        return 2;
    }
    1
}

// The place after the number; None where nothing was written, for want of room or because it has no form.
pub fn write_number(out: &mut [u8], at: usize, v: u16) -> Option<usize>
    ensures { (result ≡ written_number out.old at v) × (out.new ≡ with_number out.old at v) }
{
    if out.len() <= at {
        return None;
    }
    if v < Number::GROUP {
        out[at] = v as u8;
        return Some(at + 1);
    }
    if Number::LIMIT <= v {
        return None;
    }
    let second = at + 1;
    if out.len() <= second {
        return None;
    }
    out[at] = (v % Number::GROUP + Number::GROUP) as u8;
    out[second] = (v / Number::GROUP) as u8;
    Some(second + 1)
}
