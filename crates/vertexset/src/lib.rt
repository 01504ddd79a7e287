// A set of vertices (a set of boxes), by value: one bit for each vertex, 64 to a word.
#![tactic(auto)]

ghost use Rattle.std.specs.Prelude.{◌≡◌, ℕ, ◌/◌, ◌%◌, ◌^◌, get_or, set, ◌<◌};
ghost use Rattle.std.specs.Int.Bits.{bit_or};
ghost use Rattle.vertexset.specs.Set.{has, empty_set, inserted, removed, count, wordwise, less, none, subset_of, next, below_set, word_count};
ghost use Rattle.vertexset.specs.Walk.{standing, walk_from, going, meets, met, stepped};

#[derive(Clone, Copy)]
pub struct VertexSet {
    pub words: [u64; VertexSet::WORDS],
}

impl VertexSet {
    // as many as `word_count` in the definitions
    pub const WORDS: usize = 2;
    // a word with all its 64 bits
    const FULL_WORD: u64 = 18446744073709551615;
    // the vertices 0 to CAPACITY - 1 can be members
    pub const CAPACITY: u16 = 64 * VertexSet::WORDS as u16;

    pub fn empty() -> Self
        ensures { result ≡ empty_set }
    {
        VertexSet {
            words: [0u64; VertexSet::WORDS],
        }
    }

    pub fn contains(self, v: u16) -> bool
        ensures { result ≡ has self.words v }
    {
        if v < VertexSet::CAPACITY {
            (self.words[(v / 64) as usize] >> (v % 64)) % 2 == 1
        } else {
            false
        }
    }

    // The word of v becomes what f makes of it and of the bit of v, whichever function it is; nothing changes where v is past the words.
    // Every word is looked at, so that the set can stay in registers: a processor waits where a word is stored and the whole set is
    // loaded right after it.
    fn change<F: Fn(u64, u64) -> u64>(mut self, v: u16, f: F) -> Self
        requires { F.IsAlwaysCallable f }
        ensures { (g : ℕ → ℕ → ℕ) → ((w b r : ℕ) → F.post f w b r → r ≡ g w b) → result ≡ record { words = set self.words (v / 64) (g (get_or self.words (v / 64) 0) (2 ^ (v % 64))) } }
    {
        let k = (v / 64) as usize;
        let bit = 1u64 << (v % 64);
        for i in 0..VertexSet::WORDS {
            if i == k {
                self.words[i] = f(self.words[i], bit);
            }
        }
        self
    }

    // Nothing changes where v is past the words.
    pub fn insert(self, v: u16) -> Self
        ensures { result ≡ inserted self v }
    {
        self.change(v, |word, bit| word | bit)
    }

    // Nothing changes where v is no member, or past the words.
    pub fn remove(self, v: u16) -> Self
        ensures { result ≡ removed self v }
    {
        self.change(v, |word, bit| word ^ (word & bit))
    }

    // Word i of the vertices below n: full in front of the word into which n falls, and empty behind it.
    fn word_below(n: u16, i: usize) -> u64
        requires { i < word_count }
        ensures { result ≡ get_or (below_set n).words i 0 }
    {
        let k = (n / 64) as usize;
        if i < k {
            return VertexSet::FULL_WORD;
        }
        if k < i {
            return 0;
        }
        (1u64 << (n % 64)) - 1
    }

    // The vertices below n.
    pub fn below(n: u16) -> Self
        ensures { result ≡ below_set n }
    {
        let mut words = [0u64; VertexSet::WORDS];
        for (i, word) in words.iter_mut().enumerate() {
            *word = VertexSet::word_below(n, i);
        }
        VertexSet { words }
    }

    pub fn size(self) -> u16
        ensures { result ≡ count self.words }
    {
        let mut n: u16 = 0;
        for word in self.words {
            n += word.count_ones() as u16;
        }
        n
    }

    // Two sets word by word: what f makes of a word of each, whichever function it is.
    fn zip<F: Fn(u64, u64) -> u64>(mut self, other: VertexSet, f: F) -> Self
        requires { F.IsAlwaysCallable f }
        ensures { (g : ℕ → ℕ → ℕ) → ((x y r : ℕ) → F.post f x y r → r ≡ g x y) → result ≡ wordwise g self other }
    {
        for (i, word) in self.words.iter_mut().enumerate() {
            *word = f(*word, other.words[i]);
        }
        self
    }

    pub fn union(self, other: VertexSet) -> Self
        ensures { result ≡ wordwise bit_or self other }
    {
        self.zip(other, |x, y| x | y)
    }

    pub fn minus(self, other: VertexSet) -> Self
        ensures { result ≡ wordwise less self other }
    {
        self.zip(other, |x, y| x ^ (x & y))
    }

    pub fn is_empty(self) -> bool
        ensures { result ≡ none self.words }
    {
        for word in self.words {
            if word != 0 {
                return false;
            }
        }
        true
    }

    pub fn subset(self, other: VertexSet) -> bool
        ensures { result ≡ subset_of self.words other.words }
    {
        self.minus(other).is_empty()
    }

    // The walk that stands at bit k of word i; where there is no such word it is over.
    fn walk_at(self, i: usize, k: u16) -> Cursor
        requires { k < 64 }
        ensures { result ≡ standing self.words i k }
    {
        if i < VertexSet::WORDS {
            return Cursor {
                word: i as u8,
                rest: (self.words[i] >> k) << k,
            };
        }
        Cursor {
            word: VertexSet::WORDS as u8,
            rest: 0,
        }
    }

    // The walk through the members that are not below v.
    pub fn walk_from(self, v: u16) -> Cursor
        ensures { result ≡ walk_from self.words v }
    {
        self.walk_at((v / 64) as usize, v % 64)
    }

    // The least member that is not below v, or CAPACITY where there is none, as the definition `next` has it: the first that a walk from v on meets.
    pub fn next_from(self, v: u16) -> u16
        ensures { result ≡ next self.words v }
    {
        let mut walk = self.walk_from(v);
        // a walk takes one step a turn, so a while
        while walk.going() {
            if walk.meets() {
                return walk.member();
            }
            walk = walk.step(self);
        }
        VertexSet::CAPACITY
    }
}

// Where a walk through the members of a set, ascending, stands, by value: the word at work, and what is left of it. A step goes behind one member
// or one word, so a walk takes no more steps than the set has members and words. A loop over members takes one step a turn while it is going.
#[derive(Clone, Copy)]
pub struct Cursor {
    word: u8,
    rest: u64,
}

impl Cursor {
    // A word is at work.
    pub fn going(self) -> bool
        ensures { result ≡ going word_count self }
    {
        (self.word as usize) < VertexSet::WORDS
    }

    // A member is left in it.
    pub fn meets(self) -> bool
        ensures { result ≡ meets self }
    {
        self.rest != 0
    }

    // The least one that is left in it.
    pub fn member(self) -> u16
        ensures { result ≡ met self }
    {
        64 * self.word as u16 + self.rest.trailing_zeros() as u16
    }

    // One step through the set: behind that member, or where none is left on to the next word.
    pub fn step(self, set: VertexSet) -> Self
        ensures { result ≡ stepped set.words self }
    {
        let word = self.word;
        let rest = self.rest;
        if rest == 0 {
            return set.walk_at(word as usize + 1, 0);
        }
        Cursor {
            word,
            rest: rest & (rest - 1),
        }
    }
}
