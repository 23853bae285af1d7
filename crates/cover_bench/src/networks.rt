// Networks to measure with, the same from the same seed.
use logic::literal_at;
use network::Open;
use std::alloc::{AllocError, Global};

// The numbers that both programs draw (splitmix64).
#[derive(Drop)]
pub struct Random {
    pub state: u64,
}

impl Random {
    fn next(&mut self) -> u64 {
        self.state = self.state.wrapping_add(0x9e37_79b9_7f4a_7c15);
        let z = self.state;
        let z = (z ^ (z >> 30)).wrapping_mul(0xbf58_476d_1ce4_e5b9);
        let z = (z ^ (z >> 27)).wrapping_mul(0x94d0_49bb_1331_11eb);
        z ^ (z >> 31)
    }

    fn below(&mut self, n: usize) -> usize {
        if n == 0 {
            return 0;
        }
        (self.next() % n as u64) as usize
    }
}

// The networks that are built; main.rt says which words name them.
#[derive(Clone, Copy)]
pub enum Kind {
    Sparse,
    Timetable,
    Dense,
}

// Any other word than these two names the dense ones.
impl<'a> From<&'a str> for Kind {
    fn from(word: &'a str) -> Kind {
        match word {
            "sparse" => Kind::Sparse,
            "timetable" => Kind::Timetable,
            _ => Kind::Dense,
        }
    }
}

#[derive(Clone, Copy)]
struct Lecture {
    room: usize,
    first: usize,
    second: usize,
}

impl Lecture {
    fn clashes(&self, other: &Lecture) -> bool {
        self.room == other.room
            || self.first == other.first
            || self.first == other.second
            || self.second == other.first
            || self.second == other.second
    }
}

const SLOTS: usize = 32;

// The index of the literal that says that a lecture takes a slot.
fn choice(lecture: usize, slot: usize) -> usize {
    lecture
        .saturating_mul(SLOTS)
        .saturating_add(slot)
        .saturating_mul(2)
}

// A network that is being filled, and how many conflicts it has.
#[derive(Drop)]
pub struct Network<'a> {
    pub net: Open<'a>,
    pub conflicts: usize,
    pub random: Random,
}

impl<'a> Network<'a> {
    // Adds the conflict of two indices, and counts it if it is new.
    fn join(&mut self, u: usize, w: usize) {
        if let (Some(a), Some(b)) = (literal_at(u), literal_at(w))
            && let Ok(true) = self.net.add(a, b)
        {
            self.conflicts = self.conflicts.saturating_add(1);
        }
    }

    // Eight random pairs for each variable.
    fn add_sparse(&mut self, n: usize) {
        let indices = n.saturating_mul(2);
        for _ in 0..n.saturating_mul(8) {
            let u = self.random.below(indices);
            let w = self.random.below(indices);
            self.join(u, w);
        }
    }

    fn add_one_slot(&mut self, lecture: usize) {
        for s in 0..SLOTS {
            for t in 0..s {
                self.join(choice(lecture, s), choice(lecture, t));
            }
        }
    }

    fn add_other_slots(&mut self, l: usize, k: usize) {
        for s in 0..SLOTS {
            self.join(choice(l, s), choice(k, s));
        }
    }

    // Lectures with 32 slots each; a lecture takes one slot, and no two lectures of a room or a group take the same.
    fn add_timetable(&mut self, heap: Global, n: usize) -> Result<(), AllocError> {
        let count = n / SLOTS;
        let mut lectures: Vec<Lecture> = Vec::new(heap);
        for _ in 0..count {
            let room = self.random.below(count / 4 + 1);
            let first = self.random.below(count / 3 + 1);
            let second = self.random.below(count / 3 + 1);
            lectures.push(Lecture {
                room,
                first,
                second,
            })?;
        }
        for (l, lecture) in lectures.iter().enumerate() {
            self.add_one_slot(l);
            for (k, other) in lectures.iter().enumerate().take(l) {
                if lecture.clashes(other) {
                    self.add_other_slots(l, k);
                }
            }
        }
        Ok(())
    }

    // Every pair of different variables, of the literals that say that they are true, with probability one half.
    fn add_dense(&mut self, n: usize) {
        for u in 0..n {
            for w in 0..u {
                if self.random.next() >> 63 == 1 {
                    self.join(u.saturating_mul(2), w.saturating_mul(2));
                }
            }
        }
    }

    // Fills the network of n variables with one of the kinds.
    pub fn fill(&mut self, heap: Global, kind: Kind, n: usize) -> Result<(), AllocError> {
        match kind {
            Kind::Sparse => self.add_sparse(n),
            Kind::Timetable => self.add_timetable(heap, n)?,
            Kind::Dense => self.add_dense(n),
        }
        Ok(())
    }
}
