// The groups of a layer: the rule that forms them, and what is written for them below the top.
ghost use Rattle.std.specs.Prelude.{◌≡◌, ℕ, ◌+◌, ◌*◌, ◌<◌, ◌≤◌, min, true, false, MatchOption, map, length, take, pos};
ghost use Rattle.logic.specs.Literal.{variable, complement};
ghost use Rattle.logic.specs.Clause.{flat};
ghost use Rattle.filling.specs.Filled.{after};
ghost use Rattle.filling.specs.Views.{filled};
ghost use Rattle.encoder_theory.specs.Each.{table};
ghost use Rattle.encoder_theory.specs.Members.{Within, auxiliary};
ghost use Rattle.encoder_theory.specs.Meaning.{Admits, Admitted, most_members, last_end};
ghost use Rattle.encoder_theory.specs.Buffer.{byte};
ghost use Rattle.layer_theory.specs.Grouping.{groups, start, size, group_of, group_place, lies, place_in};
ghost use Rattle.layer_theory.specs.Commander.{whole, links, inner, below};

use encoder::{
    Encoder, MOST_MEMBERS, append_clauses, append_values, auxiliary_literal, push_clause,
};
use filling::Filling;

// Fewer members form no groups.
const FEWEST_GROUPED: usize = 6;

// The clause that a member makes the commander of group `i` true.
fn link(first: u32, i: usize, member: i32) -> (i32, i32)
    requires auxiliary { first + i ≤ last_end }
    requires member { variable member ≤ last_end }
    ensures { result ≡ (auxiliary first i, complement member) }
{
    (auxiliary_literal(first, i), -member)
}

// The commanders of so many groups, in order, at the start of an array; none is numbered past the last end.
pub(crate) fn name_commanders(first: u32, count: usize) -> [i32; MOST_MEMBERS]
    requires { count ≤ most_members }
    ensures { take count result ≡ table count (λ i. pos (min (first + i) last_end)) }
{
    let mut names = [0; MOST_MEMBERS];
    for (i, name) in names[..count].iter_mut().enumerate() {
        *name = auxiliary_literal(first, i);
    }
    names
}

// Members in groups of `k`, the last perhaps of fewer.
#[derive(Clone, Copy)]
pub(crate) struct Grouping {
    k: usize,
    members: usize,
    ghost size: { (2 ≤ k) × (k ≤ 16) },
    ghost few: { members ≤ most_members },
    ghost parted: { whole k members ≡ false },
}

impl Grouping {
    // The groups that the members form; fewer than six, or at most `k`, form none.
    pub(crate) fn new(k: usize, members: usize) -> Option<Grouping>
        requires size { (2 ≤ k) × (k ≤ 16) }
        requires few { members ≤ most_members }
        ensures { MatchOption result (whole k members ≡ true) (λ g. (g.k ≡ k) × (g.members ≡ members)) }
    {
        if members < FEWEST_GROUPED || members <= k {
            None
        } else {
            Some(Grouping { k, members })
        }
    }

    // The number of groups.
    pub(crate) fn count(self) -> usize
        ensures few { result ≤ most_members }
        ensures formed { result ≡ groups self.k self.members }
    {
        self.members.div_ceil(self.k)
    }

    // The place at which group `i` begins.
    fn start(self, i: usize) -> usize
        requires { i < groups self.k self.members }
        ensures { result ≡ start self.k self.members i }
    {
        i * self.k
    }

    // The number of members in group `i`.
    fn size(self, i: usize) -> usize
        requires { i < groups self.k self.members }
        ensures { result ≡ size (start self.k self.members) i }
    {
        self.k.min(self.members - self.start(i))
    }

    // The group of a place.
    fn group_of(self, place: usize) -> usize
        requires { place < self.members }
        ensures below { result < groups self.k self.members }
        ensures group { result ≡ group_of (groups self.k self.members) (start self.k self.members) place }
    {
        place / self.k
    }

    // The group of a place that may be absent.
    pub(crate) fn group_place(self, place: Option<usize>) -> Option<usize>
        requires { Within place self.members }
        ensures { result ≡ group_place (groups self.k self.members) (start self.k self.members) place }
    {
        place.map(|t| self.group_of(t))
    }

    // The place counted from the start of group `i`, if it lies there.
    fn place_in(self, place: Option<usize>, i: usize) -> Option<usize>
        requires { i < groups self.k self.members }
        ensures { result ≡ place_in (start self.k self.members) place i }
    {
        let within = place?.checked_sub(self.start(i))?;
        (within < self.size(i)).then_some(within)
    }

    // The byte of the commander of group `i`.
    fn command(self, place: Option<usize>, i: usize) -> u8
        requires { i < groups self.k self.members }
        ensures { result ≡ byte (lies (start self.k self.members) place i) }
    {
        u8::from(self.place_in(place, i).is_some())
    }

    // The number of clauses below the top.
    pub(crate) fn clauses<G: Encoder>(self, group: &G) -> usize
        ensures small { result ≤ 66_000 }
        ensures told { result ≡ (below self.k (G.meaning group.now)).clauses self.members }
    {
        let inner: usize = (0..self.count())
            .map(|i| group.clauses(self.size(i)).unwrap())
            .sum();
        inner + self.members
    }

    // The number of auxiliaries below the top. The trait tells the two numbers by two methods, and so do these:
    // one function would have to take the method as a closure, and be no plainer.
    pub(crate) fn auxiliaries<G: Encoder>(self, group: &G) -> usize
        ensures small { result ≤ 66_000 }
        ensures told { result ≡ (below self.k (G.meaning group.now)).auxiliaries self.members }
    {
        let inner: usize = (0..self.count())
            .map(|i| group.auxiliaries(self.size(i)).unwrap())
            .sum();
        self.count() + inner
    }

    // Puts the groups' clauses next, with their auxiliaries from `first` on.
    fn put_groups<G: Encoder>(self, group: &G, members: &[i32], first: u32, out: &mut Filling<i32>)
        requires members { length members.now ≡ self.members }
        requires admits { Admits (inner self.k (G.meaning group.now)) members.now first }
        requires room { 2 * (inner self.k (G.meaning group.now)).clauses self.members ≤ length (filled out.old).rest }
        ensures { filled out.new ≡ after (filled out.old) (flat ((inner self.k (G.meaning group.now)).list members.now first)) }
    {
        let mut next = first;
        for members in members.chunks(self.k) {
            append_clauses(group, members, next as i32, out).unwrap();
            next += group.auxiliaries(members.len()).unwrap() as u32;
        }
    }

    // Puts a link for each member next: it makes the commander of its group true.
    fn put_links(self, members: &[i32], first: u32, out: &mut Filling<i32>)
        requires members { length members.now ≡ self.members }
        requires admitted { Admitted members.now first (groups self.k self.members) }
        requires room { 2 * self.members ≤ length (filled out.old).rest }
        ensures { filled out.new ≡ after (filled out.old) (flat (links (groups self.k self.members) (start self.k self.members) members.now first)) }
    {
        for (p, member) in members.iter().enumerate() {
            push_clause(out, link(first, self.group_of(p), *member));
        }
    }

    // Puts the clauses below the top next, the groups' clauses and the links. Answers where the top's auxiliaries begin.
    pub(crate) fn put<G: Encoder>(
        self,
        group: &G,
        members: &[i32],
        first: u32,
        out: &mut Filling<i32>,
    ) -> u32
        requires members { length members.now ≡ self.members }
        requires admits { Admits (below self.k (G.meaning group.now)) members.now first }
        requires room { 2 * (below self.k (G.meaning group.now)).clauses self.members ≤ length (filled out.old).rest }
        ensures small { result ≤ last_end }
        ensures next { result ≡ first + (below self.k (G.meaning group.now)).auxiliaries self.members }
        ensures put { filled out.new ≡ after (filled out.old) (flat ((below self.k (G.meaning group.now)).list members.now first)) }
    {
        self.put_groups(group, members, first + self.count() as u32, out);
        self.put_links(members, first, out);
        first + self.auxiliaries(group) as u32
    }

    // Puts the commanders' values next.
    fn put_commands(self, place: Option<usize>, out: &mut Filling<u8>)
        requires { groups self.k self.members ≤ length (filled out.old).rest }
        ensures { filled out.new ≡ after (filled out.old) (map byte (table (groups self.k self.members) (lies (start self.k self.members) place))) }
    {
        for i in 0..self.count() {
            out.push(self.command(place, i));
        }
    }

    // Puts the groups' values next.
    fn put_group_values<G: Encoder>(self, group: &G, place: Option<usize>, out: &mut Filling<u8>)
        requires within { Within place self.members }
        requires room { (inner self.k (G.meaning group.now)).auxiliaries self.members ≤ length (filled out.old).rest }
        ensures { filled out.new ≡ after (filled out.old) (map byte ((inner self.k (G.meaning group.now)).values self.members place)) }
    {
        for i in 0..self.count() {
            append_values(group, self.size(i), self.place_in(place, i), out).unwrap();
        }
    }

    // Puts the values below the top next: the commanders' and the groups'.
    pub(crate) fn put_values<G: Encoder>(
        self,
        group: &G,
        place: Option<usize>,
        out: &mut Filling<u8>,
    )
        requires within { Within place self.members }
        requires room { (below self.k (G.meaning group.now)).auxiliaries self.members ≤ length (filled out.old).rest }
        ensures { filled out.new ≡ after (filled out.old) (map byte ((below self.k (G.meaning group.now)).values self.members place)) }
    {
        self.put_commands(place, out);
        self.put_group_values(group, place, out);
    }
}
