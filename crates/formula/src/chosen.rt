// The encoder that a clique uses.
ghost use Rattle.std.specs.Prelude.{◌≡◌, ◌≤◌};
ghost use Rattle.encoder_theory.specs.Meaning.{most_members};
ghost use Rattle.formula_theory.specs.Writing.{chosen};

use encoder::Encoder;
use fault::Fault;
use pairwise::Pairwise;

// The given encoder, or pairwise.
#[derive(Clone, Copy)]
pub(crate) enum Chosen<'a, E> {
    Given(&'a E),
    Pairwise,
}

impl<'a, E: Encoder> Chosen<'a, E> {
    ghost use Rattle.formula.specs.Chosen.{meaning_of};

    // The given encoder, if it takes fewer clauses for so many members than there are pairs.
    pub(crate) fn among(encoder: &'a E, members: usize) -> Chosen<'a, E>
        requires { members ≤ most_members }
        ensures { meaning_of E.meaning result ≡ chosen (E.meaning encoder.now) members }
    {
        if encoder.clauses(members).unwrap() < Pairwise.clauses(members).unwrap() {
            Chosen::Given(encoder)
        } else {
            Chosen::Pairwise
        }
    }
}

impl<'a, E: Encoder> Encoder for Chosen<'a, E> {
    ghost use Rattle.formula.specs.Chosen.{meaning_of, lawful_of};

    ghost meaning = { meaning_of E.meaning };

    ghost lawful = { lawful_of E.meaning E.lawful };

    fn clauses(&self, members: usize) -> Result<usize, Fault> {
        match self {
            Chosen::Given(encoder) => encoder.clauses(members),
            Chosen::Pairwise => Pairwise.clauses(members),
        }
    }

    fn auxiliaries(&self, members: usize) -> Result<usize, Fault> {
        match self {
            Chosen::Given(encoder) => encoder.auxiliaries(members),
            Chosen::Pairwise => Pairwise.auxiliaries(members),
        }
    }

    fn write(&self, members: &[i32], first: i32, out: &mut [i32]) -> Result<(), Fault> {
        match self {
            Chosen::Given(encoder) => encoder.write(members, first, out),
            Chosen::Pairwise => Pairwise.write(members, first, out),
        }
    }

    fn values(&self, members: usize, place: Option<usize>, out: &mut [u8]) -> Result<(), Fault> {
        match self {
            Chosen::Given(encoder) => encoder.values(members, place, out),
            Chosen::Pairwise => Pairwise.values(members, place, out),
        }
    }
}
