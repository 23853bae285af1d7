// What the programs `compact_small` and `compact_large` print for the bytes of a file, and what that keeps: definitions and their proofs.
// A function with no body does nothing: its contract is a theorem of the definitions.
#![tactic(auto)]

ghost use Rattle.std.specs.Prelude.{◌≡◌, Some};
ghost use Rattle.compaction_theory.specs.Account.{AccountWhenPrinted, EveryFileAccounted, CountsOnce, ConflictsDiffer, CompactionBalances};
ghost use Rattle.compaction_theory.specs.Buffers.{NetworkCovered, WritingAccepted, FewerNumbers, TextFits, NeverShort};
ghost use Rattle.compaction_theory.specs.Promises.{EveryFileCompacted, EveryInputDecided, SameFilesPrintAlike, LargeHasRoom};

use std::fmt;

// How large the files are that a program takes.
#[derive(Clone, Copy)]
pub enum Scale {
    // A file of at most 65,536 bytes and 256 variables.
    Small,
    // A whole college: at most 64 MiB and 4,096 variables.
    Large,
}

impl Scale {
    ghost use Rattle.compaction_theory.specs.Choices.{most_bytes, most_variables, number_room};

    // The most bytes of an input.
    pub fn most_bytes(self) -> usize
        ensures { result ≡ most_bytes self }
    {
        match self {
            Scale::Small => 65_536,
            Scale::Large => 67_108_864,
        }
    }

    // The most variables of a file.
    pub fn most_variables(self) -> u32
        ensures { result ≡ most_variables self }
    {
        match self {
            Scale::Small => 256,
            Scale::Large => 4096,
        }
    }

    // How many numbers are read of an input of so many bytes, and how many a part list and a clause buffer hold.
    pub fn number_room(self, bytes: usize) -> usize
        ensures { result ≡ number_room self bytes }
    {
        match self {
            Scale::Small => 16_384,
            Scale::Large => bytes / 2 + 1,
        }
    }
}

// The encoders that a file can pick.
#[derive(Clone, Copy)]
pub enum Choice {
    Pairwise,
    Binary,
    Sequential,
    Commander,
    Tower,
}

// What a compaction tells about its work.
#[derive(Clone, Copy, PartialEq, Eq, Debug)]
pub struct Account {
    pub variables: usize,
    // The different conflicts among the clauses, either literal first.
    pub conflicts: usize,
    pub cliques: usize,
    pub bicliques: usize,
    pub clauses_before: usize,
    pub clauses_after: usize,
    pub auxiliaries: usize,
}

impl fmt::Display for Account {
    ghost use Rattle.compaction_theory.specs.Account.{account_text};

    ghost output = { λ a. Some (account_text a) };

    // One figure a line.
    fn fmt<W: fmt::Write>(&self, f: &mut fmt::Formatter<W>) -> fmt::Result {
        let Account {
            variables,
            conflicts,
            cliques,
            bicliques,
            clauses_before,
            clauses_after,
            auxiliaries,
        } = self;
        write!(f, "variables {variables}\nconflicts {conflicts}\n")?;
        write!(f, "cliques {cliques}\nbicliques {bicliques}\n")?;
        write!(
            f,
            "clauses before {clauses_before}\nclauses after {clauses_after}\n"
        )?;
        write!(f, "auxiliaries {auxiliaries}")
    }
}

// For every file within the limits an equivalent file is printed.
pub fn every_file_compacted()
    ensures { EveryFileCompacted }
{}

// A compacted file is printed exactly for the files within the limits.
pub fn every_input_decided()
    ensures { EveryInputDecided }
{}

// Files that differ only in the order and number of their pair clauses print the same.
pub fn same_files_print_alike()
    ensures { SameFilesPrintAlike }
{}

// A large program has room for the numbers of every well-formed file.
pub fn large_has_room()
    ensures { LargeHasRoom }
{}

// The network that the clauses make is covered as the clauses are.
pub fn network_covered()
    ensures { NetworkCovered }
{}

// The buffers of a program always suffice, so that no refusal for want of room comes out of it.
pub fn buffers_suffice()
    ensures writing { WritingAccepted }
    ensures numbers { FewerNumbers }
    ensures text { TextFits }
    ensures refusals { NeverShort }
{}

// A text has an account exactly where its compacted file is printed; a file within the limits has that of its clauses.
pub fn files_accounted()
    ensures printed { AccountWhenPrinted }
    ensures files { EveryFileAccounted }
{}

// One conflict more counts unless it stood before; the different conflicts are those that the cover holds, each once.
pub fn conflicts_differ()
    ensures more { CountsOnce }
    ensures covered { ConflictsDiffer }
{}

// The clauses after a compaction, with those that it saved, are the different conflicts and the other clauses.
pub fn compaction_balances()
    ensures { CompactionBalances }
{}
