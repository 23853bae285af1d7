// A file that was read, and the work on it: from its clauses to the text of the compacted ones, with the account.
ghost use Rattle.std.specs.Prelude.{◌≡◌, ◌+◌, ◌≤◌, [], ◌++◌, length, pos, Some, Ok, IfOk, OnOk};
ghost use Rattle.dimacs.specs.Clauses.{numbers as numbers_of};
ghost use Rattle.network_theory.specs.Layout.{words_needed};
ghost use Rattle.network_theory.specs.Runs.{Came};
ghost use Rattle.network.specs.Views.{net_of};
ghost use Rattle.compaction_theory.specs.Sorted.{clauses_in, conflicts_of, others_of};
ghost use Rattle.compaction_theory.specs.Choices.{meaning_of};
ghost use Rattle.compaction_theory.specs.Account.{Counts, account_of, differing};
ghost use Rattle.compaction_theory.specs.Buffers.{asked};
ghost use Rattle.compaction_theory.specs.Printed.{compacted, compacted_text};
ghost use Rattle.compaction_theory.specs.Walks.{TakenNumbers};
ghost use Rattle.compaction_theory.specs.Written.{Holding, WroteAll};
ghost use Rattle.compaction_theory.proofs.Props.{taken_prop};

use crate::Compacted;
use crate::output::{copy_written, text_of};
use crate::sorting::{Clauses, add_clause, conflict_of};
use crate::writing::{words_needed, write_by};
use compaction_theory::{Account, Choice};
use cover::count_parts;
use fault::Fault;
use formula::Size;
use network::{Open, Sealed};
use std::alloc::{AllocError, Global};
use text::write::count_closings;

// A header takes at most so many bytes,
const HEADER_BYTES: usize = 24;

// and a number with its sign and what stands after it at most so many.
const NUMBER_BYTES: usize = 12;

// A file that a program goes on with.
#[derive(Clone, Copy)]
pub(crate) struct File<'a> {
    // the encoder that its first line picks
    pub choice: Choice,
    pub variables: usize,
    // the literals of its clauses, each with the 0 that closes it
    pub numbers: &'a [i32],
    // how many numbers a part list and a clause buffer hold
    pub room: usize,
    ghost taken: { TakenNumbers variables numbers.now } by { taken_prop variables numbers.now },
    ghost within: { length numbers.now ≤ room },
}

// The formula of a file's conflicts: its numbers at the start of a buffer, its size, and how many conflicts, cliques and bicliques there are.
#[derive(Drop)]
struct Formula {
    written: Vec<i32>,
    size: Size,
    conflicts: usize,
    cliques: usize,
    bicliques: usize,
}

impl<'a> File<'a> {
    // The clauses, in their order.
    fn clauses(&self) -> Clauses<'a>
        ensures { result.rest.now ≡ self.now.numbers.now }
    {
        Clauses { rest: self.numbers }
    }

    // Adds the conflicts of all clauses to a network just opened, in their order, and counts the different ones.
    fn add_conflicts(&self, net: &mut Open) -> usize
        requires fresh { Came (net_of net.old.matrix) [] }
        requires variables { (net_of net.old.matrix).variables ≡ self.now.variables }
        ensures count { result ≡ differing (conflicts_of (clauses_in self.now.numbers.now)) }
        ensures variables { (net_of net.new.matrix).variables ≡ self.now.variables }
        ensures came { Came (net_of net.new.matrix) (asked (clauses_in self.now.numbers.now)) }
    {
        let mut count = 0;
        for clause in self.clauses() {
            count += add_clause(net, clause);
        }
        count
    }

    // Copies all clauses that are no conflicts, in their order.
    fn copy_others(&self, out: &mut Vec<i32>) -> Result<(), AllocError>
        ensures { OnOk result (out.new.items ≡ out.old.items ++ numbers_of (others_of (clauses_in self.now.numbers.now))) }
    {
        for clause in self.clauses() {
            if conflict_of(clause).is_none() {
                out.extend_from_slice(clause)?;
                out.push(0)?;
            }
        }
        Ok(())
    }

    // The first number for auxiliaries.
    fn first_auxiliary(&self) -> i32
        ensures { result ≡ pos (self.now.variables + 1) }
    {
        self.variables as i32 + 1
    }

    // Writes the formula of a network with the file's conflicts at the start of `out`.
    fn write_network(
        &self,
        net: &Sealed,
        work: &mut [u64],
        list: &mut [i32],
        out: &mut [i32],
    ) -> Result<Size, Fault>
        requires network { ((net_of net.now.matrix).variables ≡ self.now.variables) × Came (net_of net.now.matrix) (asked (clauses_in self.now.numbers.now)) }
        requires words { words_needed self.now.variables ≤ length work.old }
        requires room { (length self.now.numbers.now ≤ length list.old) × (length self.now.numbers.now ≤ length out.old) }
        ensures { WroteAll self.now.variables (clauses_in self.now.numbers.now) (meaning_of self.now.choice) list.old list.new out.old out.new result }
    {
        write_by(self.choice, net, self.first_auxiliary(), work, list, out)
    }

    // Collects the file's conflicts and writes their formula; answers its size and how many different conflicts there are.
    fn write_conflicts(
        &self,
        words: &mut [u64],
        work: &mut [u64],
        list: &mut [i32],
        out: &mut [i32],
    ) -> (Size, usize)
        requires words { (words_needed self.now.variables ≤ length words.old) × (words_needed self.now.variables ≤ length work.old) }
        requires room { (length self.now.numbers.now ≤ length list.old) × (length self.now.numbers.now ≤ length out.old) }
        ensures written { WroteAll self.now.variables (clauses_in self.now.numbers.now) (meaning_of self.now.choice) list.old list.new out.old out.new (Ok result.0) }
        ensures count { result.1 ≡ differing (conflicts_of (clauses_in self.now.numbers.now)) }
    {
        let mut net = Open::open(self.variables, words);
        let conflicts = self.add_conflicts(&mut net);
        let net = net.seal();
        let size = self.write_network(&net, work, list, out).unwrap();
        (size, conflicts)
    }

    // The formula of the file's conflicts.
    fn formula(&self, heap: Global) -> Result<Formula, AllocError>
        ensures holds { IfOk result (λ f. Holding self.now.variables (clauses_in self.now.numbers.now) (meaning_of self.now.choice) f.written.items f.size) }
        ensures counts { IfOk result (λ f. Counts self.now.variables (clauses_in self.now.numbers.now) f.conflicts f.cliques f.bicliques) }
    {
        let needed = words_needed(self.variables);
        let mut words = vec![in heap; 0u64; needed]?;
        let mut work = vec![in heap; 0u64; needed]?;
        let mut list = vec![in heap; 0i32; self.room]?;
        let mut written = vec![in heap; 0i32; self.room]?;
        let (size, conflicts) = self.write_conflicts(
            words.as_mut_slice(),
            work.as_mut_slice(),
            list.as_mut_slice(),
            written.as_mut_slice(),
        );
        let (cliques, bicliques) = count_parts(list.as_slice());
        Ok(Formula {
            written,
            size,
            conflicts,
            cliques,
            bicliques,
        })
    }

    // The numbers of the compacted clauses: those that were written, then all that are no conflicts.
    fn assemble(&self, heap: Global, formula: &Formula) -> Result<Vec<i32>, AllocError>
        requires { Holding self.now.variables (clauses_in self.now.numbers.now) (meaning_of self.now.choice) formula.now.written.items formula.now.size }
        ensures { IfOk result (λ v. v.items ≡ numbers_of (compacted (meaning_of self.now.choice) self.now.variables (clauses_in self.now.numbers.now))) }
    {
        let mut out = Vec::new(heap);
        copy_written(formula.written.as_slice(), formula.size.clauses, &mut out)?;
        self.copy_others(&mut out)?;
        Ok(out)
    }

    // The account, where these are the numbers of the compacted clauses.
    fn account(&self, formula: &Formula, numbers: &[i32]) -> Account
        requires holds { Holding self.now.variables (clauses_in self.now.numbers.now) (meaning_of self.now.choice) formula.now.written.items formula.now.size }
        requires counts { Counts self.now.variables (clauses_in self.now.numbers.now) formula.now.conflicts formula.now.cliques formula.now.bicliques }
        requires numbers { numbers.now ≡ numbers_of (compacted (meaning_of self.now.choice) self.now.variables (clauses_in self.now.numbers.now)) }
        ensures { result ≡ account_of (meaning_of self.now.choice) self.now.variables (clauses_in self.now.numbers.now) }
    {
        Account {
            variables: self.variables,
            conflicts: formula.conflicts,
            cliques: formula.cliques,
            bicliques: formula.bicliques,
            clauses_before: count_closings(self.numbers),
            clauses_after: count_closings(numbers),
            auxiliaries: formula.size.auxiliaries,
        }
    }

    // The compacted file, with its account.
    pub(crate) fn compacted(&self, heap: Global) -> Result<Compacted, AllocError>
        ensures bytes { IfOk result (λ p. p.bytes.items ≡ compacted_text (meaning_of self.now.choice) self.now.variables (clauses_in self.now.numbers.now)) }
        ensures account { IfOk result (λ p. p.account ≡ Some (account_of (meaning_of self.now.choice) self.now.variables (clauses_in self.now.numbers.now))) }
    {
        let formula = self.formula(heap)?;
        let assembled = self.assemble(heap, &formula)?;
        let numbers = assembled.as_slice();
        let variables = self.variables + formula.size.auxiliaries;
        let room = HEADER_BYTES + NUMBER_BYTES * self.numbers.len();
        let bytes = text_of(heap, variables as u32, numbers, room)?;
        let account = self.account(&formula, numbers);
        Ok(Compacted {
            bytes,
            account: Some(account),
        })
    }
}
