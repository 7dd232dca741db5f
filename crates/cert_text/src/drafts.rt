// A certificate that is half read.
ghost use Rattle.std.specs.Prelude.{◌≡◌, ◌<◌, ◌+◌, ◌^◌, ◌++◌, [], ◌∷◌, List, ℕ, length, map, Ok, IfOk, OnOk, MatchResult};
ghost use Rattle.text_lines.specs.Lines.{is_over};
ghost use Rattle.text_lines.specs.Steps.{Fails};
ghost use Rattle.text_machine.specs.Texts.{step};
ghost use Rattle.farkas_cert.specs.Trees.{tree_of};
ghost use Rattle.cert_text.specs.Spelling.{certificate};
ghost use Rattle.cert_text.specs.Rules.{opening, cert_format};
ghost use Rattle.cert_text.specs.Tables.{line_numbers, MayStand, cert_table, tree_table, GivesRead};
ghost use Rattle.cert_text.specs.Drafts.{stage, table, Agrees, Taken, TreeTaken, Fed, is_whole, last_rule, finished};

use crate::lines::{read_line, refusal};
use crate::splits::{Open, close};
use crate::wants::{Line, Want};
use farkas_cert::{Cert, Lemma, Lits, Proof};
use sqlite_items::Items;
use std::alloc::Global;
use whole::{NoMemory, ReadFault};

/// What was read of a certificate so far, and what is wanted next.
#[derive(Debug, Drop)]
pub(crate) struct Draft {
    pub(crate) columns: u32,
    pub(crate) atoms: u32,
    pub(crate) clauses: u32,
    pub(crate) lemmas: Items<Lemma>,
    /// The clause of the lemma whose tree is being read.
    pub(crate) clause: Lits,
    /// The splits of this tree in which the next node stands, the outermost first.
    pub(crate) splits: Items<Open>,
    pub(crate) want: Want,
}

impl Draft {
    /// Nothing was read.
    #[tactic(auto, unfolding(crate::specs::Drafts::stage, crate::specs::Drafts::table, crate::specs::Drafts::Agrees))]
    pub(crate) fn new(alloc: Global) -> Draft
        ensures stage { stage result ≡ opening }
        ensures table { table result ≡ [] }
        ensures agrees { Agrees result }
        ensures none { result.lemmas ≡ [] }
    {
        Draft {
            columns: 0,
            atoms: 0,
            clauses: 0,
            lemmas: Items::new(alloc),
            clause: Lits::from_vec(Vec::new(alloc)),
            splits: Items::new(alloc),
            want: Want::Header,
        }
    }

    /// Reads the next line, whose number is `number`.
    pub(crate) fn feed(&mut self, alloc: Global, line: &[u8], number: u32) -> Result<(), ReadFault>
        requires agrees { Agrees self.old }
        requires few { length self.old.lemmas < number }
        ensures { MatchResult result (λ _. Fed self.old number line.now self.new) (λ fault. Fails fault (step cert_format (stage self.old) number line.now)) }
    {
        let found = read_line(alloc, line, number, self.want)?;
        self.take(alloc, found)?;
        Ok(())
    }

    /// Adds a line that may stand next.
    fn take(&mut self, alloc: Global, line: Line) -> Result<(), NoMemory>
        requires may_stand { MayStand self.old.want line }
        requires agrees { Agrees self.old }
        requires few { length self.old.lemmas + 1 < 2 ^ 32 }
        ensures { OnOk result (Taken self.old (line_numbers self.old.want line) self.new) }
    {
        match line {
            Line::Header { .. } => self.want = Want::Size,
            Line::Size {
                columns,
                atoms,
                clauses,
            } => self.set_sizes(columns, atoms, clauses),
            Line::Lemma(clause) => self.begin(clause),
            Line::Split(atom) => self.open(atom)?,
            Line::Clause(number) => self.put_leaf(alloc, Proof::clause(number))?,
            Line::Farkas(parts) => self.put_leaf(alloc, Proof::farkas(parts))?,
            Line::End => self.want = Want::Nothing,
        }
        Ok(())
    }

    fn set_sizes(&mut self, columns: u32, atoms: u32, clauses: u32)
        ensures { self.new ≡ record { columns = columns; atoms = atoms; clauses = clauses; lemmas = self.old.lemmas; clause = self.old.clause; splits = self.old.splits; want = Want.Next 0 } }
    {
        self.columns = columns;
        self.atoms = atoms;
        self.clauses = clauses;
        self.want = Want::Next { lemma: 0 };
    }

    /// A lemma begins with its clause.
    fn begin(&mut self, clause: Lits)
        ensures { self.new ≡ record { columns = self.old.columns; atoms = self.old.atoms; clauses = self.old.clauses; lemmas = self.old.lemmas; clause = clause; splits = self.old.splits; want = Want.Node 0 } }
    {
        self.clause = clause;
        self.want = Want::Node { depth: 0 };
    }

    /// A split, whose first side comes next.
    fn open(&mut self, atom: u32) -> Result<(), NoMemory>
        requires { length self.old.splits < 2 ^ 31 }
        ensures { OnOk result (self.new ≡ record { columns = self.old.columns; atoms = self.old.atoms; clauses = self.old.clauses; lemmas = self.old.lemmas; clause = self.old.clause; splits = self.old.splits ++ Open.First atom ∷ []; want = Want.Node (length self.old.splits + 1) }) }
    {
        self.splits.push(Open::First { atom })?;
        self.want = Want::Node {
            depth: self.splits.len() as u32,
        };
        Ok(())
    }

    /// A leaf: the next side that is due is wanted, or the lemma is whole.
    fn put_leaf(&mut self, alloc: Global, leaf: Proof) -> Result<(), NoMemory>
        requires wanted { self.old.want ≡ Want.Node (length self.old.splits) }
        requires shallow { length self.old.splits < 2 ^ 32 }
        requires few { length self.old.lemmas + 1 < 2 ^ 32 }
        ensures { OnOk result (TreeTaken self.old (tree_of leaf) self.new) }
    {
        match close(alloc, &mut self.splits, leaf)? {
            None => {
                self.want = Want::Node {
                    depth: self.splits.len() as u32,
                };
                Ok(())
            }
            Some(proof) => self.end_lemma(alloc, proof),
        }
    }

    /// The lemma is whole.
    fn end_lemma(&mut self, alloc: Global, proof: Proof) -> Result<(), NoMemory>
        requires { length self.old.lemmas + 1 < 2 ^ 32 }
        ensures { OnOk result (self.new ≡ record { columns = self.old.columns; atoms = self.old.atoms; clauses = self.old.clauses; lemmas = self.old.lemmas ++ record { clause = self.old.clause; proof = proof } ∷ []; clause = []; splits = self.old.splits; want = Want.Next (length self.old.lemmas + 1) }) }
    {
        let clause = std::mem::replace(&mut self.clause, Lits::from_vec(Vec::new(alloc)));
        self.lemmas.push(Lemma { clause, proof })?;
        self.want = Want::Next {
            lemma: self.lemmas.len() as u32,
        };
        Ok(())
    }

    /// The certificate, where the text ends in line `number` and not a byte is left.
    pub(crate) fn finish(self, number: u32, is_finished: bool) -> Result<Cert, ReadFault>
        ensures { (rest : List ℕ) → is_finished ≡ is_over (rest ∷ []) → GivesRead (λ cert. cert_table (certificate cert)) result (finished self number rest) }
    {
        if is_whole(self.want, is_finished) {
            return Ok(Cert {
                columns: self.columns,
                atoms: self.atoms,
                clauses: self.clauses,
                lemmas: self.lemmas,
            });
        }
        let rule = last_rule(self.want, is_finished);
        Err(ReadFault::Refused(refusal(rule, number)))
    }
}

/// Whether the text may end here.
fn is_whole(want: Want, is_finished: bool) -> bool
    ensures { result ≡ is_whole want is_finished }
{
    match want {
        Want::Nothing => is_finished,
        _ => false,
    }
}

/// The rule that a text breaks which ends here though it may not.
fn last_rule(want: Want, is_finished: bool) -> u8
    ensures { result ≡ last_rule want is_finished }
{
    match want {
        Want::Nothing => 9,
        Want::Header if is_finished => 1,
        _ => 8,
    }
}
