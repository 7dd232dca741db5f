// The building of clauses: forms, atoms and clauses, one after the other.
ghost use Rattle.std.specs.Prelude.{◌≡◌, ◌<◌, ◌≤◌, Ok, Err, Result, Some, IfOk, [], ◌∷◌, map, not, length, slice_get};
ghost use Rattle.clause_form.specs.Answers.{Gives, build_of};
ghost use Rattle.clause_form.specs.Building.{atom_numbered, clauses_made, form_numbered, lone_column, with_clause, with_clauses, with_lits, row_literal, named, nothing, numbered};
ghost use Rattle.clause_form.specs.Keys.{atom_of, definitions, definitions_of, is_and, signed, together, apart};

use crate::clauses::{Atom, BuildFault, Clauses, MAX_ATOMS, MAX_CLAUSES, MAX_FORMS, What};
use crate::keys::{Connective, Key};
use crate::simple::RowLit;
use farkas_cert::{Lit, Lits};
use indexmap::IndexSet;
use linear_form::Form;
use sqlite_items::Items;
use std::alloc::Global;
use std::hash::Hash;
use whole::NoMemory;

/// What was made so far. Forms and atoms are numbered in first-seen order.
#[derive(Drop)]
pub(crate) struct Builder {
    pub(crate) alloc: Global,
    pub(crate) columns: u32,
    pub(crate) forms: IndexSet<Form>,
    pub(crate) keys: IndexSet<Key>,
    pub(crate) clauses: Items<Lits>,
}

impl Builder {
    pub(crate) fn new(alloc: Global, columns: u32) -> Builder
        ensures made { build_of result ≡ nothing columns }
        ensures columns { result.columns ≡ columns }
    {
        Builder {
            alloc,
            columns,
            forms: IndexSet::new(alloc),
            keys: IndexSet::new(alloc),
            clauses: Items::new(alloc),
        }
    }

    /// The literal of a row. A form of one column is that column; the others are counted after the columns.
    #[tactic(auto, unfolding(crate::specs::Building::row_literal))]
    pub(crate) fn row(&mut self, row: &RowLit) -> Result<Lit, BuildFault>
        requires { self.old.columns ≤ 2048 }
        ensures answer { Gives (λ l. (build_of self.new, l)) result (row_literal (build_of self.old) row.now) }
        ensures columns { self.new.columns ≡ self.old.columns }
    {
        let form = self.form(&row.form)?;
        let key = Key::Row {
            form,
            num: row.num,
            den: row.den,
            strict: row.strict,
        };
        let atom = self.atom(key)?;
        Ok(Lit {
            atom,
            positive: row.positive,
        })
    }

    #[tactic(auto, unfolding(crate::specs::Building::form_numbered))]
    fn form(&mut self, form: &Form) -> Result<u32, BuildFault>
        requires { self.old.columns ≤ 2048 }
        ensures answer { Gives (λ n. (build_of self.new, n)) result (form_numbered (build_of self.old) form.now) }
        ensures columns { self.new.columns ≡ self.old.columns }
    {
        match lone_column(form) {
            Some(column) => Ok(column),
            None => {
                let room = MAX_FORMS - self.columns;
                let place = number(&mut self.forms, form.clone()?, room, What::Forms)?;
                Ok(self.columns + place)
            }
        }
    }

    /// The literal of the name that a conjunction or disjunction of these literals has.
    #[tactic(auto, unfolding(crate::specs::Building::named))]
    pub(crate) fn named(
        &mut self,
        connective: Connective,
        parts: Vec<Lit>,
    ) -> Result<Lit, BuildFault>
        ensures answer { Gives (λ l. (build_of self.new, l)) result (named (build_of self.old) connective parts.items) }
        ensures columns { self.new.columns ≡ self.old.columns }
    {
        let atom = self.atom(Key::Named {
            connective,
            parts: Lits::from_vec(parts),
        })?;
        Ok(Lit {
            atom,
            positive: true,
        })
    }

    // The number of the atom that stands for this. A new one comes with the clauses that say what it stands for.
    #[tactic(auto, unfolding(crate::specs::Building::atom_numbered))]
    fn atom(&mut self, key: Key) -> Result<u32, BuildFault>
        ensures answer { Gives (λ n. (build_of self.new, n)) result (atom_numbered (build_of self.old) key) }
        ensures columns { self.new.columns ≡ self.old.columns }
    {
        let before = self.keys.len();
        let atom = number(&mut self.keys, key, MAX_ATOMS, What::Atoms)?;
        if (atom as usize) < before {
            return Ok(atom);
        }
        match self.keys.get_index(atom as usize) {
            Some(key) => define(self.alloc, &mut self.clauses, key, atom)?,
            None => {}
        }
        Ok(atom)
    }

    /// One clause more.
    pub(crate) fn clause(&mut self, lits: Vec<Lit>) -> Result<(), BuildFault>
        ensures answer { Gives (λ _. build_of self.new) result (with_lits (build_of self.old) lits.items) }
        ensures columns { self.new.columns ≡ self.old.columns }
    {
        push(&mut self.clauses, lits)
    }

    pub(crate) fn finish(self) -> Result<Clauses, NoMemory>
        ensures { IfOk result (λ c. c ≡ clauses_made (build_of self)) }
    {
        let Builder {
            alloc,
            columns,
            forms,
            keys,
            clauses,
        } = self;
        Ok(Clauses {
            columns,
            forms: Items::from_vec(forms_of(alloc, forms)?),
            atoms: Items::from_vec(atoms_of(alloc, &keys)?),
            clauses,
        })
    }
}

fn forms_of(alloc: Global, forms: IndexSet<Form>) -> Result<Vec<Form>, NoMemory>
    ensures { IfOk result (λ v. v.items ≡ forms.keys) }
{
    Ok(forms.into_iter().collect(alloc)?)
}

fn atoms_of(alloc: Global, keys: &IndexSet<Key>) -> Result<Vec<Atom>, NoMemory>
    ensures { IfOk result (λ v. v.items ≡ map atom_of keys.now.keys) }
{
    Ok(keys.iter().map(|key| atom_of(key)).collect(alloc)?)
}

fn atom_of(key: &Key) -> Atom
    ensures { result ≡ atom_of key.now }
{
    match key {
        Key::Row {
            form,
            num,
            den,
            strict,
        } => Atom::Row {
            form: *form,
            num: *num,
            den: *den,
            strict: *strict,
        },
        Key::Named { .. } => Atom::Named,
    }
}

// The column of a form of one column.
fn lone_column(form: &Form) -> Option<u32>
    ensures { result ≡ lone_column form.now.terms }
{
    match form.terms.as_slice() {
        [term] => Some(term.column),
        _ => None,
    }
}

// The item's number, its own or the next, where there is room for it.
#[tactic(auto, using(crate::proofs::Numbering::new_at), unfolding(crate::specs::Building::numbered))]
fn number<T: Eq + Hash + Drop>(
    items: &mut IndexSet<T>,
    item: T,
    room: u32,
    what: What,
) -> Result<u32, BuildFault>
    ensures answer { Gives (λ n. (items.new.keys, n)) result (numbered T.eq room what items.old.keys item) }
    ensures below { IfOk result (λ n. n < room) }
    ensures last { IfOk result (λ n. length items.old.keys ≤ n → slice_get items.new.keys n ≡ Some item) }
{
    let (place, _) = items.insert_full(item)?;
    if place < room as usize {
        Ok(place as u32)
    } else {
        Err(BuildFault::large(what))
    }
}

// The clause goes last, where there is room for it.
#[tactic(auto, unfolding(crate::specs::Building::with_clause))]
fn push(clauses: &mut Items<Lits>, lits: Vec<Lit>) -> Result<(), BuildFault>
    ensures { Gives (λ _. clauses.new) result (with_clause clauses.old lits.items) }
{
    if clauses.len() < MAX_CLAUSES as usize {
        clauses.push(Lits::from_vec(lits))?;
        Ok(())
    } else {
        Err(BuildFault::large(What::Clauses))
    }
}

// The clauses that come with a new atom.
fn define(alloc: Global, clauses: &mut Items<Lits>, key: &Key, atom: u32) -> Result<(), BuildFault>
    ensures { Gives (λ _. clauses.new) result (with_clauses clauses.old (definitions_of key.now atom)) }
{
    match key {
        Key::Row { .. } => Ok(()),
        Key::Named { connective, parts } => {
            define_name(alloc, clauses, *connective, atom, parts.as_slice())
        }
    }
}

// The clauses that say what a name stands for.
fn define_name(
    alloc: Global,
    clauses: &mut Items<Lits>,
    connective: Connective,
    atom: u32,
    parts: &[Lit],
) -> Result<(), BuildFault>
    ensures { Gives (λ _. clauses.new) result (with_clauses clauses.old (definitions connective atom parts.now)) }
{
    push(clauses, together(alloc, connective, atom, parts)?)?;
    for part in parts {
        push(clauses, apart(alloc, connective, atom, *part)?)?;
    }
    Ok(())
}

// The clause in which all parts of a name stand.
fn together(
    alloc: Global,
    connective: Connective,
    atom: u32,
    parts: &[Lit],
) -> Result<Vec<Lit>, NoMemory>
    ensures { IfOk result (λ lits. lits.items ≡ together connective atom parts.now) }
{
    let conjunction = connective.is_and();
    let mut lits = Vec::with_capacity(alloc, parts.len() + 1)?;
    lits.push(Lit {
        atom,
        positive: conjunction,
    })?;
    for part in parts {
        lits.push(signed(!conjunction, *part))?;
    }
    Ok(lits)
}

// The clause of one part of a name.
fn apart(alloc: Global, connective: Connective, atom: u32, part: Lit) -> Result<Vec<Lit>, NoMemory>
    ensures { IfOk result (λ lits. lits.items ≡ apart connective atom part) }
{
    let conjunction = connective.is_and();
    let name = Lit {
        atom,
        positive: !conjunction,
    };
    Ok(Vec::from_slice(alloc, &[name, signed(conjunction, part)])?)
}

/// The literal, or its negation where the sign is false.
pub(crate) fn signed(sign: bool, lit: Lit) -> Lit
    ensures { result ≡ signed sign lit }
{
    if sign { lit } else { lit.negated() }
}
