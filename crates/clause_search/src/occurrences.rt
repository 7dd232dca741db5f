// Where each literal stands: the numbers of the clauses that have it.
ghost use Rattle.std.specs.Prelude.{◌≡◌, ◌<◌, ◌≤◌, ◌*◌, [], length, Contains, get_or, IfOk};
ghost use Rattle.clause_search.specs.Agendas.{HasGrown, IsListed, list_of, place_of};

use farkas_cert::Lit;
use sqlite_items::Items;
use std::alloc::Global;
use whole::NoMemory;

/// By literal, the numbers of the clauses that have it.
#[derive(Debug, Drop)]
pub(crate) struct Occurrences {
    lists: Vec<Items<u32>>,
}

impl Occurrences {
    /// No clause is listed yet, over this many atoms.
    pub(crate) fn new(alloc: Global, atoms: usize) -> Result<Occurrences, NoMemory>
        requires { atoms ≤ 4096 }
        ensures { IfOk result (λ o. length o.lists.items ≡ 2 * atoms) }
    {
        let mut lists = Vec::new(alloc);
        for _literal in 0..2 * atoms {
            lists.push(Items::new(alloc))?;
        }
        Ok(Occurrences { lists })
    }

    /// Lists the clause with each of its literals.
    pub(crate) fn list(&mut self, number: u32, clause: &[Lit]) -> Result<(), NoMemory>
        ensures grown { HasGrown self.old.lists.items self.new.lists.items }
        ensures listed { IfOk result (λ _. IsListed self.new.lists.items number clause.now) }
    {
        for lit in clause {
            list_at(&mut self.lists, *lit, number)?;
        }
        Ok(())
    }

    /// The clauses that have this literal.
    pub(crate) fn with(&self, lit: Lit) -> &[u32]
        ensures { result.now ≡ list_of self.now.lists.items lit }
    {
        match self.lists.get(place_of(lit)) {
            Some(numbers) => numbers.as_slice(),
            None => &[],
        }
    }
}

// Lists the clause with one literal, if that has a list.
fn list_at(lists: &mut Vec<Items<u32>>, lit: Lit, number: u32) -> Result<(), NoMemory>
    ensures grown { HasGrown lists.old.items lists.new.items }
    ensures listed { IfOk result (λ _. place_of lit < length lists.new.items → Contains (list_of lists.new.items lit) number) }
{
    let place = place_of(lit);
    if place < lists.len() {
        lists[place].push(number)?;
    }
    Ok(())
}

// The place of a literal's list.
fn place_of(lit: Lit) -> usize
    ensures { result ≡ place_of lit }
{
    let first = 2 * lit.atom as usize;
    if lit.positive { first + 1 } else { first }
}
