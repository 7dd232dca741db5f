// The text of a journal.
ghost use Rattle.std.specs.Prelude.{◌≡◌, [], ◌∷◌, ◌++◌, map, length, codes, IfOk, OnOk, string_bytes};
ghost use Rattle.std.specs.Fmt.{decimal};
ghost use Rattle.text_lines.specs.Pieces.{line_of, ended, text};
ghost use Rattle.cert_text.specs.Spelling.{literal_item};
ghost use Rattle.cert_text.specs.Journals.{move_line, is_decide, is_propagate, is_pivot, is_conflict, how_many, counts_line, journal_lines};

use crate::printing::put_literals;
use farkas_cert::{Journal, Lit, Move};
use std::alloc::{AllocError, Global};
use std::fmt::Write;
use whole::NoMemory;

/// The lines of the journal: `counts` with the numbers of decisions, propagations, pivots and conflicts, then a line for
/// each move, in order, and `end`.
pub fn print_journal(alloc: Global, journal: &Journal) -> Result<Vec<u8>, NoMemory>
    ensures { IfOk result (λ bytes. bytes.items ≡ text (journal_lines journal.now.moves)) }
{
    let mut out = String::new(alloc);
    put_counts(&mut out, journal.moves.as_slice())?;
    put_moves(&mut out, journal.moves.as_slice())?;
    out.push_str("end\n")?;
    Ok(out.into_bytes())
}

fn put_counts(out: &mut String, moves: &[Move]) -> Result<(), AllocError>
    ensures { OnOk result (string_bytes out.new ≡ string_bytes out.old ++ ended (counts_line moves.now)) }
{
    let decides = decide_count(moves);
    let propagations = propagate_count(moves);
    let pivots = pivot_count(moves);
    let conflicts = conflict_count(moves);
    write!(
        out,
        "counts {} {} {} {}\n",
        decides, propagations, pivots, conflicts
    )
}

fn decide_count(moves: &[Move]) -> usize
    ensures { result ≡ how_many is_decide moves.now }
{
    moves.iter().filter(|one| is_decide(*one)).count()
}

fn propagate_count(moves: &[Move]) -> usize
    ensures { result ≡ how_many is_propagate moves.now }
{
    moves.iter().filter(|one| is_propagate(*one)).count()
}

fn pivot_count(moves: &[Move]) -> usize
    ensures { result ≡ how_many is_pivot moves.now }
{
    moves.iter().filter(|one| is_pivot(*one)).count()
}

fn conflict_count(moves: &[Move]) -> usize
    ensures { result ≡ how_many is_conflict moves.now }
{
    moves.iter().filter(|one| is_conflict(*one)).count()
}

fn is_decide(one: &Move) -> bool
    ensures { result ≡ is_decide one.now }
{
    match one {
        Move::Decide(_) => true,
        _ => false,
    }
}

fn is_propagate(one: &Move) -> bool
    ensures { result ≡ is_propagate one.now }
{
    match one {
        Move::Propagate(_, _) => true,
        _ => false,
    }
}

fn is_pivot(one: &Move) -> bool
    ensures { result ≡ is_pivot one.now }
{
    match one {
        Move::Pivot(_, _) => true,
        _ => false,
    }
}

fn is_conflict(one: &Move) -> bool
    ensures { result ≡ is_conflict one.now }
{
    match one {
        Move::Conflict(_, _) => true,
        _ => false,
    }
}

fn put_moves(out: &mut String, moves: &[Move]) -> Result<(), AllocError>
    ensures { OnOk result (string_bytes out.new ≡ string_bytes out.old ++ text (map move_line moves.now)) }
{
    for one in moves {
        put_move(out, one)?;
    }
    Ok(())
}

fn put_move(out: &mut String, one: &Move) -> Result<(), AllocError>
    ensures { OnOk result (string_bytes out.new ≡ string_bytes out.old ++ ended (move_line one.now)) }
{
    match one {
        Move::Decide(lit) => put_decide(out, *lit),
        Move::Propagate(lit, clause) => put_propagate(out, *lit, *clause),
        Move::Pivot(basic, other) => put_pivot(out, *basic, *other),
        Move::Conflict(lits, keep) => put_conflict(out, lits.as_slice(), *keep),
    }
}

fn put_decide(out: &mut String, lit: Lit) -> Result<(), AllocError>
    ensures { OnOk result (string_bytes out.new ≡ string_bytes out.old ++ ended (codes "d" ∷ literal_item lit ∷ [])) }
{
    if lit.positive {
        write!(out, "d +{}\n", lit.atom)
    } else {
        write!(out, "d -{}\n", lit.atom)
    }
}

fn put_propagate(out: &mut String, lit: Lit, clause: u32) -> Result<(), AllocError>
    ensures { OnOk result (string_bytes out.new ≡ string_bytes out.old ++ ended (codes "p" ∷ literal_item lit ∷ decimal clause ∷ [])) }
{
    if lit.positive {
        write!(out, "p +{} {}\n", lit.atom, clause)
    } else {
        write!(out, "p -{} {}\n", lit.atom, clause)
    }
}

fn put_pivot(out: &mut String, basic: u32, other: u32) -> Result<(), AllocError>
    ensures { OnOk result (string_bytes out.new ≡ string_bytes out.old ++ ended (codes "v" ∷ decimal basic ∷ decimal other ∷ [])) }
{
    write!(out, "v {} {}\n", basic, other)
}

fn put_conflict(out: &mut String, lits: &[Lit], keep: u32) -> Result<(), AllocError>
    ensures { OnOk result (string_bytes out.new ≡ string_bytes out.old ++ ended (codes "k" ∷ decimal keep ∷ map literal_item lits.now)) }
{
    put_keep(out, keep)?;
    put_literals(out, lits)?;
    out.push_str("\n")?;
    Ok(())
}

/// The line of a conflict, up to its literals.
fn put_keep(out: &mut String, keep: u32) -> Result<(), AllocError>
    ensures { OnOk result (string_bytes out.new ≡ string_bytes out.old ++ line_of (codes "k" ∷ decimal keep ∷ [])) }
{
    write!(out, "k {}", keep)
}
