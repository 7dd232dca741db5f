// The text of a certificate.
ghost use Rattle.std.specs.Prelude.{◌≡◌, [], ◌∷◌, ◌++◌, map, codes, IfOk, OnOk, string_bytes};
ghost use Rattle.std.specs.Fmt.{decimal, signed_decimal};
ghost use Rattle.text_lines.specs.Pieces.{line_of, ended, spaced, text};
ghost use Rattle.text_lines.specs.Steps.{numbered};
ghost use Rattle.farkas_cert.specs.Trees.{tree_of, derived};
ghost use Rattle.cert_text.specs.Spelling.{certificate, literal_item, part_items, split_line, clause_line, farkas_line, tree_lines, lemma_line, lemma_lines, size_line, cert_lines, IsWithin, IsCertText};

use farkas_cert::{Cert, Lemma, Lit, Part, Proof};
use std::alloc::{AllocError, Global};
use std::fmt::Write;
use whole::NoMemory;

/// The one text of the certificate. It can be read back where its numbers are below `2^32`, no multiplier is below 0, no
/// node stands below more than 4,096 splits, and there is a lemma; the depth of a tree is that of the recursion.
#[tactic(auto, using(crate::proofs::PrintLaws::spells))]
pub fn print_cert(alloc: Global, cert: &Cert) -> Result<Vec<u8>, NoMemory>
    ensures text { IfOk result (λ bytes. bytes.items ≡ text (cert_lines (certificate cert.now))) }
    ensures spells { IsWithin (certificate cert.now) → IfOk result (λ bytes. IsCertText bytes.items (certificate cert.now)) }
{
    let mut out = String::new(alloc);
    out.push_str("ccac-cert 1\n")?;
    put_size(&mut out, cert)?;
    put_lemmas(&mut out, cert.lemmas.as_slice())?;
    out.push_str("end\n")?;
    Ok(out.into_bytes())
}

fn put_size(out: &mut String, cert: &Cert) -> Result<(), AllocError>
    ensures { OnOk result (string_bytes out.new ≡ string_bytes out.old ++ ended (size_line cert.now.columns cert.now.atoms cert.now.clauses)) }
{
    write!(
        out,
        "size {} {} {}\n",
        cert.columns, cert.atoms, cert.clauses
    )
}

fn put_lemmas(out: &mut String, lemmas: &[Lemma]) -> Result<(), AllocError>
    ensures { OnOk result (string_bytes out.new ≡ string_bytes out.old ++ text (numbered (λ j lemma. lemma_lines j (derived lemma)) 0 lemmas.now)) }
{
    for (i, lemma) in lemmas.iter().enumerate() {
        put_lemma(out, i, lemma)?;
    }
    Ok(())
}

fn put_lemma(out: &mut String, number: usize, lemma: &Lemma) -> Result<(), AllocError>
    ensures { OnOk result (string_bytes out.new ≡ string_bytes out.old ++ text (lemma_lines number (derived lemma.now))) }
{
    put_clause(out, number, lemma.clause.as_slice())?;
    put_tree(out, &lemma.proof)?;
    Ok(())
}

/// The line of a lemma's clause.
fn put_clause(out: &mut String, number: usize, lits: &[Lit]) -> Result<(), AllocError>
    ensures { OnOk result (string_bytes out.new ≡ string_bytes out.old ++ ended (lemma_line number lits.now)) }
{
    put_number(out, number)?;
    put_literals(out, lits)?;
    out.push_str("\n")?;
    Ok(())
}

/// The line of a lemma, up to its clause.
fn put_number(out: &mut String, number: usize) -> Result<(), AllocError>
    ensures { OnOk result (string_bytes out.new ≡ string_bytes out.old ++ line_of (lemma_line number [])) }
{
    write!(out, "lemma {}", number)
}

/// The literals, each behind a space.
pub(crate) fn put_literals(out: &mut String, lits: &[Lit]) -> Result<(), AllocError>
    ensures { OnOk result (string_bytes out.new ≡ string_bytes out.old ++ spaced (map literal_item lits.now)) }
{
    for lit in lits {
        put_literal(out, *lit)?;
    }
    Ok(())
}

fn put_literal(out: &mut String, lit: Lit) -> Result<(), AllocError>
    ensures { OnOk result (string_bytes out.new ≡ string_bytes out.old ++ (32 ∷ literal_item lit)) }
{
    if lit.positive {
        write!(out, " +{}", lit.atom)
    } else {
        write!(out, " -{}", lit.atom)
    }
}

/// The lines of a tree, in prefix order.
#[tactic(auto, unfolding(crate::specs::Spelling::tree_lines))]
fn put_tree(out: &mut String, tree: &Proof) -> Result<(), AllocError>
    ensures { OnOk result (string_bytes out.new ≡ string_bytes out.old ++ text (tree_lines (tree_of tree.now))) }
{
    match tree {
        Proof::Split { atom, yes, no } => {
            put_split(out, *atom)?;
            put_tree(out, yes)?;
            put_tree(out, no)
        }
        Proof::Farkas { parts } => put_farkas(out, parts.as_slice()),
        Proof::Clause { number } => put_cited(out, *number),
    }
}

fn put_split(out: &mut String, atom: u32) -> Result<(), AllocError>
    ensures { OnOk result (string_bytes out.new ≡ string_bytes out.old ++ ended (split_line atom)) }
{
    write!(out, "s {}\n", atom)
}

fn put_cited(out: &mut String, number: u32) -> Result<(), AllocError>
    ensures { OnOk result (string_bytes out.new ≡ string_bytes out.old ++ ended (clause_line number)) }
{
    write!(out, "c {}\n", number)
}

fn put_farkas(out: &mut String, parts: &[Part]) -> Result<(), AllocError>
    ensures { OnOk result (string_bytes out.new ≡ string_bytes out.old ++ ended (farkas_line parts.now)) }
{
    put_count(out, parts.len())?;
    put_parts(out, parts)?;
    out.push_str("\n")?;
    Ok(())
}

/// The line of a Farkas leaf, up to its parts.
fn put_count(out: &mut String, count: usize) -> Result<(), AllocError>
    ensures { OnOk result (string_bytes out.new ≡ string_bytes out.old ++ line_of (codes "f" ∷ decimal count ∷ [])) }
{
    write!(out, "f {}", count)
}

/// The parts, each item behind a space.
fn put_parts(out: &mut String, parts: &[Part]) -> Result<(), AllocError>
    ensures { OnOk result (string_bytes out.new ≡ string_bytes out.old ++ spaced (part_items parts.now)) }
{
    for part in parts {
        put_literal(out, part.lit)?;
        put_multiplier(out, part.mult)?;
    }
    Ok(())
}

fn put_multiplier(out: &mut String, mult: i128) -> Result<(), AllocError>
    ensures { OnOk result (string_bytes out.new ≡ string_bytes out.old ++ (32 ∷ signed_decimal mult)) }
{
    write!(out, " {}", mult)
}
