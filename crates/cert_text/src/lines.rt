// One line of a certificate.
ghost use Rattle.std.specs.Prelude.{◌≡◌, pos, [], map, length, Ok, Err, IfOk, MatchResult};
ghost use Rattle.std.proofs.Common.{refl};
ghost use Rattle.std.specs.Str.{bytes_eq};
ghost use Rattle.text_lines.specs.Pieces.{pieces};
ghost use Rattle.text_lines.specs.Steps.{Gives, each};
ghost use Rattle.text_machine.specs.Items.{literal, place_among, one_of};
ghost use Rattle.text_machine.specs.Lines.{read_line, take, take_all};
ghost use Rattle.text_machine.specs.Scripts.{GivesAs};
ghost use Rattle.text_machine.specs.Given.{Reads, GivesLine, GivesItems};
ghost use Rattle.cert_text.specs.declared.wants.Want.{Want};
ghost use Rattle.cert_text.specs.Rules.{refusal, blame, rule_of, size_rule, next_rule, node_rule, deep_rule, index_limit, words, header_form, size_form, lemma_form, end_form, index_form, farkas_form, next_form, node_form, deep_form, form_of, form_read, line_read};
ghost use Rattle.cert_text.specs.Tables.{lit_number, clause_numbers, farkas_numbers, one_number, line_numbers, IsNode, MayStand, part_at, place_of, GivesRead};

use crate::wants::{Line, Want};
use farkas_cert::{Lit, Lits, Part};
use sqlite_items::Items;
use std::alloc::Global;
use text_machine::{Fault, Fields, LineFault, literal_of};
use whole::{ReadFault, Refusal};

/// Atoms, clauses, counts and sizes are below this.
const INDEX_LIMIT: u64 = 1 << 32;
/// Multipliers are below this.
const MULTIPLIER_LIMIT: u128 = 1 << 127;
/// A node stands below at most so many splits.
const DEEPEST: u32 = 4096;

/// The word with which a line begins.
#[derive(Clone, Copy, Debug, PartialEq, Eq)]
pub(crate) enum Keyword {
    Lemma,
    End,
    Split,
    Clause,
    Farkas,
}

/// The refusal by the rule F of this number.
pub(crate) fn refusal(number: u8, line: u32) -> Refusal
    ensures { result ≡ refusal number line }
{
    Refusal {
        letter: b'F',
        number,
        line,
    }
}

/// What the line says, without its LF, where this is wanted; where it may not stand there, the first rule that it
/// breaks, from the left, with `number` as its line.
#[tactic(auto, unfolding(crate::specs::Rules::line_read, crate::specs::Rules::form_of))]
pub fn read_line(alloc: Global, line: &[u8], number: u32, want: Want) -> Result<Line, ReadFault>
    ensures exact { GivesRead (line_numbers want) result (line_read want number line.now) }
    ensures may_stand { IfOk result (MayStand want) }
{
    match line_of(alloc, line, want) {
        Ok(found) => Ok(found),
        Err(LineFault::Item(fault)) => Err(ReadFault::Refused(blame(want, number, fault))),
        Err(LineFault::NoMemory) => Err(ReadFault::NoMemory),
    }
}

/// The refusal of a line with this fault.
fn blame(want: Want, line: u32, fault: Fault) -> Refusal
    ensures { result ≡ blame want line fault }
{
    refusal(rule_of(want, fault), line)
}

#[tactic(auto, unfolding(crate::specs::Rules::rule_of))]
fn rule_of(want: Want, fault: Fault) -> u8
    ensures { result ≡ rule_of want fault }
{
    match want {
        Want::Header => 1,
        Want::Size => size_rule(fault),
        Want::Next { .. } => next_rule(fault),
        Want::Node { depth } if depth <= DEEPEST => node_rule(fault),
        Want::Node { .. } => deep_rule(fault),
        Want::Nothing => 9,
    }
}

fn size_rule(fault: Fault) -> u8
    ensures { result ≡ size_rule fault }
{
    match fault {
        Fault::Large => 6,
        _ => 2,
    }
}

fn next_rule(fault: Fault) -> u8
    ensures { result ≡ next_rule fault }
{
    match fault {
        Fault::Large => 6,
        Fault::Misplaced => 7,
        Fault::Early => 9,
        _ => 3,
    }
}

fn node_rule(fault: Fault) -> u8
    ensures { result ≡ node_rule fault }
{
    match fault {
        Fault::Negative => 4,
        Fault::Large => 6,
        Fault::Misplaced => 7,
        _ => 5,
    }
}

fn deep_rule(fault: Fault) -> u8
    ensures { result ≡ deep_rule fault }
{
    match fault {
        Fault::Misplaced => 7,
        _ => 6,
    }
}

/// What the line says, where this is wanted.
#[tactic(auto, unfolding(crate::specs::Rules::form_of, crate::specs::Tables::line_numbers, crate::specs::Tables::MayStand))]
fn line_of(alloc: Global, line: &[u8], want: Want) -> Result<Line, LineFault>
    ensures exact { GivesLine (line_numbers want) result (form_read (form_of want) (pieces 32 line.now)) }
    ensures may_stand { IfOk result (MayStand want) }
{
    match want {
        Want::Header => Ok(header_of(line)?),
        Want::Size => Ok(size_of(line)?),
        Want::Next { lemma } => next_of(alloc, line, lemma),
        Want::Node { depth } if depth <= DEEPEST => node_of(alloc, line),
        Want::Node { .. } => Err(LineFault::Item(deep_of(line))),
        Want::Nothing => Err(LineFault::Item(Fault::Misplaced)),
    }
}

#[tactic(auto, unfolding(text_machine::specs::Lines::read_line, crate::specs::Tables::line_numbers, crate::specs::Tables::MayStand))]
fn header_of(line: &[u8]) -> Result<Line, Fault>
    ensures exact { Reads (line_numbers Want.Header) result (read_line header_form (pieces 32 line.now)) }
    ensures may_stand { IfOk result (MayStand Want.Header) }
{
    let mut fields = Fields::of(line);
    fields.word(b"ccac-cert")?;
    let version = fields.natural(1, 1)?;
    fields.end()?;
    Ok(Line::Header { version })
}

#[tactic(auto, unfolding(text_machine::specs::Lines::read_line, crate::specs::Tables::line_numbers, crate::specs::Tables::MayStand))]
fn size_of(line: &[u8]) -> Result<Line, Fault>
    ensures exact { Reads (line_numbers Want.Size) result (read_line size_form (pieces 32 line.now)) }
    ensures may_stand { IfOk result (MayStand Want.Size) }
{
    let mut fields = Fields::of(line);
    fields.word(b"size")?;
    let columns = fields.index(INDEX_LIMIT)?;
    let atoms = fields.index(INDEX_LIMIT)?;
    let clauses = fields.index(INDEX_LIMIT)?;
    fields.end()?;
    Ok(Line::Size {
        columns,
        atoms,
        clauses,
    })
}

/// The next lemma, or the end.
#[tactic(auto, unfolding(text_machine::specs::Lines::read_line, crate::specs::Tables::line_numbers, crate::specs::Tables::MayStand))]
fn next_of(alloc: Global, line: &[u8], lemma: u32) -> Result<Line, LineFault>
    ensures exact { GivesLine (line_numbers (Want.Next lemma)) result (read_line (next_form lemma) (pieces 32 line.now)) }
    ensures may_stand { IfOk result (MayStand (Want.Next lemma)) }
{
    let mut fields = Fields::of(line);
    match first_word(&mut fields)? {
        Keyword::Lemma => Ok(Line::Lemma(clause_of(alloc, &mut fields, lemma)?)),
        Keyword::End => {
            last_of(&mut fields, lemma)?;
            Ok(Line::End)
        }
        Keyword::Split | Keyword::Clause | Keyword::Farkas => Err(LineFault::Item(
            Fault::Misplaced,
        )),
    }
}

/// A node.
#[tactic(auto, unfolding(text_machine::specs::Lines::read_line, crate::specs::Tables::line_numbers))]
fn node_of(alloc: Global, line: &[u8]) -> Result<Line, LineFault>
    ensures exact { (want : Want) → GivesLine (line_numbers want) result (read_line node_form (pieces 32 line.now)) }
    ensures may_stand { IfOk result IsNode }
{
    let mut fields = Fields::of(line);
    match first_word(&mut fields)? {
        Keyword::Split => Ok(Line::Split(index_of(&mut fields)?)),
        Keyword::Clause => Ok(Line::Clause(index_of(&mut fields)?)),
        Keyword::Farkas => Ok(Line::Farkas(parts_of(alloc, &mut fields)?)),
        Keyword::Lemma | Keyword::End => Err(LineFault::Item(Fault::Misplaced)),
    }
}

/// What is wrong with a line where no node may stand, since it would be too deep.
#[tactic(auto, unfolding(text_machine::specs::Lines::read_line))]
fn deep_of(line: &[u8]) -> Fault
    ensures { read_line deep_form (pieces 32 line.now) ≡ Err result }
{
    let mut fields = Fields::of(line);
    let word = match first_word(&mut fields) {
        Ok(word) => word,
        Err(fault) => return fault,
    };
    match word {
        Keyword::Lemma | Keyword::End => Fault::Misplaced,
        Keyword::Split | Keyword::Clause | Keyword::Farkas => Fault::Form,
    }
}

/// Takes one of the words.
#[tactic(auto, unfolding(text_machine::specs::Lines::take, text_machine::specs::Items::read_item))]
fn first_word(fields: &mut Fields<'_>) -> Result<Keyword, Fault>
    ensures { GivesAs (λ found. pos (place_of found)) result fields.new (take (one_of words refl) fields.old) }
{
    let item = fields.next_item().ok_or(Fault::Form)?;
    keyword_named(item)
}

fn keyword_named(item: &[u8]) -> Result<Keyword, Fault>
    ensures { MatchResult result (λ found. place_among words item.now ≡ Ok (place_of found)) (λ fault. place_among words item.now ≡ Err fault) }
{
    if is_word(item, b"lemma") {
        Ok(Keyword::Lemma)
    } else if is_word(item, b"end") {
        Ok(Keyword::End)
    } else if is_word(item, b"s") {
        Ok(Keyword::Split)
    } else if is_word(item, b"c") {
        Ok(Keyword::Clause)
    } else if is_word(item, b"f") {
        Ok(Keyword::Farkas)
    } else {
        Err(Fault::Form)
    }
}

fn is_word(item: &[u8], word: &[u8]) -> bool
    ensures { result ≡ bytes_eq item.now word.now }
{
    item == word
}

/// The clause of this lemma.
#[tactic(auto, unfolding(text_machine::specs::Lines::read_line))]
fn clause_of(alloc: Global, fields: &mut Fields<'_>, lemma: u32) -> Result<Lits, LineFault>
    ensures { GivesLine (clause_numbers lemma) result (read_line (lemma_form lemma) fields.old) }
{
    fields.natural(lemma, lemma)?;
    literals(alloc, fields)
}

/// All literals that are left.
fn literals(alloc: Global, fields: &mut Fields<'_>) -> Result<Lits, LineFault>
    ensures { GivesLine (map lit_number) result (take_all (literal index_limit) fields.old) }
{
    let mut lits = Vec::new(alloc);
    while let Some(item) = fields.next_item() {
        let found = literal_of(item, INDEX_LIMIT)?;
        lits.push(Lit {
            atom: found.atom,
            positive: found.positive,
        })?;
    }
    Ok(Lits::from_vec(lits))
}

/// Nothing behind `end`, where a lemma stands before it.
#[tactic(auto, unfolding(text_machine::specs::Lines::read_line, text_machine::specs::Lines::take_end))]
fn last_of(fields: &mut Fields<'_>, lemma: u32) -> Result<(), Fault>
    ensures { Reads (λ _. []) result (read_line (end_form lemma) fields.old) }
{
    match fields.next_item() {
        Some(_) => Err(Fault::Form),
        None if lemma == 0 => Err(Fault::Early),
        None => Ok(()),
    }
}

/// One number, with nothing behind it.
#[tactic(auto, unfolding(text_machine::specs::Lines::read_line))]
fn index_of(fields: &mut Fields<'_>) -> Result<u32, Fault>
    ensures { Reads one_number result (read_line index_form fields.old) }
{
    let number = fields.index(INDEX_LIMIT)?;
    fields.end()?;
    Ok(number)
}

/// The parts of a leaf, with nothing behind them.
#[tactic(auto, using(crate::proofs::LineLaws::pairs_reads), unfolding(text_machine::specs::Lines::read_line))]
fn parts_of(alloc: Global, fields: &mut Fields<'_>) -> Result<Items<Part>, LineFault>
    ensures { GivesLine farkas_numbers result (read_line farkas_form fields.old) }
{
    let count = fields.index(INDEX_LIMIT)?;
    let parts = so_many_parts(alloc, fields, count)?;
    fields.end()?;
    Ok(parts)
}

/// So many parts of a leaf.
fn so_many_parts(
    alloc: Global,
    fields: &mut Fields<'_>,
    count: u32,
) -> Result<Items<Part>, LineFault>
    ensures exact { GivesItems result fields.new (each (λ _. part_at) count 0 fields.old) }
    ensures counted { IfOk result (λ parts. length parts ≡ count) }
{
    let mut parts = Items::new(alloc);
    for _ in 0..count {
        let part = part_of(fields)?;
        parts.push(part)?;
    }
    Ok(parts)
}

/// A literal and its multiplier.
#[tactic(auto, using(std::proofs::lemmas::Int::to_z_pos), unfolding(crate::specs::Tables::part_at))]
fn part_of(fields: &mut Fields<'_>) -> Result<Part, Fault>
    ensures { Gives result fields.new (part_at fields.old) }
{
    let lit = lit_of(fields)?;
    let mult = fields.below(MULTIPLIER_LIMIT)?;
    Ok(Part {
        lit,
        mult: mult as i128,
    })
}

fn lit_of(fields: &mut Fields<'_>) -> Result<Lit, Fault>
    ensures { GivesAs lit_number result fields.new (take (literal index_limit) fields.old) }
{
    let found = fields.literal(INDEX_LIMIT)?;
    Ok(Lit {
        atom: found.atom,
        positive: found.positive,
    })
}
