//! A clash: the fractions of a conflict become the whole multipliers of a leaf, by their least common denominator.

ghost use Rattle.std.specs.Prelude.{◌≡◌, ◌+◌, ◌<◌, ◌≤◌, ◌^◌, ℕ, ◌/◌, pos, ◌≤ℤ◌, ◌*ℤ◌, ◌⊎◌, List, map, length, All, unsigned_abs, true, IfOk, OnOk, IfErr, IfSome, OnSome, IfNone};
ghost use Rattle.whole.specs.Numbers.{IsWithin, gcd_of, lcm_of, overflows, whole};
ghost use Rattle.whole.specs.declared.answers.Op.TheVariants.{Product};
ghost use Rattle.whole.specs.declared.answers.Place.TheVariants.{Multiplier};
ghost use Rattle.clause_form.specs.Derivations.{SumsFit};
ghost use Rattle.simplex.specs.Shares.{AreShares, Weight};
ghost use Rattle.lra_theory.specs.Clashes.{AreOfClash, AnswersClash, HasSmallUnit, IsFarkas, IsOverflowingProduct, IsSoundPiece, IsStuckAfter, IsStuckLeaf, IsStuckMultiplier, IsStuckPart, IsTold, common, operation, part_of, parts_of, piece_of, unit_of};
ghost use Rattle.lra_theory.specs.Soundness.{IsGood};
ghost use Rattle.lra_theory.specs.Standings.{IfStuck, heard_of, lits_of};
ghost use Rattle.lra_theory.specs.States.{State};

use crate::fault::LraFault;
use crate::rows::Rows;
use crate::sums::sums_fit;
use crate::trail::Trail;
use clause_form::Heard;
use farkas_cert::{Lit, Part};
use ordered_field::OrderedField;
use simplex::Share;
use sqlite_items::Items;
use std::alloc::Global;
use whole::{NoMemory, Op, Pair, Place, Stuck, checked_fma, gcd, lcm};

/// A literal of a clash, its multiplier in lowest terms, and the denominator of its atom.
#[derive(Clone, Copy, Debug)]
pub(crate) struct Piece {
    pub(crate) lit: Lit,
    pub(crate) factor: Pair,
    pub(crate) den: i128,
}

/// The answer to a conflict with these shares.
pub(crate) fn answer<F: OrderedField>(
    alloc: Global,
    rows: &Rows,
    trail: &Trail,
    shares: &[Share<F>],
) -> Heard
    requires good { IsGood rows.now }
    requires told { All (IsTold rows.now (lits_of trail.now.told.items trail.now.refused)) shares.now }
    requires few { length shares.now ≤ 2049 }
    ensures { (s : State F) (ws : List Weight) → s.rows ≡ rows.now → s.told ≡ lits_of trail.now.told.items trail.now.refused
        → AreShares F.value ws shares.now → AreOfClash F.value s ws → IsFarkas rows.now s.told ws → AnswersClash F.value s result }
{
    match leaf(alloc, rows, trail, shares) {
        Ok(parts) => Heard::Clash(parts),
        Err(fault) => heard(fault),
    }
}

/// What a fault says to a search.
pub(crate) fn heard(fault: LraFault) -> Heard
    ensures { result ≡ heard_of fault }
{
    match fault {
        LraFault::Stuck(stuck) => Heard::Stuck(stuck),
        LraFault::NoMemory => Heard::NoMemory,
    }
}

// The parts of the leaf, in the order of the shares.
fn leaf<F: OrderedField>(
    alloc: Global,
    rows: &Rows,
    trail: &Trail,
    shares: &[Share<F>],
) -> Result<Items<Part>, LraFault>
    requires good { IsGood rows.now }
    requires told { All (IsTold rows.now (lits_of trail.now.told.items trail.now.refused)) shares.now }
    requires few { length shares.now ≤ 2049 }
    ensures parts { IfOk result (λ parts. parts ≡ parts_of (map (piece_of F.pair rows.now (lits_of trail.now.told.items trail.now.refused)) shares.now)) }
    ensures fit { IfOk result (SumsFit rows.now) }
    ensures stuck { IfErr result (λ fault. IfStuck fault (IsStuckLeaf rows.now (map (piece_of F.pair rows.now (lits_of trail.now.told.items trail.now.refused)) shares.now))) }
{
    let pieces = pieces(alloc, rows, trail, shares)?;
    whole_leaf(alloc, rows, pieces.as_slice())
}

fn pieces<F: OrderedField>(
    alloc: Global,
    rows: &Rows,
    trail: &Trail,
    shares: &[Share<F>],
) -> Result<Vec<Piece>, NoMemory>
    requires good { IsGood rows.now }
    requires told { All (IsTold rows.now (lits_of trail.now.told.items trail.now.refused)) shares.now }
    ensures pieces { IfOk result (λ pieces. pieces.items ≡ map (piece_of F.pair rows.now (lits_of trail.now.told.items trail.now.refused)) shares.now) }
    ensures sound { IfOk result (λ pieces. All IsSoundPiece pieces.items) }
{
    let mut pieces = Vec::new(alloc);
    for share in shares {
        pieces.push(piece_of_share(rows, trail, *share))?;
    }
    Ok(pieces)
}

fn piece_of_share<F: OrderedField>(rows: &Rows, trail: &Trail, share: Share<F>) -> Piece
    requires good { IsGood rows.now }
    requires told { IsTold rows.now (lits_of trail.now.told.items trail.now.refused) share }
    ensures piece { result ≡ piece_of F.pair rows.now (lits_of trail.now.told.items trail.now.refused) share }
    ensures sound { IsSoundPiece result }
{
    let lit = trail.lit_at(share.tag);
    let (num, den) = share.mult.parts();
    Piece {
        lit,
        factor: Pair { num, den },
        den: rows.den(lit),
    }
}

// The parts of these pieces, whose sums are tried.
fn whole_leaf(alloc: Global, rows: &Rows, pieces: &[Piece]) -> Result<Items<Part>, LraFault>
    requires good { IsGood rows.now }
    requires sound { All IsSoundPiece pieces.now }
    requires few { length pieces.now ≤ 2049 }
    ensures parts { IfOk result (λ parts. parts ≡ parts_of pieces.now) }
    ensures fit { IfOk result (SumsFit rows.now) }
    ensures stuck { IfErr result (λ fault. IfStuck fault (IsStuckLeaf rows.now pieces.now)) }
{
    let common = match common(pieces) {
        Ok(common) => common,
        Err(stuck) => return Err(LraFault::Stuck(stuck)),
    };
    let parts = parts(alloc, pieces, common)?;
    sums_fit(alloc, rows, parts.as_slice())?;
    Ok(parts)
}

// The least common denominator of all pieces.
fn common(pieces: &[Piece]) -> Result<i128, Stuck>
    requires sound { All IsSoundPiece pieces.now }
    requires few { length pieces.now ≤ 2049 }
    ensures exact { IfOk result (λ l. l ≡ pos (common 1 pieces.now)) }
    ensures within { IfOk result IsWithin }
    ensures some { IfOk result (λ l. pos 1 ≤ℤ l) }
    ensures units { OnOk result (All HasSmallUnit pieces.now) }
    ensures stuck { IfErr result (IsStuckMultiplier pieces.now) }
{
    let mut least = 1;
    for (position, piece) in pieces.iter().enumerate() {
        match raised(least, *piece, position as u32) {
            Ok(next) => least = next,
            Err(stuck) => return Err(stuck),
        }
    }
    Ok(least)
}

// The least common multiple with the unit of one more piece.
fn raised(least: i128, piece: Piece, position: u32) -> Result<i128, Stuck>
    requires within { IsWithin least }
    requires some { pos 1 ≤ℤ least }
    requires sound { IsSoundPiece piece }
    ensures exact { IfOk result (λ l. l ≡ pos (lcm_of (unsigned_abs least) (unit_of piece))) }
    ensures within { IfOk result IsWithin }
    ensures some { IfOk result (λ l. pos 1 ≤ℤ l) }
    ensures unit { OnOk result (HasSmallUnit piece) }
    ensures stuck { IfErr result (IsStuckAfter (unsigned_abs least) piece position) }
{
    match unit(piece) {
        Some(unit) => raised_by(least, unit, piece, position),
        None => Err(overflowing(piece, position, piece.factor.den, piece.den)),
    }
}

// The same with the unit itself.
fn raised_by(least: i128, unit: i128, piece: Piece, position: u32) -> Result<i128, Stuck>
    requires within { IsWithin least }
    requires some { pos 1 ≤ℤ least }
    requires unit_within { IsWithin unit }
    requires unit_some { pos 1 ≤ℤ unit }
    ensures exact { IfOk result (λ l. l ≡ pos (lcm_of (unsigned_abs least) (unsigned_abs unit))) }
    ensures within { IfOk result IsWithin }
    ensures some { IfOk result (λ l. pos 1 ≤ℤ l) }
    ensures stuck { IfErr result (IsOverflowingProduct piece position
        (pos (unsigned_abs least / gcd_of (unsigned_abs least) (unsigned_abs unit))) (pos (unsigned_abs unit))) }
{
    match lcm(least, unit) {
        Some(multiple) => Ok(multiple),
        None => Err(overflowing(
            piece,
            position,
            quotient(least, common_divisor(least, unit)),
            unit,
        )),
    }
}

// The greatest common divisor of two numbers above 0.
#[tactic(auto, using(whole::proofs::Overflow::signed))]
fn common_divisor(left: i128, right: i128) -> i128
    requires left { IsWithin left }
    requires left_some { pos 1 ≤ℤ left }
    requires right { IsWithin right }
    ensures exact { result ≡ pos (gcd_of (unsigned_abs left) (unsigned_abs right)) }
    ensures some { pos 1 ≤ℤ result }
    ensures within { IsWithin result }
{
    gcd(left, right)
}

// The quotient of two numbers above 0, rounded down.
#[tactic(auto, using(whole::proofs::Overflow::signed))]
fn quotient(left: i128, right: i128) -> i128
    requires left { pos 1 ≤ℤ left }
    requires within { IsWithin left }
    requires right { pos 1 ≤ℤ right }
    ensures exact { result ≡ pos (unsigned_abs left / unsigned_abs right) }
    ensures within { IsWithin result }
{
    left / right
}

// The denominator of a piece's factor times that of its atom.
fn unit(piece: Piece) -> Option<i128>
    requires sound { IsSoundPiece piece }
    ensures exact { IfSome result (λ unit. unit ≡ pos (unit_of piece)) }
    ensures within { IfSome result IsWithin }
    ensures some { IfSome result (λ unit. pos 1 ≤ℤ unit) }
    ensures kept { OnSome result (HasSmallUnit piece) }
    ensures overflows { IfNone result (overflows (piece.factor.den *ℤ piece.den) ≡ true) }
{
    product(piece.factor.den, piece.den)
}

// The parts over a common denominator.
fn parts(alloc: Global, pieces: &[Piece], common: i128) -> Result<Items<Part>, LraFault>
    requires sound { All IsSoundPiece pieces.now }
    requires units { All HasSmallUnit pieces.now }
    requires few { length pieces.now ≤ 2049 }
    requires within { IsWithin common }
    requires some { pos 1 ≤ℤ common }
    ensures parts { IfOk result (λ parts. parts ≡ map (part_of (unsigned_abs common)) pieces.now) }
    ensures mults { IfOk result (All (λ p. IsWithin p.mult)) }
    ensures stuck { IfErr result (λ fault. IfStuck fault (IsStuckPart (unsigned_abs common) pieces.now)) }
{
    let mut parts = Items::new(alloc);
    for (position, piece) in pieces.iter().enumerate() {
        match part(*piece, position as u32, common) {
            Ok(part) => parts.push(part)?,
            Err(stuck) => return Err(LraFault::Stuck(stuck)),
        }
    }
    Ok(parts)
}

// The part of a piece.
fn part(piece: Piece, position: u32, common: i128) -> Result<Part, Stuck>
    requires sound { IsSoundPiece piece }
    requires unit { HasSmallUnit piece }
    requires within { IsWithin common }
    requires some { pos 1 ≤ℤ common }
    ensures exact { IfOk result (λ part. part ≡ part_of (unsigned_abs common) piece) }
    ensures mult { IfOk result (λ part. IsWithin part.mult) }
    ensures stuck { IfErr result (IsOverflowingProduct piece position piece.factor.num (pos (unsigned_abs common / unit_of piece))) }
{
    match unit(piece) {
        Some(unit) => times(piece, position, quotient(common, unit)),
        None => unreachable!(),
    }
}

// The part of a piece whose numerator counts so often.
fn times(piece: Piece, position: u32, count: i128) -> Result<Part, Stuck>
    requires num { IsWithin piece.factor.num }
    requires count { IsWithin count }
    ensures exact { IfOk result (λ part. part ≡ record { lit = piece.lit; mult = piece.factor.num *ℤ count }) }
    ensures mult { IfOk result (λ part. IsWithin part.mult) }
    ensures stuck { IfErr result (IsOverflowingProduct piece position piece.factor.num count) }
{
    match product(piece.factor.num, count) {
        Some(mult) => Ok(Part {
            lit: piece.lit,
            mult,
        }),
        None => Err(overflowing(piece, position, piece.factor.num, count)),
    }
}

// The product of two whole numbers, where it doesn't pass.
#[tactic(auto, using(whole::proofs::Overflow::signed))]
fn product(left: i128, right: i128) -> Option<i128>
    requires left { IsWithin left }
    requires right { IsWithin right }
    ensures exact { result ≡ whole (left *ℤ right) }
{
    checked_fma(0, left, right)
}

// The product of two whole numbers at the position of a piece.
fn overflowing(piece: Piece, position: u32, left: i128, right: i128) -> Stuck
    ensures { result ≡ operation Multiplier piece.lit.atom position Product left right }
{
    Stuck {
        place: Place::Multiplier,
        at: piece.lit.atom,
        by: position,
        op: Op::Product,
        left: Pair { num: left, den: 1 },
        right: Pair { num: right, den: 1 },
    }
}
