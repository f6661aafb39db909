//! The kinds of join, with JOIN itself.

ghost use Rattle.std.specs.Prelude.{◌≡◌, MatchOption, IfErr};
ghost use Rattle.aqe_trees.specs.Follow.{binds_at};
ghost use Rattle.aqe_trees.specs.Queries.{IsKind};
ghost use Rattle.aqe_syntax.specs.Parts.{IsOuterJoin, IsLeftKind};

use crate::words::pair;
use aqe_base::JoinKind;
use aqe_reader::ReadFault;
use aqe_reader::cursor::eat;
use aqe_trees::{Key, Terminal};

/// The kind of join that comes first, and what stands behind its JOIN.
pub fn kind(terminals: &[Terminal]) -> Option<(JoinKind, &[Terminal])>
    ensures { MatchOption result
        ((a : _) (us : _) → IsKind a terminals.now us → ⊥)
        (λ x. IsKind x.0 terminals.now x.1.now) }
{
    if let Some(rest) = eat(terminals, Key::Left) {
        return left_join(rest);
    }
    if let Some(rest) = eat(terminals, Key::Right) {
        return outer_join(JoinKind::RightOuter, rest);
    }
    if let Some(rest) = eat(terminals, Key::Full) {
        return outer_join(JoinKind::FullOuter, rest);
    }
    if let Some(rest) = eat(terminals, Key::Join) {
        return Some((JoinKind::Inner, rest));
    }
    if let Some(rest) = pair(terminals, Key::Inner, Key::Join) {
        return Some((JoinKind::Inner, rest));
    }
    if let Some(rest) = pair(terminals, Key::Cross, Key::Join) {
        return Some((JoinKind::Cross, rest));
    }
    if let Some(rest) = pair(terminals, Key::Semi, Key::Join) {
        return Some((JoinKind::LeftSemi, rest));
    }
    if let Some(rest) = pair(terminals, Key::Anti, Key::Join) {
        return Some((JoinKind::LeftAnti, rest));
    }
    None
}

/// The kind of join behind LEFT, and what stands behind its JOIN.
fn left_join(terminals: &[Terminal]) -> Option<(JoinKind, &[Terminal])>
    ensures { MatchOption result
        ((a : _) (us : _) → IsLeftKind a terminals.now us → ⊥)
        (λ x. IsLeftKind x.0 terminals.now x.1.now) }
{
    if let Some(rest) = pair(terminals, Key::Semi, Key::Join) {
        return Some((JoinKind::LeftSemi, rest));
    }
    if let Some(rest) = pair(terminals, Key::Anti, Key::Join) {
        return Some((JoinKind::LeftAnti, rest));
    }
    outer_join(JoinKind::LeftOuter, terminals)
}

/// The kind as it is given, and what stands behind JOIN, which OUTER may precede.
fn outer_join(kind: JoinKind, terminals: &[Terminal]) -> Option<(JoinKind, &[Terminal])>
    ensures { MatchOption result
        ((us : _) → IsOuterJoin terminals.now us → ⊥)
        (λ x. (x.0 ≡ kind) × IsOuterJoin terminals.now x.1.now) }
{
    if let Some(rest) = eat(terminals, Key::Join) {
        return Some((kind, rest));
    }
    if let Some(rest) = pair(terminals, Key::Outer, Key::Join) {
        return Some((kind, rest));
    }
    None
}

/// What stands behind OUTER, where it comes first.
fn behind_outer(terminals: &[Terminal]) -> &[Terminal] {
    match eat(terminals, Key::Outer) {
        Some(rest) => rest,
        None => terminals,
    }
}

/// What stands behind OUTER, SEMI or ANTI, where one of them comes first.
fn behind_side(terminals: &[Terminal]) -> &[Terminal] {
    if let Some(rest) = eat(terminals, Key::Semi) {
        return rest;
    }
    match eat(terminals, Key::Anti) {
        Some(rest) => rest,
        None => behind_outer(terminals),
    }
}

/// The place at which a kind of join that begins here breaks off, where its JOIN is wanting.
pub fn no_join(terminals: &[Terminal]) -> Result<(), ReadFault>
    ensures { IfErr result (λ _. binds_at terminals.now ≡ 10) }
{
    if let Some(rest) = eat(terminals, Key::Left) {
        return Err(ReadFault::at(behind_side(rest)));
    }
    if let Some(rest) = eat(terminals, Key::Right) {
        return Err(ReadFault::at(behind_outer(rest)));
    }
    if let Some(rest) = eat(terminals, Key::Full) {
        return Err(ReadFault::at(behind_outer(rest)));
    }
    if let Some(rest) = eat(terminals, Key::Inner) {
        return Err(ReadFault::at(rest));
    }
    if let Some(rest) = eat(terminals, Key::Cross) {
        return Err(ReadFault::at(rest));
    }
    if let Some(rest) = eat(terminals, Key::Semi) {
        return Err(ReadFault::at(rest));
    }
    if let Some(rest) = eat(terminals, Key::Anti) {
        return Err(ReadFault::at(rest));
    }
    Ok(())
}
