//! What was read of a pattern.

ghost use Rattle.std.specs.Prelude.{◌≡◌, IfOk};
ghost use Rattle.waf_model.specs.PatternPieces as pieces;
ghost use Rattle.pattern_read.specs.Machine.{moved};
ghost use Rattle.pattern_read.specs.Seen.{piece_of};

use crate::group::{Atom, Group};
use crate::piece::Piece;
use std::alloc::Global;
use waf_model::{Items, Memory, Pattern};

/// Groups are nested so deep at most.
const DEEPEST: usize = 100;

/// The groups that aren't closed yet, the outermost first, and the innermost of them.
#[derive(Drop)]
pub(crate) struct State {
    pub(crate) outer: Items<Group>,
    pub(crate) group: Group,
}

/// The state with the group's pattern as an atom of the group around it, where there is one.
fn closed_group(state: State) -> Result<Option<State>, Memory>
    ensures { IfOk result (λ next. next ≡ moved state pieces.closes) }
{
    let State { mut outer, group } = state;
    let Some(around) = outer.pop() else {
        return Ok(None);
    };
    let group = around.add_atom(group.close()?)?;
    Ok(Some(State { outer, group }))
}

/// The state with a group more, where it isn't too deep.
fn opened_group(alloc: Global, state: State) -> Result<Option<State>, Memory>
    ensures { IfOk result (λ next. next ≡ moved state pieces.opens) }
{
    let State { mut outer, group } = state;
    if outer.len() >= DEEPEST {
        return Ok(None);
    }
    outer.push(group)?;
    Ok(Some(State {
        outer,
        group: Group::new(alloc),
    }))
}

/// The state after a piece, or nothing where the piece may not stand there.
pub(crate) fn state_after(
    alloc: Global,
    state: State,
    piece: Piece,
) -> Result<Option<State>, Memory>
    ensures { IfOk result (λ next. next ≡ moved state (piece_of piece)) }
{
    let State { outer, group } = state;
    let group = match piece {
        Piece::Open => return opened_group(alloc, State { outer, group }),
        Piece::Close => return closed_group(State { outer, group }),
        Piece::Set(bytes) => group.add_atom(Atom {
            pattern: Pattern::Set(bytes),
            places: 1,
        })?,
        Piece::Start => group.add_anchor(Pattern::Start)?,
        Piece::Final => group.add_anchor(Pattern::Final)?,
        Piece::Bar => group.add_bar(alloc)?,
        Piece::Count(times) => match group.add_count(alloc, times)? {
            Some(group) => group,
            None => return Ok(None),
        },
    };
    Ok(Some(State { outer, group }))
}
