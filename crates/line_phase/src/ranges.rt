//! One outcome of a range that is put or fetched piece by piece.

ghost use Rattle.std.specs.Prelude.{◌≡◌, ◌+◌, ◌-◌, ◌<◌, ◌≤◌, min, length, IfOk, IfErr, vec_len, vec_capacity};
ghost use Rattle.argo_model.specs.declared.action.Outcome.TheVariants.{Bytes};
ghost use Rattle.argo_model.specs.Rules.Access.{outcome_unseen};
ghost use Rattle.line_phase.specs.Cursor.{IsSound, pieces_left};
ghost use Rattle.line_phase.specs.Ranges.{Advances, PutMoves, FetchMoves, IsNearer, CountsBytes, HasRoomFor, GivesFirst};

use crate::cursor::Cursor;
use argo_model::{Outcome, Unseen};

/// What an outcome of the first piece of a range comes to.
#[derive(Clone, Copy, Debug)]
pub enum Moved {
    /// The rest of the range is to come.
    More,
    /// It was the last piece.
    Whole,
    /// The page is not there.
    Failed,
    /// The caller's domain is gone.
    Ended,
}

/// Moves a range that is put on by an outcome of its first piece.
pub fn put_moved(rest: &mut Cursor, outcome: &Outcome) -> Moved
    requires some { 0 < rest.old.left }
    requires sound { IsSound rest.old }
    ensures moves { PutMoves rest.old outcome.now result rest.new }
    ensures nearer { IsNearer result rest.old rest.new }
{
    match outcome {
        Outcome::Done => advance(rest),
        Outcome::Gone => Moved::Ended,
        _ => Moved::Failed,
    }
}

/// Moves a range that is fetched on by an outcome of its first piece. What was fetched so far, `got`, has room for the piece.
pub fn fetch_moved(rest: &mut Cursor, got: &mut Vec<u8>, outcome: &Outcome) -> Moved
    requires some { 0 < rest.old.left }
    requires sound { IsSound rest.old }
    requires room { HasRoomFor rest.old got.old }
    requires first { GivesFirst rest.old outcome.now }
    ensures moves { FetchMoves rest.old got.old.items outcome.now result rest.new got.new.items }
    ensures nearer { IsNearer result rest.old rest.new }
    ensures counted { CountsBytes result rest.old got.old.items rest.new got.new.items }
{
    match outcome {
        Outcome::Bytes(bytes) => {
            got.extend_from_slice(bytes.as_slice()).unwrap();
            advance(rest)
        }
        Outcome::Gone => Moved::Ended,
        _ => Moved::Failed,
    }
}

/// As `fetch_moved`, with the bytes of the first piece where they stand, or why there are none.
pub fn seen_moved(rest: &mut Cursor, got: &mut Vec<u8>, seen: Result<&[u8], Unseen>) -> Moved
    requires some { 0 < rest.old.left }
    requires sound { IsSound rest.old }
    requires room { HasRoomFor rest.old got.old }
    requires first { IfOk seen (λ bytes. GivesFirst rest.old (Bytes bytes.now)) }
    ensures bytes { IfOk seen.entry (λ bytes. FetchMoves rest.old got.old.items (Bytes bytes.now)
        result rest.new got.new.items) }
    ensures unseen { IfErr seen.entry (λ u. FetchMoves rest.old got.old.items (outcome_unseen u)
        result rest.new got.new.items) }
    ensures nearer { IsNearer result rest.old rest.new }
    ensures counted { CountsBytes result rest.old got.old.items rest.new got.new.items }
{
    match seen {
        Ok(bytes) => {
            got.extend_from_slice(bytes).unwrap();
            advance(rest)
        }
        Err(unseen) => match unseen {
            Unseen::Fault => Moved::Failed,
            Unseen::Gone => Moved::Ended,
        },
    }
}

// Leaves the first piece behind.
fn advance(rest: &mut Cursor) -> Moved
    requires some { 0 < rest.old.left }
    requires sound { IsSound rest.old }
    ensures { Advances rest.old result rest.new }
{
    let (_, later) = rest.split_first();
    *rest = later;
    if later.left == 0 {
        Moved::Whole
    } else {
        Moved::More
    }
}
