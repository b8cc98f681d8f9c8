//! A range that is fetched, piece by piece.

ghost use Rattle.std.specs.Prelude.{◌≡◌, ◌<◌, List, ℕ, [], length, IsTrue};
ghost use Rattle.argo_model.specs.Programs.Asks.{Do, Rests};
ghost use Rattle.argo_model.specs.Rules.Fit.{is_fit};
ghost use Rattle.line_phase.specs.Cursor.{pieces_left, IsSound};
ghost use Rattle.line_phase.specs.Followed.{IsWhole, Reads, ReadsTo};
ghost use Rattle.line_phase.specs.Ranges.{FetchesFirst, IsOver};
ghost use Rattle.line_phase.specs.Reader.{HasSize, IsReader};

use crate::cursor::Cursor;
use crate::phase::{Followed, Phase, Reader};
use crate::ranges::Moved;
use argo_model::{Action, Reply};
use std::alloc::Global;
use std::mem;

/// The phase at which a range is to be fetched.
pub fn reading(alloc: Global, rest: Cursor, reader: Reader) -> Phase
    requires some { 0 < rest.left }
    requires sound { IsSound rest }
    requires size { HasSize rest.left reader }
    requires ready { IsReader reader }
    ensures { Reads (pieces_left rest) reader result }
{
    reading_into(Vec::new(alloc), rest, reader)
}

/// As `reading`, into memory that is there already.
pub(crate) fn reading_into(memory: Vec<u8>, rest: Cursor, reader: Reader) -> Phase
    requires some { 0 < rest.left }
    requires sound { IsSound rest }
    requires size { HasSize rest.left reader }
    requires ready { IsReader reader }
    ensures { Reads (pieces_left rest) reader result }
{
    let mut got = memory;
    got.clear();
    Phase::Reading { rest, got, reader }
}

/// The fetch of the first piece of what is left of a range.
pub fn fetch_first(rest: Cursor) -> Action
    requires some { 0 < rest.left }
    requires sound { IsSound rest }
    ensures is { FetchesFirst rest result }
    ensures fit { IsTrue (is_fit result) }
{
    let (piece, _) = rest.split_first();
    Action::Fetch {
        page: piece.page,
        off: piece.off,
        n: piece.n,
    }
}

/// Where a line goes that fetches, once an outcome has moved it past its last piece.
#[inline(always)]
pub fn read_on(alloc: Global, got: &mut Vec<u8>, reader: &mut Reader, moved: Moved) -> Followed
    requires over { IsOver moved }
    requires ready { IsReader reader.old }
    requires size { IsWhole moved (length got.old.items) reader.old }
    ensures { ReadsTo moved got.old.items reader.old result }
{
    match moved {
        Moved::More => unreachable!(),
        Moved::Whole => {
            let reader = mem::replace(reader, Reader::Show);
            let got = mem::replace(got, Vec::new(alloc));
            reader.used(alloc, got)
        }
        Moved::Failed => {
            let reader = mem::replace(reader, Reader::Show);
            reader.failed()
        }
        Moved::Ended => Followed::Over(Reply::Gone),
    }
}
