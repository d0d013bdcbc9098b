// What kinds open with, one function for each shape of head. Values are cast by `as`: `usize::from` is no plainer, and one more fact in each proof.
// Messages and signed words have their own tables of what follows kind and view, and share these: specs/Shapes.antt.
ghost use Rattle.std.specs.Prelude.{◌≡◌};
ghost use Rattle.wire.specs.Kinds.{kind_number};
ghost use Rattle.wire.specs.Messages.{sort_number};
ghost use Rattle.head.specs.Shapes.{Opened, Noted, Graded, Ranked, Carried, Entered};

use crate::number::Head;
use wire::field::{CHANGE, EARLIER, Field, NUMBER, RANK, SENDER, SORT, VIEW, ZERO, ZEROS};
use wire::kind::Kind;
use wire::message::{Content, Entry, Sort};

// Kind and view; two parameters, as a struct of both would be made at each call only to be taken apart here.
// Four bits, and not the field `KIND`: which kinds there are is said by each table.
fn opening(kind: Kind, view: u8) -> Option<Head>
    ensures { Opened (kind_number kind) view result }
{
    Head::EMPTY.field(4, of_kind(kind))?.of(VIEW, view as usize)
}

// The change that a view ends with.
pub fn noted(kind: Kind, view: u8, change: u8) -> Option<Head>
    ensures { Noted (kind_number kind) view change result }
{
    let head = opening(kind, view)?;
    head.of(ZERO, 0)?.of(CHANGE, change as usize)
}

// A rank.
pub fn ranked(kind: Kind, view: u8, rank: u8) -> Option<Head>
    ensures { Ranked (kind_number kind) view rank result }
{
    opening(kind, view)?.of(RANK, rank as usize)
}

// A rank and a change.
pub fn graded(kind: Kind, view: u8, rank: u8, change: u8) -> Option<Head>
    ensures { Graded (kind_number kind) view rank change result }
{
    ranked(kind, view, rank)?
        .of(ZEROS, 0)?
        .of(CHANGE, change as usize)
}

// A content: its sender, number, sort and length, but not the payload itself.
pub fn carried(kind: Kind, view: u8, content: Content<'_>) -> Option<Head>
    ensures { Carried (kind_number kind) view content.entry result }
{
    opening(kind, view)?
        .of(SENDER, content.sender as usize)?
        .of(NUMBER, content.number as usize)?
        .of(SORT, of_sort(content.sort))?
        .of(Field::length(content.sort), content.payload.len())
}

// An entry behind other fields.
pub fn entered(head: Head, entry: Entry) -> Option<Head>
    ensures { Entered head entry result }
{
    head.of(EARLIER, entry.earlier as usize)?
        .of(ZERO, 0)?
        .of(Field::entry_change(entry.earlier), entry.change as usize)
}

// A function: where the cast is an argument the proof does not know it as the kind's number, and would go through all 13 kinds.
fn of_kind(kind: Kind) -> usize
    ensures { result ≡ kind_number kind }
{
    kind as usize
}

// A function for the same reason.
fn of_sort(sort: Sort) -> usize
    ensures { result ≡ sort_number sort }
{
    sort as usize
}
