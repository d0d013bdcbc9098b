// What a counted message leaves of the leader.
// Words of the contracts: specs of crate row, Effects.antt.
ghost use Rattle.std.specs.Prelude.{◌≡◌, ◌<◌, true, length, slice_set};
ghost use Rattle.row.specs.Rows.{tells, proves};
ghost use Rattle.row.specs.States.{counted, place_of};
ghost use Rattle.row.specs.Effects.{gained, told};
ghost use Rattle.counting.specs.Counts.{Tellable};

use row::state::{Count, Leader, Slot};
use seats::insert;
use wire::message::Entry;

// The count with one board more, and its tag. Board and tag stay two: a struct of both would be made of a message only to be taken apart here.
// Places are cast by `as` in this file: `usize::from` is no plainer, and one more fact to cite in each proof.
fn counted(count: &Count, board: u8, tag: u64) -> Count
    requires { board < 8 }
    ensures { result ≡ counted count.now board tag }
{
    let mut tags = count.tags;
    tags[board as usize] = tag;
    Count {
        set: insert(count.set, board),
        tags,
    }
}

// The leader with one message more in a slot before that of the lasts.
pub(crate) fn gained(leader: &Leader, slot: Slot, board: u8, tag: u64) -> Leader
    requires { (place_of slot < 11) × (board < 8) }
    ensures is { result ≡ gained leader.now slot board tag }
    ensures tells { tells result ≡ tells leader.now }
    ensures proves { proves result ≡ proves leader.now }
{
    let mut counts = leader.counts;
    counts[slot.place() as usize] = counted(&leader.at(slot), board, tag);
    Leader { counts, ..*leader }
}

// The entries with that of one board more. Tried inside `told`: there the length of the entries is not found, and that proof stays open.
fn with_entry(old: &[Entry; 8], board: u8, entry: Entry) -> [Entry; 8]
    requires { board < 8 }
    ensures is { result ≡ slice_set old.now board entry }
    ensures eight { length old.now ≡ 8 }
{
    let mut entries = *old;
    entries[board as usize] = entry;
    entries
}

// The leader with one last more: its entry, and its proof if its earlier rank is the lowest so far.
// Not by `gained`, which is for the slots before that of the lasts: what that keeps of `tells` does not hold in this slot.
pub(crate) fn told(leader: &Leader, board: u8, tag: u64, entry: Entry, proof: Count) -> Leader
    requires { Tellable leader.now board entry proof }
    ensures is { result ≡ told leader.now board tag entry proof }
    ensures tells { tells result ≡ true }
    ensures proves { proves result ≡ true }
{
    let mut counts = leader.counts;
    counts[Slot::Last.place() as usize] = counted(&leader.at(Slot::Last), board, tag);
    let mut next = Leader {
        counts,
        entries: with_entry(&leader.entries, board, entry),
        ..*leader
    };
    if entry.undercuts(leader.lowest) {
        next.lowest = entry;
        next.proof = proof;
    }
    next
}
