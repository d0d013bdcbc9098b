// Whose tags in a message are good, and whether all are: one check for every kind of message and every scheme.
// What a tag stands for: docs/FRAMES.md, "Signed words". Words of the contracts: specs/Checks.antt.
#![tactic(auto)]

ghost use Rattle.std.specs.Prelude.{◌≡◌, Decides};
ghost use Rattle.wire.specs.Messages.{meaning};
ghost use Rattle.words.specs.Said.{said};
ghost use Rattle.signed.specs.Signed.{TagIs};
ghost use Rattle.checks.specs.Checks.{boards_in, tag_in, AllSound, GenuineMeans, GoodBoards, PartSound, Sound, SoundBoards, TellsGenuine};
ghost use Rattle.checks.specs.Parts.{StandsFor, StatedIn};

use boards::Set;
use schemes::Scheme;
use signed::{proof, proof_tag, signers, statement, tag};
use wire::message::Message;
use words::statement::Statement;

// The two parts of a message that have tags: its signers', and those of the proof that lasts and suggest-lasts carry.
// An enum, not a closure: which boards, which statement and which tag go together, and every check below is said once for both parts.
// Message and part stay two parameters: a struct of both would be one more name for each clause to see through.
#[derive(Clone, Copy, Debug, PartialEq, Eq)]
pub enum Part {
    Signers,
    Proof,
}

// The boards whose tags a part has.
pub fn boards_of(m: &Message<'_>, part: Part) -> Set
    ensures { result.bits ≡ boards_in part (meaning m.now) }
{
    match part {
        Part::Signers => signers(m),
        Part::Proof => proof(m).map_or(Set::EMPTY, |shown| shown.boards),
    }
}

// What the board's tag in a part stands for; nothing for a board that is not of the part.
#[tactic(auto, using(boards::proofs::Members::member_none))]
fn stated<'a>(m: &Message<'a>, part: Part, board: u8) -> Option<Statement<'a>>
    ensures { StatedIn part (meaning m.now) board result }
{
    match part {
        Part::Signers => statement(m, board),
        Part::Proof => {
            let shown = proof(m)?;
            shown.boards.has(board).then_some(shown.act)
        }
    }
}

// The board's tag in a part; none for a board that is not of the part, or whose tag is not eight bytes.
fn tag_in(m: &Message<'_>, part: Part, board: u8) -> Option<u64>
    ensures { TagIs (boards_in part (meaning m.now)) board (tag_in part (meaning m.now) board) result }
{
    match part {
        Part::Signers => tag(m, board),
        Part::Proof => proof_tag(m, board),
    }
}

// Whether the statement has words and the scheme finds the tag good for the board and them.
fn holds<S: Scheme>(scheme: &S, board: u8, act: Statement<'_>, tag: u64) -> bool
    ensures { Decides result (StandsFor (S.good scheme.now) board (said act.entry) tag) }
{
    act.words()
        .is_some_and(|words| scheme.check(board, words.as_slice(), tag))
}

// Whether the board's tag in a part is sound: it is there, and holds for what it stands for.
fn is_sound<S: Scheme>(scheme: &S, m: &Message<'_>, part: Part, board: u8) -> bool
    ensures { Decides result (Sound part (S.good scheme.now) (meaning m.now) board) }
{
    stated(m, part, board)
        .zip(tag_in(m, part, board))
        .is_some_and(|(act, tag)| holds(scheme, board, act, tag))
}

// The boards of a part whose tags are good.
pub fn good_boards<S: Scheme>(scheme: &S, m: &Message<'_>, part: Part) -> Set
    ensures sound { SoundBoards part (S.good scheme.now) (meaning m.now) result.bits }
    ensures formed { GoodBoards part (S.good scheme.now) (meaning m.now) result.bits }
{
    boards_of(m, part)
        .boards()
        .filter(|board| is_sound(scheme, m, part, *board))
        .fold(Set::EMPTY, Set::with)
}

// Whether every board of a part has a good tag in it.
fn part_good<S: Scheme>(scheme: &S, m: &Message<'_>, part: Part) -> bool
    ensures { Decides result (PartSound part (S.good scheme.now) (meaning m.now)) }
{
    boards_of(m, part).within(good_boards(scheme, m, part))
}

// Whether all tags of a message are good, those of its signers and those of its proof.
pub fn all_good<S: Scheme>(scheme: &S, m: &Message<'_>) -> bool
    ensures sound { Decides result (AllSound (S.good scheme.now) (meaning m.now)) }
    ensures formed { TellsGenuine (S.good scheme.now) (meaning m.now) result }
{
    part_good(scheme, m, Part::Signers) && part_good(scheme, m, Part::Proof)
}

// A message is genuine exactly if each of its tags is good.
pub fn genuine_is_each_tag_good()
    ensures { GenuineMeans }
{}
