// Playing moves on the bench: each is one call of the membership layer at one row, or what a faulty board signs by itself.
// A move that cannot be made ends the play; a call that is refused is made all the same.
ghost use Rattle.std.specs.Prelude.{◌≡◌, ⊤, MatchOption};
ghost use Rattle.bench.specs.declared.story.Move.TheVariants.{AskOut, AskIn, Hear};
ghost use Rattle.bench.specs.Moves.{ByCall, FaultySigned, Moved, Played};

use crate::desk::{Bench, Desk};
use crate::story::Move;
use boards::Set;
use membership::calls;
use reader::read::read;
use sending::say;
use words::statement::Statement;

impl Bench<'_> {
    // Asks for a member to leave.
    fn ask_out(&mut self, at: u8, change: u8) -> Option<()>
        ensures { MatchOption result ⊤ (λ _. ByCall self.old (AskOut at change) self.new) }
    {
        let Desk { mut row, mut page } = self.desk(at)?;
        let answer = calls::ask_out(&mut row, &mut self.register, change, &mut page.bytes);
        self.put(at, row, page.after(answer));
        Some(())
    }

    // Asks for a board to join, with reports delivered in the row's latest view.
    fn ask_in(&mut self, at: u8, change: u8) -> Option<()>
        ensures { MatchOption result ⊤ (λ _. ByCall self.old (AskIn at change) self.new) }
    {
        let Desk { mut row, mut page } = self.desk(at)?;
        let delivery = Some(row.latest());
        let answer = calls::ask_in(
            &mut row,
            &mut self.register,
            change,
            delivery,
            &mut page.bytes,
        );
        self.put(at, row, page.after(answer));
        Some(())
    }

    // Hears what a board wrote last.
    fn hear(&mut self, at: u8, from: u8) -> Option<()>
        ensures { MatchOption result ⊤ (λ _. ByCall self.old (Hear at from) self.new) }
    {
        let Desk { mut row, mut page } = self.desk(at)?;
        let heard = self.desks.get(usize::from(from))?.page;
        let m = read(heard.frame()?).ok()?;
        let answer = calls::hear(&mut row, &mut self.register, &m, &mut page.bytes)?;
        self.put(at, row, page.after(answer));
        Some(())
    }

    // A faulty board signs a statement and writes it on its page.
    fn sign(&mut self, board: u8, said: Statement<'_>) -> Option<()>
        ensures { MatchOption result ⊤ (λ _. FaultySigned self.old board said.entry self.new) }
    {
        if !self.faulty.has(board) {
            return None;
        }
        let Desk { row, mut page } = *self.desks.get(usize::from(board))?;
        let sent = say(&mut self.register, board, said, Set::EMPTY, &mut page.bytes)?;
        self.put(board, row, page.after(Ok(sent)));
        Some(())
    }

    // Makes one move.
    fn moved(&mut self, one: Move) -> Option<()>
        ensures { MatchOption result ⊤ (λ _. Moved self.old one self.new) }
    {
        match one {
            Move::AskOut { at, change } => self.ask_out(at, change),
            Move::AskIn { at, change } => self.ask_in(at, change),
            Move::Hear { at, from } => self.hear(at, from),
            Move::Sign { board, said } => self.sign(board, said),
        }
    }

    // Makes moves, one after another.
    pub(crate) fn played(&mut self, moves: &[Move]) -> Option<()>
        ensures { MatchOption result ⊤ (λ _. Played moves.now self.old self.new) }
    {
        for one in moves {
            self.moved(*one)?;
        }
        Some(())
    }
}
