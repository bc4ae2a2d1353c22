//! How a console looks at the board.
ghost use Rattle.std.specs.Prelude.{◌≡◌, IfSome, MatchBool};
ghost use Rattle.std.specs.Borrow.{sem, RestsIfNone};
ghost use Rattle.console_operator.specs.Sights.{looked_at};
ghost use Rattle.console_operator.specs.Consoles.{HasLooked, HasLeft, HasTried, IsIdle, ShowsFrom};
ghost use Rattle.console_operator.specs.Views.{console_name};
ghost use Rattle.console_operator.specs.contracts.console.Console.{the_row};

use super::Console;
use crate::view::BoardView;

impl<O, R> Console<O, R> {
    /// Ends the look, if there is one.
    pub(crate) fn leave(&mut self)
        ensures { HasLeft self.old self.new }
    {
        self.sight.end();
    }
}

impl<O: Drop, R: Drop> Console<O, R> {
    /// Looks at the board that was published last, where it has as many of this console's orders as the console took answers; tells whether
    /// it looks.
    fn look(&mut self) -> bool
        ensures looked { HasLooked self.old self.new }
        ensures shows { MatchBool result (ShowsFrom self.old (looked_at self.new.sight))
            (IsIdle self.new) }
    {
        self.sight.renew();
        if self
            .sight
            .has_orders(self.link.number(), self.link.answered())
        {
            return true;
        }
        self.leave();
        false
    }

    /// Looks at the board that was published last. It shows the alarms after a list of events, which begins with every list that this console
    /// saw before, and has at least as many of its orders as it took answers. `None` where there is no such board, as where the owner has
    /// ended.
    ///
    /// While the view is held the owner can publish once, and then waits.
    pub fn board(&mut self) -> Option<BoardView<'_, O, R>>
        ensures* none { sem 𝓛
            (RestsIfNone (the_row O.row R.row) self.entry console_name result
            (λ n. HasTried self.old n)) }
        ensures name { IfSome result (λ v. v.console.ghost_name ≡ self.entry.ghost_name) }
        ensures looked { IfSome result (λ v. HasLooked self.old v.console.now) }
        ensures shows { IfSome result (λ v. ShowsFrom self.old (looked_at v.console.now.sight)) }
    {
        if !self.look() {
            return None;
        }
        Some(BoardView { console: self })
    }
}
