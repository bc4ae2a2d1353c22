//! How a console ends.
ghost use Rattle.std.specs.Prelude.{◌≡◌, IfSome};
ghost use Rattle.console_operator.specs.Consoles.{EndsAs};

use super::{Console, Finished};

impl<O: Drop, R: Drop> Console<O, R> {
    /// Ends the console. What ends has a mark of the longest list that it saw on the board, and says how many events that has. The board opened as the one
    /// that the console was told of, and each of the events might come after those before it. `None` where the order ring can't be
    /// ended; then nothing is known of the orders that are left in it.
    pub fn finish(self) -> Option<Finished<O, R>>
        ensures { IfSome result (λ f. EndsAs self f) }
    {
        let Console { link, sight } = self;
        let seen = sight.seen();
        let mark = sight.mark();
        drop(sight);
        let link = link.finish(seen)?;
        Some(Finished { link, mark })
    }
}

impl<O: Drop, R: Drop> Finished<O, R> {
    /// The number that its console had.
    pub fn number(&self) -> u32
        ensures { result ≡ self.now.link.number }
    {
        self.link.number()
    }
}
