//! Laws of a station's consoles. These functions do nothing; they have the laws as their contracts.

ghost use Rattle.std.specs.Prelude.{List};
ghost use Rattle.console_link.specs.declared.console.ConsoleRings.{ConsoleRings};
ghost use Rattle.console_link.specs.declared.console.FinishedRings.{FinishedRings};
ghost use Rattle.console_link.specs.declared.lane.Lane.{Lane};
ghost use Rattle.console_link.specs.Seats.{SameConsole, Ends};
ghost use Rattle.alarm_orders.specs.declared.order.Order.{Order};
ghost use Rattle.console_recorder.specs.Reply.{Reply};
ghost use Rattle.console_operator.specs.declared.console.Console.{Console as Operator};
ghost use Rattle.console_operator.specs.declared.console.Finished.{Finished as Ended};
ghost use Rattle.console_operator.specs.Consoles.{EndsAs};
ghost use Rattle.station.specs.Lanes.{IsConsoleIn, IsEndIn, IsLinkEndIn};
ghost use Rattle.station.specs.Stations.{AnswersAreShown, EndsTellWhatWasSeen};

/// A console of a station is one after each of its own calls, and where it has ended it is an ended console of that station: so `close` may be
/// called with it.
pub fn consoles_stay()
    ensures stays { (lanes : List (Lane Order Reply)) (c d : ConsoleRings Order Reply) → IsConsoleIn lanes c
        → SameConsole c d → IsConsoleIn lanes d }
    ensures ends { (lanes : List (Lane Order Reply)) (c : ConsoleRings Order Reply) (f : FinishedRings Order Reply)
        → IsConsoleIn lanes c → Ends c f → IsLinkEndIn lanes f }
    ensures ended { (lanes : List (Lane Order Reply)) (c : Operator Order Reply) (f : Ended Order Reply)
        → IsConsoleIn lanes c.link → EndsAs c f → IsEndIn lanes f }
{}

/// What an ended console of a station saw of the board, if it saw anything: so many events as its end says, each of which might come after those
/// before it, from the alarms as the plant opens. `Station::new` tells each console of the history before the first event, and no call of a
/// console changes what it was told.
///
/// And of a board that shows a beginning of the history, with as many of the console's orders as the console took answers or more: the first of these
/// orders are those of the answers, with the same replies. So the board shows what each order did whose answer was taken.
pub fn consoles_saw()
    ensures answered { AnswersAreShown }
    ensures saw { EndsTellWhatWasSeen }
{}
