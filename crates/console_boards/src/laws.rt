//! Laws of what a board allows and counts.
ghost use Rattle.std.specs.Prelude.{◌≡◌, ◌≢◌, ℕ, List, ◌∷◌, ◌++◌, length, true, Some, None};
ghost use mathlib.Core.List.{IsPrefix};
ghost use Rattle.alarm_bank.specs.Banks.{reply_of};
ghost use Rattle.console_boards.specs.declared.entry.AnsweredOrder.{AnsweredOrder};
ghost use Rattle.console_boards.specs.declared.entry.BoardEntry.{BoardEntry};
ghost use Rattle.console_boards.specs.declared.entry.BoardEntry.TheVariants as entry;
ghost use Rattle.console_boards.specs.declared.picture.Picture.{Picture};
ghost use Rattle.console_boards.specs.Counts.{count_of, answers_of};
ghost use Rattle.console_boards.specs.Replies.{IsAsked, after, allows};
ghost use Rattle.console_boards.specs.Stories.{shown, is_lawful};

/// What is counted of a console are its own orders: entries have as many of them as they have replies for it. And of entries that begin others these replies
/// begin those of the others.
pub fn orders_are_counted()
    ensures counted { (console : ℕ) (es : List BoardEntry)
        → length (answers_of console es) ≡ count_of console es }
    ensures begin { (console : ℕ) (es fs : List BoardEntry) → IsPrefix es fs
        → IsPrefix (answers_of console es) (answers_of console fs) }
{}

/// In a lawful list an order for which an alarm is asked is for an alarm, and has the reply that the table of transitions gives for it after the entries
/// before it.
pub fn replies_are_of_the_table()
    ensures reply { (p : Picture) (console alarm : ℕ) (a : AnsweredOrder) (es fs : List BoardEntry)
        → is_lawful after allows p (es ++ entry.Order console a ∷ fs) ≡ true → IsAsked a
        → a.order.target ≡ Some alarm
        → a.reply ≡ reply_of alarm a.order.verb (shown after p es).panel.bank }
    ensures target { (p : Picture) (console : ℕ) (a : AnsweredOrder) (es fs : List BoardEntry)
        → is_lawful after allows p (es ++ entry.Order console a ∷ fs) ≡ true → IsAsked a
        → a.order.target ≢ None }
{}
