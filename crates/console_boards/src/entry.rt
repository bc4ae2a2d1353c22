use alarm_bank::{BankEvent, NewAlarm};
use alarm_machine::{Change, OrderFault};
use alarm_orders::Order;
use console_log::Mark;
use plant_types::Items;

/// What an order is answered: the change of its alarm's code, if there is one, or why it is refused.
pub type OrderOutcome = Result<Option<Change>, OrderFault>;

/// An order with its reply.
#[derive(Clone, Copy, Drop)]
pub struct AnsweredOrder {
    pub order: Order,
    pub reply: OrderOutcome,
}

/// One event of the history, as a board takes it in.
#[derive(Drop)]
pub enum BoardEntry {
    /// A scan, by what it gives to the alarms.
    Scan(BankEvent),
    /// An order of the console of a number, with its reply.
    Order(u32, AnsweredOrder),
    /// A reload, by the alarms of the new plant, each with the number of the old alarm whose state it keeps, if it keeps one.
    Reload(Items<NewAlarm>),
}

/// What is done to both copies of a board.
#[derive(Drop)]
pub enum Operation {
    /// An entry is taken in, if it may come next.
    Entry(BoardEntry),
    /// The board is marked anew.
    Mark(Mark<BoardEntry>),
}
