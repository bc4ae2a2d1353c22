//! The archive of a station: a second engine under a lock, which other threads may read.
//!
//! Contracts see a book as its engine. Its type keeps that a ledger's total is the engine's number of events, and only `Book::commit`,
//! `Book::commit_order` and `Book::commit_reload` raise that total: each raises a share of the ledger with it. So whoever keeps a share that is as great as its own number of
//! events has put each of them into the book.
//!
//! A page of the book is the text of the rows of its journal that have these numbers.
//!
//! Layer console_: it must not know the bytes of commands.
#![tactic(auto)]

mod book;
mod lock;
mod page;

pub use book::{Book, order_in};
pub use lock::Archive;
