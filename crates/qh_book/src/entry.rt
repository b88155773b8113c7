use crate::{Call, Item, Reply};
use std::marker::Model;

/// An entry of a connection's history: a call with its reply, and of a driver's turn what it brought, in the order in which it came.
#[derive(Drop)]
pub struct Entry<T> {
    pub call: Call,
    pub reply: Reply<T>,
    /// None of a call other than `Drive`.
    pub items: Vec<Item>,
}

impl<T> Model for Entry<T> {
    ghost use Rattle.qh_book.specs.History.{PlainEntry};

    ghost Value = { PlainEntry T };

    ghost view = { λ e. record { call = e.call; reply = e.reply; items = e.items.items } };
}
