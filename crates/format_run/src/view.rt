// What a line is about.

use crate::IndexedMessage;
use mh_base::{MsgNum, Text};
use std::marker::Model;

/// A message of a folder, and who looks at it when.
#[derive(Drop)]
pub struct View<'a> {
    pub number: MsgNum,
    /// Whether it is the current message.
    pub current: bool,
    /// Whether it is in an unseen sequence.
    pub unseen: bool,
    pub message: IndexedMessage<'a>,
    /// Seconds from 1970-01-01 00:00:00 UTC.
    pub moment: i64,
    pub user: &'a Text,
}

impl<'a> Model for View<'a> {
    ghost use Rattle.format_run.specs.Viewed.{Viewed};

    ghost Value = { Viewed };

    ghost view = { λ v.
        record {
          number = v.number;
          current = v.current;
          unseen = v.unseen;
          message = v.message;
          moment = v.moment;
          user = v.user.now;
        } };
}
