//! Dates of mail: read from headers, shown, and named by which messages are chosen.
#![tactic(auto)]

mod bad_date;
mod blanks;
mod days;
mod mail_date;
mod named_days;
mod names;
mod numbers;
mod numeric;
mod outside;
mod picking;
mod reading;
mod showing;
mod time;
mod word;
mod written;
mod zones;

pub use bad_date::BadDate;
pub use mail_date::MailDate;
pub use picking::pick_date;
