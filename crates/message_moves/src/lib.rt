//! Messages that leave their folder, or are copied to others: how one is held aside, read, copied and let go, so that
//! it has a name at each time.
#![tactic(auto)]

mod copying;
mod destination;
mod discarding;
mod origin;
mod reading;
mod refiling;
mod taking;

pub use copying::copy_messages;
pub use destination::{Destination, DestinationList};
pub use discarding::discard;
pub use origin::Origin;
pub use reading::content;
pub use refiling::refile_messages;
pub use taking::take;
