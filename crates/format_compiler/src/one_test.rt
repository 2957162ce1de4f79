// What a conditional tests.

use crate::Call;
use mh_base::Text;

/// A test: of the component of this name, or of a call's result.
#[derive(Drop)]
pub enum Test {
    Component(Text),
    Call(Call),
}
