// Parameters.

use mh_base::{List, Text};

/// A parameter of a content type.
#[derive(Drop)]
pub struct Param {
    pub name: Text,
    pub value: Text,
}

pub type ParamList = List<Param>;
