// Functions by their names.
ghost use Rattle.std.specs.Prelude.{◌≡◌, bytes_eq};
ghost use Rattle.format_compiler.specs.Functions.{function_named, name_of, named_among};

use crate::{FUNCTIONS, Function};

fn is_same(bytes: &[u8], characters: &[char]) -> bool
    ensures { result ≡ bytes_eq bytes.now characters.now }
{
    match (bytes.split_first(), characters.split_first()) {
        (Some((byte, bytes)), Some((c, characters))) => {
            *byte as char == *c && is_same(bytes, characters)
        }
        (None, None) => true,
        _ => false,
    }
}

fn is_called(function: Function, name: &[char]) -> bool
    ensures { result ≡ bytes_eq (name_of function) name.now }
{
    is_same(function.name().as_bytes(), name)
}

/// The first of these functions that has this name.
fn among(functions: &[Function], name: &[char]) -> Option<Function>
    ensures { result ≡ named_among functions.now name.now }
{
    for function in functions {
        if is_called(*function, name) {
            return Some(*function);
        }
    }
    None
}

/// The function of this name.
#[tactic(auto, unfolding(crate::specs::Functions::every_function))]
pub(crate) fn named(name: &[char]) -> Option<Function>
    ensures { result ≡ function_named name.now }
{
    among(&FUNCTIONS, name)
}
