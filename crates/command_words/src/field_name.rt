// Names of header fields, as words say them.
ghost use Rattle.std.specs.Prelude.{◌≡◌};
ghost use Rattle.command_words.specs.FieldNames.{is_field_name as is_field_name_of};

use mh_base::Text;

/// Whether the text is a field's name.
pub fn is_field_name(name: &Text) -> bool
    ensures { result ≡ is_field_name_of name.now }
{
    mh_profile::is_field_name(name.as_str().as_bytes())
}
