// Which names and values an entry can have.
ghost use Rattle.std.specs.Prelude.{◌≡◌, ◌==◌, ◌↔◌, IsTrue};
ghost use Rattle.std.specs.List.{list_all, prefix_len, suffix_len};
ghost use Rattle.mail_headers.specs.Lines.{is_name_byte};
ghost use Rattle.mail_headers.specs.Unfolding.{is_edge};
ghost use Rattle.mh_profile.specs.Names.{IsFieldName};
ghost use Rattle.mh_profile.specs.Values.{IsUnfolded, is_no_feed};

fn is_clean(name: &[u8]) -> bool
    ensures { result ≡ list_all is_name_byte name.now }
{
    name.iter()
        .all(|byte| 33 <= *byte && *byte <= 126 && *byte != b':')
}

/// Whether these bytes are a field's name.
pub fn is_field_name(name: &[u8]) -> bool
    ensures { IsTrue result ↔ IsFieldName name.now }
{
    !name.is_empty() && is_clean(name)
}

fn is_one_line(value: &[u8]) -> bool
    ensures { result ≡ list_all is_no_feed value.now }
{
    value.iter().all(|byte| *byte != b'\n')
}

fn is_edge_byte(byte: u8) -> bool
    ensures { result ≡ is_edge byte }
{
    byte == b' ' || byte == b'\t' || byte == b'\r'
}

fn is_bare_in_front(value: &[u8]) -> bool
    ensures { result ≡ (prefix_len is_edge value.now == 0) }
{
    match value.first() {
        Some(byte) => !is_edge_byte(*byte),
        None => true,
    }
}

fn is_bare_behind(value: &[u8]) -> bool
    ensures { result ≡ (suffix_len is_edge value.now == 0) }
{
    match value.last() {
        Some(byte) => !is_edge_byte(*byte),
        None => true,
    }
}

/// Whether a value stands on one line, with no blank at its ends, as `mail_headers::unfold` gives it.
pub fn is_unfolded(value: &[u8]) -> bool
    ensures { IsTrue result ↔ IsUnfolded value.now }
{
    if !is_one_line(value) {
        return false;
    }
    if !is_bare_in_front(value) {
        return false;
    }
    is_bare_behind(value)
}
