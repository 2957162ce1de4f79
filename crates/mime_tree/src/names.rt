// Words without regard to case.
ghost use Rattle.std.specs.Prelude.{◌≡◌};
ghost use Rattle.mail_headers.specs.Fields.{same_name as are_same};

pub(crate) fn same_name(a: &[u8], b: &[u8]) -> bool
    ensures { result ≡ are_same a.now b.now }
{
    a.eq_ignore_ascii_case(b)
}
