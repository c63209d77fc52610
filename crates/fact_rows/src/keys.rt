ghost use Rattle.std.specs.Prelude.{◌≡◌};
ghost use Rattle.fact_rows.specs.Rows.{is_key};

/// Whether a column holds the serial, so that a row can have it as its key.
pub(crate) fn is_key(serial: u64) -> bool
    ensures value { result ≡ is_key serial }
{
    serial < 1 << 63
}
