/// What the check of a one-time value found.
#[derive(Clone, Copy, Debug, PartialEq, Eq)]
pub enum Verdict {
    /// The value fits this step or number, which is unspent.
    Fits(u64),
    /// The value fits spent ones alone, of which this is the least.
    Spent(u64),
    /// The value fits none.
    Wrong,
}

ghost use Rattle.std.specs.Prelude.{◌≡◌};
ghost use Rattle.one_time.specs.Verdicts.{verdict_from};

/// The verdict from the least that fits and is unspent, and the least spent one that fits.
pub(crate) fn verdict_from(unspent: Option<u64>, spent: Option<u64>) -> Verdict
    ensures verdict { result ≡ verdict_from unspent spent }
{
    match (unspent, spent) {
        (Some(at), _) => Verdict::Fits(at),
        (None, Some(at)) => Verdict::Spent(at),
        (None, None) => Verdict::Wrong,
    }
}
