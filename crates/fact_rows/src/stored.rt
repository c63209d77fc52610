ghost use Rattle.std.specs.Prelude.{◌≡◌};
ghost use Rattle.fact_rows.specs.Stored.{is_stored, has_stored};

use facts::Fact;

/// Whether the fact changes what is kept in tables.
pub fn is_stored(fact: &Fact) -> bool
    ensures value { result ≡ is_stored fact.now }
{
    match fact {
        Fact::RealmPut { .. }
        | Fact::UserPut { .. }
        | Fact::SecretSet { .. }
        | Fact::ActionSet { .. }
        | Fact::ActionDone { .. }
        | Fact::TokenMade { .. }
        | Fact::SpentToken { .. }
        | Fact::Enabled { .. }
        | Fact::Disabled { .. }
        | Fact::Failed { .. }
        | Fact::SpentStep { .. }
        | Fact::SpentRecovery { .. }
        | Fact::Session { .. }
        | Fact::Seen { .. }
        | Fact::Level { .. }
        | Fact::SessionEnd { .. }
        | Fact::Completed { .. } => true,
        Fact::Opened { .. }
        | Fact::Rendered { .. }
        | Fact::Named { .. }
        | Fact::Passed { .. }
        | Fact::Standing { .. }
        | Fact::Mark { .. } => false,
    }
}

/// Whether one of the facts changes what is kept.
pub fn has_stored(facts: &[Fact]) -> bool
    ensures value { result ≡ has_stored facts.now }
{
    facts.iter().any(|fact| is_stored(fact))
}
