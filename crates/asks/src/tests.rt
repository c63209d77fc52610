use crate::Life;
use std::test::Fail;

/// A number of seconds, and whether a token can live so long.
const LIVES: [(u64, bool); 5] = [
    (0, false),
    (1, true),
    (31_536_000, true),
    (31_536_001, false),
    (u64::MAX, false),
];

#[test]
fn a_life_has_its_range(rt: HostRuntime) -> Result<(), Fail> {
    for (seconds, want) in LIVES {
        let life = Life::new(seconds);
        assert_eq!(rt; life.is_some(), want, "{seconds}");
        assert_eq!(rt; life.map_or(seconds, |life| life.seconds()), seconds);
    }
    Ok(())
}
