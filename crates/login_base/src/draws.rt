/// The ten random draws of an ask: 0 and 1 go to a root, 2 and 3 to a tab, 4 and 5 to a code,
/// 6 and 7 to a session or a token, 8 and 9 to a password's salt.
#[derive(Clone, Copy, Debug, PartialEq, Eq)]
pub struct Draws(pub [u64; 10]);
