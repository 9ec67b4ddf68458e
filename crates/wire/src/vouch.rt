// By which certificate a value is vouched for. Three cases, and no Option of two: the wire has the numbers 0, 1 and 2 for them.
#[derive(Clone, Copy, Debug, Default, PartialEq, Eq)]
pub enum Vouch {
    // No certificate of certification is named.
    #[default]
    Nothing = 0,
    // A weak quorum has disclosed this value.
    Disclosed = 1,
    // A weak quorum allows any value.
    Any = 2,
}
