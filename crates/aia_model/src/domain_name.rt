/// One of the two interrupt domains of the APLIC (our profile).
///
/// AIA 1.0, APLIC, "Interrupt domains".
#[derive(Clone, Copy, Debug, PartialEq, Eq)]
pub enum DomainName {
    /// The root domain, at machine level.
    Root,
    /// Its child, at supervisor level.
    Child,
}
