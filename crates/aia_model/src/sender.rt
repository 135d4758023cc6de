use crate::DomainName;

/// What sends an MSI.
///
/// AIA 1.0, APLIC, "Interrupt forwarding by MSIs".
#[derive(Clone, Copy, Debug, PartialEq, Eq)]
pub enum Sender {
    /// A write of the `genmsi` of a domain.
    ByGenMsi(DomainName),
    /// A source of a domain, by its number, which is forwarded.
    BySource(DomainName, u32),
}
