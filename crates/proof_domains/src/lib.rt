//! The tables that are emitted for the domains of devices of a policy fit the images that are built for it,
//! and are one file.
//!
//! The functions here carry these laws; no command calls them.
#![tactic(auto)]

ghost use Rattle.proof_domains.specs.Laws.{DomainTablesAreOne, EmittedTablesFit};

/// Tables that lead each write of a device where a placed policy declares it, as `emit` of `dma_emit`
/// makes them, fit (`Fit`) each image that is sound for the policy and has the policy's regions where
/// they were placed, as `build` makes it.
pub fn emitted_tables_fit()
    ensures { EmittedTablesFit }
{}

/// Of a policy there is one file of the tables of its domains, to the last byte: root table, context
/// tables, each domain's tables, the list of devices, and where they lie. So two builds write the same.
pub fn domain_tables_are_one()
    ensures { DomainTablesAreOne }
{}
