//! Tables for direct memory access whose verdict has no fault fit.
//!
//! The function here carries this law, by which `muen_dma_twice` of `dma_top` goes.
#![tactic(auto)]

ghost use Rattle.proof_dma.specs.Laws.{FaultlessTablesFit};

/// Tables, whoever made them, of which the verdict for a lawful policy and an image has no fault
/// (`verdict` of `dma_check`), fit them (`Fit`).
pub fn faultless_tables_fit()
    ensures { FaultlessTablesFit }
{}
