//! The text of a file's fault.
ghost use Rattle.std.specs.Prelude.{◌≡◌};
ghost use Rattle.muen_num.specs.Pieces.{whole};
ghost use Rattle.dma_tables.specs.DmaFaultText.{dma_fault_text, dma_refused_at, place_text};

use binary_form::ImageFault;
use itoa::Buffer;
use muen_num::Pieces;

// Words that are too long for the search among others.
#[tactic(auto, unfolding(crate::specs::DmaFaultText::dma_refused_at))]
fn dma_refused_at() -> &'static str
    ensures { result.now ≡ dma_refused_at }
{
    "dma refused at "
}

// The offset, and what is wrong there; no offset where memory was refused.
fn place_of(fault: ImageFault) -> (Option<u64>, &'static str)
    ensures { place_text result.0 result.1.now ≡ dma_fault_text fault }
{
    match fault {
        ImageFault::Short { at } => (Some(at), "short"),
        ImageFault::Bad { at, field } => (Some(at), field.as_str()),
        ImageFault::Trailing { at } => (Some(at), "trailing"),
        ImageFault::NoMemory => (None, "out of memory"),
    }
}

/// The text of a fault of a file of tables, in pieces: the offset, and what is wrong there. The digits
/// of the offset stand in the buffer.
pub fn dma_fault_pieces(fault: ImageFault, digits: &mut Buffer) -> Pieces<'_>
    ensures { whole result ≡ dma_fault_text fault }
{
    match place_of(fault) {
        (Some(at), why) => {
            let at = digits.format(at);
            (dma_refused_at(), at, ": ", why).into()
        }
        (None, why) => why.into(),
    }
}
