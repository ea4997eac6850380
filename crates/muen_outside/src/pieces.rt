ghost use Rattle.muen_outside.specs.Pieces.{joined};
ghost use Rattle.muen_outside.specs.Puts.{Puts};

use crate::sink::{Sink, SinkFault};

/// Puts the pieces of a text, one after another, up to the first fault. Where one is met, a front of
/// the text was put.
pub fn put_pieces<S: Sink>(pieces: &[&str], out: &mut S) -> Result<(), SinkFault>
    ensures { Puts (joined pieces.now) (S.state out.old) (S.state out.new) result }
{
    for piece in pieces {
        out.put(piece.as_bytes())?;
    }
    Ok(())
}
