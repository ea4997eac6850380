//! What the text of a line tells.
ghost use Rattle.std.specs.Prelude.{◌≡◌, ℕ, List, Option};
ghost use Rattle.std.specs.Result.{result_ok};
ghost use Rattle.image_pack.specs.declared.parts.Image.{Image};
ghost use Rattle.dma_tables.specs.Lowered.{goes};
ghost use Rattle.dma_tables.specs.declared.file.DmaFile.{DmaFile};
ghost use Rattle.dma_lines.specs.LineLaws.{DropsUnwritten, TellsFirstLost, TellsSpans, TellsWrites};
ghost use Rattle.dma_lines.specs.Losses.{comes};

/// What is told of lines.
pub fn told_lines()
    // A byte comes somewhere exactly where it goes somewhere, and to the same place.
    ensures comes { (t : Option DmaFile) (i : Image) (device addr : ℕ) → result_ok (comes t i device addr) ≡ goes t i device addr }
    // A line is told as dropped exactly where nothing of it is written.
    ensures dropped { (t : Option DmaFile) (i : Image) (device addr : ℕ) (bytes : List ℕ) → DropsUnwritten t i device addr bytes }
    // The address that is told is the first of its bytes that goes nowhere, with the reason.
    ensures first { (t : Option DmaFile) (i : Image) (device addr : ℕ) (bytes : List ℕ) → TellsFirstLost t i device addr bytes }
    // Otherwise its writes are told and nothing else, in their order.
    ensures writes { (t : Option DmaFile) (i : Image) (device addr : ℕ) (bytes : List ℕ) → TellsWrites t i device addr bytes }
    // One span has the first byte of each, and its name is told.
    ensures spans { (t : Option DmaFile) (i : Image) (device addr : ℕ) (bytes : List ℕ) → TellsSpans t i device addr bytes }
{}
