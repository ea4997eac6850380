//! Laws over the faults of a file that is no image, or isn't one of tables for direct memory access: which bytes each
//! comes of.
//!
//! A condition over several fields is asked at the last of them in the file, with what stands before
//! it. So each `Bad` is the fault of one field, and these laws speak of all. They stand in specs/ (`Laws`), of any form;
//! the functions here carry them, and no command calls one.
#![tactic(auto)]

ghost use Rattle.dma_tables.specs.DmaFile.{dma_file};
ghost use Rattle.image_pack.specs.Image.{image};
ghost use Rattle.proof_faults.specs.Laws.{AllIsRightBefore, FilesAreWrongAlike, WrongFieldsDecide, WrongFieldsHaveSizes};
ghost use Rattle.proof_faults.specs.Laws.{AllTrailsAWhole, AWholeStandsBefore, MissingFieldsAreTheSame, MissingFieldsBeginInside, TrailingBytesAreThere};

/// **The fault of a field is that of the bytes up to its end.** It comes neither too late, as
/// `image_pack::first_fault` says, nor too early.
pub fn wrong_fields_are_their_bytes()
    // Bytes that go as far as the field's end have this fault, whatever else stands behind them.
    ensures decided { WrongFieldsDecide image }
    // So has each file that begins with the same bytes.
    ensures alike { FilesAreWrongAlike image }
    // Nothing before the field is at fault: bytes that end where it begins lack this field, and are
    // right up to there.
    ensures begins { AllIsRightBefore image }
    // The field has a size: bytes that end before its end lack it, and all others have its fault.
    ensures exact { WrongFieldsHaveSizes image }
{}

/// The field that isn't wholly there is the same, wherever in it the bytes end.
pub fn missing_fields_are_their_bytes()
    ensures same { MissingFieldsAreTheSame image }
    ensures inside { MissingFieldsBeginInside image }
{}

/// What trails stands behind an image.
pub fn bytes_trail_an_image()
    // What stands before is the image of some parts,
    ensures before { AWholeStandsBefore image }
    ensures inside { TrailingBytesAreThere image }
    // and whatever stands behind an image trails.
    ensures trails { AllTrailsAWhole image }
{}

/// **So it is with a file of tables.** Its faults come neither too late, as `dma_tables::first_fault` says, nor
/// too early: the same four laws.
pub fn wrong_fields_of_tables_are_their_bytes()
    ensures decided { WrongFieldsDecide dma_file }
    ensures alike { FilesAreWrongAlike dma_file }
    ensures begins { AllIsRightBefore dma_file }
    ensures exact { WrongFieldsHaveSizes dma_file }
{}

/// Its field that isn't wholly there is the same, wherever in it the bytes end.
pub fn missing_fields_of_tables_are_their_bytes()
    ensures same { MissingFieldsAreTheSame dma_file }
    ensures inside { MissingFieldsBeginInside dma_file }
{}

/// What trails stands behind the file of some tables.
pub fn bytes_trail_tables()
    ensures before { AWholeStandsBefore dma_file }
    ensures inside { TrailingBytesAreThere dma_file }
    ensures trails { AllTrailsAWhole dma_file }
{}
