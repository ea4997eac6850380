//! Reads an image, line for line as its form says.

pub(crate) mod devices;
pub(crate) mod header;
pub(crate) mod majors;
pub(crate) mod spans;
pub(crate) mod subjects;
pub(crate) mod whole;
