//! Runs of the crates that read and write texts, documents, records and images, and of those that plan,
//! against values that were worked out by hand. They stand here, over the crates, so that proving a
//! crate's tests doesn't prove the crate once more.
#![tactic(auto)]

#[cfg(test)]
mod agree;
#[cfg(test)]
mod documents;
#[cfg(test)]
mod extents;
#[cfg(test)]
mod fields;
#[cfg(test)]
mod frames;
#[cfg(test)]
mod images;
#[cfg(test)]
mod outside;
#[cfg(test)]
mod records;
#[cfg(test)]
mod rights;
#[cfg(test)]
mod texts;
#[cfg(test)]
mod values;
