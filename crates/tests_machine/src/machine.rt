//! One CPU over memory that is made by hand.
mod exits;
mod stores;
mod world;
