// The scale count: how many readings there are, up to 4,294,967,295.
mod ops;
mod weight;

pub use weight::Count;
