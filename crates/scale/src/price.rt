// The scale least price: the least price of any reading.
mod ops;
mod weight;

pub use weight::Price;
