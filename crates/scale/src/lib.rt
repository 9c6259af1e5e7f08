// Scales: the weights that readings are added up in.
#![tactic(auto)]

mod count;
mod pair;
mod price;
mod scale;
mod yes;

pub use count::Count;
pub use pair::Pair;
pub use price::Price;
pub use scale::Scale;
