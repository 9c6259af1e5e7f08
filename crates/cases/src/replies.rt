// What a session is asked and what it answered, as it is printed.
use crate::outcome::Refused;
use scale::{Count, Pair, Price};
use session::{Ask, Reply, SessionFault, Turn};
use std::alloc::{AllocError, Global};
use std::fmt;
use table::Touch;

// A weight of one of the four scales.
#[derive(Clone, Copy)]
pub enum Weight {
    Yes(bool),
    Count(u32),
    Price(u64),
    Both(u32, u64),
}

// `yes`, `3`, `at 7` or `3 at 7`; the greatest price is no price.
impl fmt::Display for Weight {
    fn fmt<W: fmt::Write>(&self, f: &mut fmt::Formatter<W>) -> fmt::Result {
        match self {
            Weight::Yes(true) => f.write_str("yes"),
            Weight::Yes(false) => f.write_str("no"),
            Weight::Count(count) => write!(f, "{count}"),
            Weight::Price(u64::MAX) => f.write_str("at no price"),
            Weight::Price(price) => write!(f, "at {price}"),
            Weight::Both(count, u64::MAX) => write!(f, "{count} at no price"),
            Weight::Both(count, price) => write!(f, "{count} at {price}"),
        }
    }
}

impl From<bool> for Weight {
    fn from(yes: bool) -> Weight {
        Weight::Yes(yes)
    }
}

impl From<Count> for Weight {
    fn from(count: Count) -> Weight {
        Weight::Count(count.value)
    }
}

impl From<Price> for Weight {
    fn from(price: Price) -> Weight {
        Weight::Price(price.value)
    }
}

impl From<Pair<Count, Price>> for Weight {
    fn from(both: Pair<Count, Price>) -> Weight {
        Weight::Both(both.first.value, both.second.value)
    }
}

// A symbol of one of the two kinds.
#[derive(Clone, Copy)]
pub enum Sign {
    Byte(u8),
    Touch(u8, u32),
}

// A byte as a character, and a touch as its source and gap.
impl fmt::Display for Sign {
    fn fmt<W: fmt::Write>(&self, f: &mut fmt::Formatter<W>) -> fmt::Result {
        match self {
            Sign::Byte(byte) => {
                let c = char::from(*byte);
                write!(f, "{c}")
            }
            Sign::Touch(0, gap) => write!(f, "pad {gap}"),
            Sign::Touch(1, gap) => write!(f, "button {gap}"),
            Sign::Touch(2, gap) => write!(f, "start {gap}"),
            Sign::Touch(source, gap) => write!(f, "source {source} {gap}"),
        }
    }
}

impl From<u8> for Sign {
    fn from(byte: u8) -> Sign {
        Sign::Byte(byte)
    }
}

impl From<Touch> for Sign {
    fn from(touch: Touch) -> Sign {
        Sign::Touch(touch.source, touch.gap)
    }
}

// `read a`, `weigh` or `restart`.
#[derive(Clone, Copy)]
struct Asked<S>(Ask<S>);

impl<S: Copy + Into<Sign>> fmt::Display for Asked<S> {
    fn fmt<W: fmt::Write>(&self, f: &mut fmt::Formatter<W>) -> fmt::Result {
        match self.0 {
            Ask::Read(symbol) => {
                let sign: Sign = symbol.into();
                write!(f, "read {sign}")
            }
            Ask::Weigh => f.write_str("weigh"),
            Ask::Restart => f.write_str("restart"),
        }
    }
}

// `2 tests`, a weight or `done`, or a refusal's number, place and layer in its place.
#[derive(Clone, Copy)]
struct Answered<V>(Result<Reply<V>, SessionFault>);

impl<V: Copy + Into<Weight>> fmt::Display for Answered<V> {
    fn fmt<W: fmt::Write>(&self, f: &mut fmt::Formatter<W>) -> fmt::Result {
        match self.0 {
            Ok(Reply::Took(1)) => f.write_str("1 test"),
            Ok(Reply::Took(tests)) => write!(f, "{tests} tests"),
            Ok(Reply::Weighs(weight)) => {
                let weight: Weight = weight.into();
                weight.fmt(f)
            }
            Ok(Reply::Restarted) => f.write_str("done"),
            Err(fault) => Refused(fault.refusal()).fmt(f),
        }
    }
}

// `read a: 2 tests, weigh: 1, restart: done`.
pub fn told<W: Copy + Into<Weight>, S: Copy + Into<Sign>>(
    heap: Global,
    turns: &[Turn<W, S>],
) -> Result<String, AllocError> {
    let mut text = String::new(heap);
    let mut mark = "";
    for turn in turns {
        let asked = Asked(turn.ask);
        let answered = Answered(turn.reply);
        write!(text, "{mark}{asked}: {answered}")?;
        mark = ", ";
    }
    Ok(text)
}
