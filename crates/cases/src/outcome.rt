// What calls answered, as it is printed.
use std::fmt;
use table::Refusal;

// How many nodes there are, or why there are none.
#[derive(Clone, Copy)]
pub struct Outcome(pub Result<usize, Refusal>);

impl<F: Into<Refusal>> From<Result<usize, F>> for Outcome {
    fn from(answer: Result<usize, F>) -> Outcome {
        Outcome(answer.map_err(|fault| fault.into()))
    }
}

// `3 nodes`, or a refusal's number, place and layer.
impl fmt::Display for Outcome {
    fn fmt<W: fmt::Write>(&self, f: &mut fmt::Formatter<W>) -> fmt::Result {
        match &self.0 {
            Ok(1) => f.write_str("1 node"),
            Ok(count) => write!(f, "{count} nodes"),
            Err(refusal) => write!(f, "{refusal}"),
        }
    }
}

// `refused`, and the refusal's number, place and layer.
#[derive(Clone, Copy)]
pub struct Refused(pub Refusal);

impl fmt::Display for Refused {
    fn fmt<W: fmt::Write>(&self, f: &mut fmt::Formatter<W>) -> fmt::Result {
        let refusal = self.0;
        write!(f, "refused {refusal}")
    }
}
