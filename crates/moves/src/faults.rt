// What is wrong with a schedule, and where.
use refusals::Refusal;
use std::error::Error;

// The layer of the reader that found the fault.
#[derive(Clone, Copy, Debug, PartialEq, Eq)]
pub enum Layer {
    Field,
    Move,
}

#[derive(Clone, Copy, Debug, PartialEq, Eq)]
pub struct Fault {
    pub cause: Refusal,
    // The place of the faulty field's tag, counted from 0.
    pub byte: usize,
    pub layer: Layer,
}

impl Error for Fault {}
