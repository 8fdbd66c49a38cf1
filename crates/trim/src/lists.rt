//! The lists of a flight's figures.

use crate::figures::LooseFigure;
use base_words::ListOf;
use hold_limits::Item;

/// The containers of a flight, in the order of the offer.
pub type Items = ListOf<Item>;

/// The loose loads of a flight.
pub type LooseList = ListOf<LooseFigure>;
