//! What is found while a side is written out.
use dps_lex::Place;

/// A declared private name in a term, by its number in the signature, and where the text writes it.
#[derive(Clone, Copy, Debug, PartialEq, Eq)]
pub struct PrivateUse {
    pub name: u32,
    pub place: Place,
}

/// The declared name that stands in a channel's place, if one does, and where the text writes the channel.
#[derive(Clone, Copy, Debug, PartialEq, Eq)]
pub struct ChannelUse {
    pub name: Option<u32>,
    pub place: Place,
}
