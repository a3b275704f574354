// The listing of a card, from the bytes of the card to the text of 01's "Readout".
#![tactic(auto)]

mod card;
mod replayed;

pub use card::list_card;
