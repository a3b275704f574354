// A card cut down to what it holds: replay with `readout`'s memory, and a copy of the queues into a card of as many blocks.
#![tactic(auto)]

ghost use Rattle.std.specs.Prelude.{◌≡◌};
ghost use Rattle.cutdown_card.specs.declared.NotCut.TheVariants.{Refused};

mod card;
mod parts;

use calls::Refusal;
pub use card::cut_down;

// Why there is no fresh card: replay or the copy refused it, or the buffer is too short for its blocks.
#[derive(Clone, Copy, PartialEq, Eq)]
pub enum NotCut {
    Refused(Refusal),
    NoRoom,
}

impl From<Refusal> for NotCut {
    ghost from_gives = { λ refusal why. why ≡ Refused refusal };

    fn from(refusal: Refusal) -> NotCut {
        NotCut::Refused(refusal)
    }
}
