// The theorems about what calls mean, each on the contract of a function so that the gate asks for its proof.
ghost use Rattle.std.specs.Prelude.{◌≡◌};
ghost use Rattle.model.specs.Order.{CallsOrder};
ghost use Rattle.model.specs.Sound.{OpeningLaw};

// How many refusals there are. Each call but format and opening tests those that concern it in this order.
pub fn calls_in_order() -> u32
    ensures count { result ≡ 22 }
    ensures order { CallsOrder }
{
    22
}

// How many of them concern opening. It takes exactly the cards that are sound, answers the end on the card, and writes nothing.
pub fn opening_takes_sound_cards() -> u32
    ensures count { result ≡ 7 }
    ensures law { OpeningLaw }
{
    7
}
