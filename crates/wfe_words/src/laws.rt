// Laws of packed words and of word numbers, each the contract of a function that does nothing.
ghost use Rattle.std.specs.Prelude.{◌≡◌, ◌<◌, IsTrue, Some};
ghost use Rattle.wfe_words.specs.Laws.{IsCodec, IsNumbering, IsStart, RefusesLives, RefusesRequests};
ghost use Rattle.wfe_words.specs.Packed.{life_fits, life_word, link_fits, link_word, read_life, read_link, read_request, read_reservation, read_span, request_fits, request_word, reservation_fits, reservation_word, span_fits, span_word};
ghost use Rattle.wfe_words.specs.Place.{is_valid, place_at};
ghost use Rattle.wfe_words.specs.declared.packed.Request.TheVariants.{Answered, Pending};

use crate::Layout;

/// The places of a table and the numbers below its size belong together one by one, and there are
/// fewer than 2^26. At its start the clock, the queue's ends, the claim word of the dummy and the
/// dummy's lifetime are not 0: the clock is 1, the queue's ends link the dummy, the claim bits of
/// the dummy and of no row are set, and the dummy was born in era 1.
pub fn numbers_name_places(layout: &Layout)
    requires { IsTrue (is_valid layout.now) }
    ensures numbering { IsNumbering layout.now (place_at layout.now) }
    ensures start { IsStart layout.now }
{}

/// What is packed is read back, every word that packs no value is refused, and two values of one
/// kind never have one word.
pub fn words_hold_values(slots: u32)
    ensures link { IsCodec (link_fits slots) link_word (λ word. read_link word slots) }
    ensures life { IsCodec life_fits life_word read_life }
    ensures reservation { IsCodec reservation_fits reservation_word (λ word. Some (read_reservation word)) }
    ensures span { IsCodec span_fits span_word read_span }
    ensures request { IsCodec request_fits request_word read_request }
{}

/// Words that no value has: requests of kind 3, of kind 0 with a bit set, and answered ones with a
/// bit of the six set or with era 0; lifetimes with birth 0 or with a retire era before the birth.
pub fn odd_words_are_refused()
    ensures requests { RefusesRequests read_request }
    ensures lives { RefusesLives read_life }
{}

/// Three values with their words, in decimal.
pub fn known_words()
    ensures pending { request_word (Pending 5 2 100) ≡ 4611686023930314852 }
    ensures answered { request_word (Answered 4 9) ≡ 9223372054034645001 }
    ensures life { life_word (record { birth = 3; retire = 5 }) ≡ 12884901893 }
{}
