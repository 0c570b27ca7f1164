//! A table's setting (`config.rt`), its words (`layout.rt`, `Place.antt`). What is packed into words is in `packed.rt`.
#![tactic(auto)]

mod config;
mod laws;
mod layout;
mod packed;

pub use config::{BadConfig, Config, Field, SchemeKind};
pub use laws::{known_words, numbers_name_places, odd_words_are_refused, words_hold_values};
pub use layout::Layout;
pub use packed::{
    Life, Link, Request, Reservation, Span, life_word, link_word, read_life, read_link,
    read_request, read_reservation, read_span, request_word, reservation_word, span_word,
};
