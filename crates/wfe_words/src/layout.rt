// Where each word of a table lies: its number, and the value with which it starts.
ghost use Rattle.std.specs.Prelude.{◌≡◌, ◌<◌, IfOk, IsTrue};
ghost use Rattle.wfe_words.specs.Place.Place.{Bucket, Claim, Clock, Head, Helper, Index, Interval, Life, PlaceOf, Request, Row, Tail};
ghost use Rattle.wfe_words.specs.Place.{claim_bit, claim_mask, claim_word, config_of, first_bucket, first_claim, first_index, first_interval, first_life, first_place, first_request, first_row, has, is_valid, layout_of, number, row_count, row_places, start_at, words};

use crate::packed::{self, Link, life_word, link_word};
use crate::{BadConfig, Config, Field};
use std::marker::Model;

/// The words of a table: which there are, their numbers from 0, and the values with which they
/// start. Seats, indexes, slots, buckets and places of a row are counted from 0 too. It is seen as its
/// setting.
#[derive(Clone, Copy, Debug, PartialEq, Eq)]
pub struct Layout {
    config: Config,
    // What a step would else add up again: the numbers of the first words of these groups, and how many words a row has.
    intervals: u32,
    roots: u32,
    lives: u32,
    rows: u32,
    places: u32,
}

impl Model for Layout {
    ghost use Rattle.wfe_words.specs.Setting.{Setting};

    ghost Value = { Setting };

    ghost use Rattle.wfe_words.specs.Firsts.{AreFirsts, inside_is, inside_of, setting_of};

    ghost view = { setting_of };

    ghost invariant = { AreFirsts };

    ghost inverse = { inside_of };

    ghost inverse_ok = { inside_is };
}

#[tactic(auto, using(crate::proofs::Bounds::bounds), unfolding(crate::specs::Place::words, crate::specs::Place::number))]
impl Layout {
    /// The layout of a setting. A number outside its range is refused, the first of them by name.
    pub fn new(config: Config) -> Result<Layout, BadConfig>
        ensures value { result ≡ layout_of config }
        ensures valid { IfOk result (λ layout. IsTrue (is_valid layout)) }
    {
        config.judge(Field::Seats)?;
        config.judge(Field::Indexes)?;
        config.judge(Field::Slots)?;
        config.judge(Field::Buckets)?;
        config.judge(Field::Tries)?;
        config.judge(Field::Every)?;
        config.judge(Field::LastEra)?;
        config.judge(Field::LastVersion)?;
        config.judge(Field::Pairs)?;
        Ok(Layout::of(config))
    }

    // That of a setting whose numbers lie in their ranges.
    fn of(config: Config) -> Layout
        requires { IsTrue (is_valid (record { config = config })) }
        ensures { result ≡ record { config = config } }
    {
        let indexes = 1 + config.seats;
        let intervals = indexes + config.seats * config.indexes;
        let requests = intervals + config.seats;
        let roots = requests + config.seats;
        let head = roots + config.buckets;
        let claims = head + 2;
        let lives = claims + (config.slots + 64) / 64;
        let count = config.slots + 1;
        let rows = lives + count;
        let places = 3 + 2 * config.pairs;
        Layout {
            config,
            intervals,
            roots,
            lives,
            rows,
            places,
        }
    }

    pub fn config(&self) -> Config
        ensures { result ≡ config_of self.now }
    {
        self.config
    }

    /// How many words the table has.
    pub fn words(&self) -> u32
        requires { IsTrue (is_valid self.now) }
        ensures { result ≡ words self.now }
    {
        self.first_place() + self.config.seats
    }

    /// The word of the era clock.
    pub fn clock(&self) -> u32
        ensures { result ≡ number self.now Clock }
    {
        0
    }

    /// A seat's helper word.
    pub fn helper(&self, seat: u32) -> u32
        requires valid { IsTrue (is_valid self.now) }
        requires there { IsTrue (has self.now (Helper seat)) }
        ensures { result ≡ number self.now (Helper seat) }
    {
        1 + seat
    }

    /// A seat's index word.
    pub fn index(&self, seat: u32, index: u32) -> u32
        requires valid { IsTrue (is_valid self.now) }
        requires there { IsTrue (has self.now (Index seat index)) }
        ensures { result ≡ number self.now (Index seat index) }
    {
        self.first_index() + (seat * self.config.indexes + index)
    }

    /// A seat's interval word.
    pub fn interval(&self, seat: u32) -> u32
        requires valid { IsTrue (is_valid self.now) }
        requires there { IsTrue (has self.now (Interval seat)) }
        ensures { result ≡ number self.now (Interval seat) }
    {
        self.first_interval() + seat
    }

    /// A seat's request word.
    pub fn request(&self, seat: u32) -> u32
        requires valid { IsTrue (is_valid self.now) }
        requires there { IsTrue (has self.now (Request seat)) }
        ensures { result ≡ number self.now (Request seat) }
    {
        self.first_request() + seat
    }

    /// A bucket's root.
    pub fn bucket(&self, bucket: u32) -> u32
        requires valid { IsTrue (is_valid self.now) }
        requires there { IsTrue (has self.now (Bucket bucket)) }
        ensures { result ≡ number self.now (Bucket bucket) }
    {
        self.first_bucket() + bucket
    }

    /// The queue's head.
    pub fn head(&self) -> u32
        requires { IsTrue (is_valid self.now) }
        ensures { result ≡ number self.now Head }
    {
        self.first_bucket() + self.config.buckets
    }

    /// The queue's tail.
    pub fn tail(&self) -> u32
        requires { IsTrue (is_valid self.now) }
        ensures { result ≡ number self.now Tail }
    {
        self.head() + 1
    }

    /// The claim word that has a slot's bit.
    pub fn claim(&self, slot: u32) -> u32
        requires valid { IsTrue (is_valid self.now) }
        requires there { IsTrue (has self.now (Life slot)) }
        ensures { result ≡ number self.now (Claim (claim_word slot)) }
    {
        self.first_claim() + slot / 64
    }

    /// Which bit of its claim word is a slot's, 0 to 63.
    pub fn claim_bit(&self, slot: u32) -> u32
        requires there { IsTrue (has self.now (Life slot)) }
        ensures { result ≡ claim_bit slot }
    {
        slot % 64
    }

    /// A slot's bit of its claim word, alone.
    pub fn claim_mask(&self, slot: u32) -> u64
        requires there { IsTrue (has self.now (Life slot)) }
        ensures { result ≡ claim_mask slot }
    {
        1 << self.claim_bit(slot)
    }

    /// A slot's lifetime word.
    pub fn life(&self, slot: u32) -> u32
        requires valid { IsTrue (is_valid self.now) }
        requires there { IsTrue (has self.now (Life slot)) }
        ensures { result ≡ number self.now (Life slot) }
    {
        self.first_life() + slot
    }

    /// A word of a slot's row. Place 0 is the next link, 1 the version or number, 2 the count of
    /// pairs or the value, and from 3 on stand keys and values by turns.
    pub fn row(&self, slot: u32, place: u32) -> u32
        requires valid { IsTrue (is_valid self.now) }
        requires there { IsTrue (has self.now (Row slot place)) }
        ensures { result ≡ number self.now (Row slot place) }
    {
        self.first_row() + (slot * self.row_places() + place)
    }

    /// A seat's place word.
    pub fn place(&self, seat: u32) -> u32
        requires valid { IsTrue (is_valid self.now) }
        requires there { IsTrue (has self.now (PlaceOf seat)) }
        ensures { result ≡ number self.now (PlaceOf seat) }
    {
        self.first_place() + seat
    }

    /// The value with which a word starts: 1 for the clock, the link of row `slots` for the queue's
    /// head and tail, in the claim words the bits of that row and of no row, and for its lifetime
    /// birth 1, not retired. All other words start with 0.
    pub fn start(&self, word: u32) -> u64
        requires valid { IsTrue (is_valid self.now) }
        requires there { word < words self.now }
        ensures { result ≡ start_at self.now word }
    {
        let dummy = self.config.slots;
        if word == self.clock() {
            1
        } else if word == self.head() || word == self.tail() {
            link_word(Link::Slot(dummy))
        } else if word == self.claim(dummy) {
            u64::MAX << self.claim_bit(dummy)
        } else if word == self.life(dummy) {
            life_word(packed::Life {
                birth: 1,
                retire: 0,
            })
        } else {
            0
        }
    }

    // The number of each group's first word, after all words of the groups before it.

    fn first_index(&self) -> u32
        requires { IsTrue (is_valid self.now) }
        ensures { result ≡ first_index self.now }
    {
        1 + self.config.seats
    }

    fn first_interval(&self) -> u32
        requires { IsTrue (is_valid self.now) }
        ensures { result ≡ first_interval self.now }
    {
        self.intervals
    }

    fn first_request(&self) -> u32
        requires { IsTrue (is_valid self.now) }
        ensures { result ≡ first_request self.now }
    {
        self.first_interval() + self.config.seats
    }

    fn first_bucket(&self) -> u32
        requires { IsTrue (is_valid self.now) }
        ensures { result ≡ first_bucket self.now }
    {
        self.roots
    }

    fn first_claim(&self) -> u32
        requires { IsTrue (is_valid self.now) }
        ensures { result ≡ first_claim self.now }
    {
        self.head() + 2
    }

    fn first_life(&self) -> u32
        requires { IsTrue (is_valid self.now) }
        ensures { result ≡ first_life self.now }
    {
        self.lives
    }

    fn first_row(&self) -> u32
        requires { IsTrue (is_valid self.now) }
        ensures { result ≡ first_row self.now }
    {
        self.rows
    }

    fn first_place(&self) -> u32
        requires { IsTrue (is_valid self.now) }
        ensures { result ≡ first_place self.now }
    {
        self.first_row() + self.row_count() * self.row_places()
    }

    fn row_count(&self) -> u32
        requires { IsTrue (is_valid self.now) }
        ensures { result ≡ row_count self.now }
    {
        self.config.slots + 1
    }

    fn row_places(&self) -> u32
        requires { IsTrue (is_valid self.now) }
        ensures { result ≡ row_places self.now }
    {
        self.places
    }
}
