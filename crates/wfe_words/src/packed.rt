// The values that one word of 64 bits holds, and how they are packed and read.
ghost use Rattle.std.specs.Prelude.{◌≡◌, ◌<◌, ◌≤◌, ◌+◌, ◌*◌, ◌/◌, ◌%◌, ◌^◌, IsTrue};
ghost use Rattle.wfe_words.specs.Packed.{halves, has_room, high_half, life_word, link_word, low_half, read_life, read_link, read_request, read_reservation, read_span, request_word, reservation_word, span_word};

// The kinds of a request word, in its two highest bits. Kind 0 is the idle word alone.
const PENDING: u64 = 1;

const ANSWERED: u64 = 2;

/// A link to a row.
#[derive(Clone, Copy, Debug, PartialEq, Eq)]
pub enum Link {
    Null,
    /// A row's number.
    Slot(u32),
}

/// The life of a row, in eras.
#[derive(Clone, Copy, Debug, PartialEq, Eq)]
pub struct Life {
    /// The era in which the row was given, at least 1.
    pub birth: u32,
    /// The era in which the row was retired, at least `birth`, or 0 while it is not.
    pub retire: u32,
}

/// What an index word or a helper word publishes.
#[derive(Clone, Copy, Debug, PartialEq, Eq)]
pub struct Reservation {
    /// The era, or 0 where nothing is published.
    pub era: u32,
    /// How many requests of the seat and index have been answered before (Nikolaev and Ravindran
    /// 2020). Always 0 under Hazard Eras.
    pub tag: u32,
}

/// What an interval word publishes: eras, both ends included.
#[derive(Clone, Copy, Debug, PartialEq, Eq)]
pub struct Span {
    /// The lower end, at least 1.
    pub lo: u32,
    /// The upper end, at least `lo`.
    pub hi: u32,
}

/// What a seat's request word says (Nikolaev and Ravindran 2020).
#[derive(Clone, Copy, Debug, PartialEq, Eq)]
pub enum Request {
    Idle,
    /// A reader asks for the link in a word, to stand at an index below 16. The word's number is
    /// below 2^26.
    Pending { tag: u32, index: u32, word: u32 },
    /// The link word that was found, below 2^24, and an era, at least 1, that covers its row.
    Answered { link: u32, era: u32 },
}

/// The word of a link: 0 for null, else the row's number plus one.
pub fn link_word(link: Link) -> u64
    ensures { result ≡ link_word link }
{
    match link {
        Link::Null => 0,
        Link::Slot(slot) => slot as u64 + 1,
    }
}

/// The link of a word, in a table with so many rows besides the queue's first one. There is none
/// above `slots + 1`.
#[tactic(auto, using(std::proofs::lemmas::Bool::Decides::nat_tests), unfolding(crate::specs::Packed::read_link))]
pub fn read_link(word: u64, slots: u32) -> Option<Link>
    ensures { result ≡ read_link word slots }
{
    if word == 0 {
        Some(Link::Null)
    } else if word <= slots as u64 + 1 {
        Some(Link::Slot((word - 1) as u32))
    } else {
        None
    }
}

/// The word of a lifetime: the birth in the high half, the retire era in the low one.
pub fn life_word(life: Life) -> u64
    ensures { result ≡ life_word life }
{
    join_halves(life.birth, life.retire)
}

/// The lifetime of a word. There is none where the birth is 0, or the retire era is neither 0 nor
/// at least the birth.
#[tactic(auto, using(std::proofs::lemmas::Bool::Decides::nat_tests), unfolding(crate::specs::Packed::read_life))]
pub fn read_life(word: u64) -> Option<Life>
    ensures { result ≡ read_life word }
{
    let (birth, retire) = (high_half(word), low_half(word));
    if birth > 0 && (retire == 0 || birth <= retire) {
        Some(Life { birth, retire })
    } else {
        None
    }
}

/// The word of a reservation: the era in the high half, the tag in the low one.
pub fn reservation_word(reservation: Reservation) -> u64
    ensures { result ≡ reservation_word reservation }
{
    join_halves(reservation.era, reservation.tag)
}

/// The reservation of a word. Every word is one.
#[tactic(auto, using(std::proofs::lemmas::Bool::Decides::nat_tests), unfolding(crate::specs::Packed::read_reservation))]
pub fn read_reservation(word: u64) -> Reservation
    ensures { result ≡ read_reservation word }
{
    Reservation {
        era: high_half(word),
        tag: low_half(word),
    }
}

/// The word of an interval: 0 where nothing is published, else the lower end in the high half and
/// the upper one in the low.
pub fn span_word(span: Option<Span>) -> u64
    ensures { result ≡ span_word span }
{
    match span {
        None => 0,
        Some(span) => join_halves(span.lo, span.hi),
    }
}

/// The interval of a word. There is none where the word is not 0 and the lower end is 0 or above
/// the upper one.
#[tactic(auto, using(std::proofs::lemmas::Bool::Decides::nat_tests), unfolding(crate::specs::Packed::read_span))]
pub fn read_span(word: u64) -> Option<Option<Span>>
    ensures { result ≡ read_span word }
{
    let (lo, hi) = (high_half(word), low_half(word));
    if word == 0 {
        Some(None)
    } else if lo > 0 && lo <= hi {
        Some(Some(Span { lo, hi }))
    } else {
        None
    }
}

/// The word of a request, the highest bits first: two for the kind, and then 32 for a tag, 4 for an
/// index and 26 for a word's number, or 6 of zero, 24 for a link and 32 for an era.
#[tactic(auto, using(std::proofs::lemmas::Bool::Decides::nat_tests), unfolding(crate::specs::Packed::pending_word, crate::specs::Packed::answered_word))]
pub fn request_word(request: Request) -> u64
    requires { IsTrue (has_room request) }
    ensures { result ≡ request_word request }
{
    match request {
        Request::Idle => 0,
        Request::Pending { tag, index, word } => {
            append(append(append(PENDING, 32, tag), 4, index), 26, word)
        }
        Request::Answered { link, era } => append(append(ANSWERED, 30, link), 32, era),
    }
}

/// The request of a word. There is none of another kind than these three, none of kind 0 but the
/// word 0, and none answered with one of the six bits set or with era 0.
#[tactic(auto, using(std::proofs::lemmas::Bool::Decides::nat_tests), unfolding(crate::specs::Packed::read_request))]
pub fn read_request(word: u64) -> Option<Request>
    ensures { result ≡ read_request word }
{
    let kind = word >> 62;
    if word == 0 {
        Some(Request::Idle)
    } else if kind == PENDING {
        Some(Request::Pending {
            tag: part(word, 30, 32),
            index: part(word, 26, 4),
            word: part(word, 0, 26),
        })
    } else if kind == ANSWERED && part(word, 56, 6) == 0 && low_half(word) > 0 {
        Some(Request::Answered {
            link: part(word, 32, 24),
            era: low_half(word),
        })
    } else {
        None
    }
}

#[tactic(auto, using(std::proofs::lemmas::Bool::Decides::nat_tests), unfolding(crate::specs::Packed::halves))]
fn join_halves(high: u32, low: u32) -> u64
    ensures { result ≡ halves high low }
{
    append(high as u64, 32, low)
}

fn high_half(word: u64) -> u32
    ensures { result ≡ high_half word }
{
    (word >> 32) as u32
}

fn low_half(word: u64) -> u32
    ensures { result ≡ low_half word }
{
    part(word, 0, 32)
}

// The bits of `high`, and then so many bits that hold `low`.
fn append(high: u64, bits: u32, low: u32) -> u64
    requires few { bits ≤ 32 }
    requires fits { low < 2 ^ bits }
    requires room { high * 2 ^ bits < 2 ^ 64 }
    ensures { result ≡ high * 2 ^ bits + low }
{
    high << bits | low as u64
}

// So many bits of a word, above as many lower ones as `below` says.
fn part(word: u64, below: u32, bits: u32) -> u32
    requires within { below < 64 }
    requires few { bits ≤ 32 }
    ensures { result ≡ word / 2 ^ below % 2 ^ bits }
{
    ((word >> below) % (1 << bits)) as u32
}
