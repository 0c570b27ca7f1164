// What a seat's last call is, where it is none of the rig's: how far it has come.
ghost use Rattle.std.specs.Prelude.{◌≡◌};
ghost use Rattle.wfe_leave.specs.Parts.{first_part, is_left, is_open, is_stays};

use wfe_core::Call;

/// Where a seat stands that leaves or adopts.
#[derive(Clone, Copy, Debug, PartialEq, Eq)]
pub enum Part {
    /// Its last call is one of the rig's.
    Stays,
    /// It is to let go of what stands and to leave its list, and has made so many steps.
    Parts { steps: u64 },
    /// It is to take over the list that this seat has left.
    Takes { place: u32 },
    /// It has taken over so many lives from this seat, and is to mark the list as taken over.
    Marks { place: u32, count: u32 },
    /// Its call is over after so many steps; by it the seat has left, or not.
    Over { steps: u64, left: bool },
}

impl Part {
    /// Where a call begins.
    pub fn of(call: &Call) -> Part
        ensures { result ≡ first_part call.now }
    {
        match *call {
            Call::Leave => Part::Parts { steps: 0 },
            Call::Adopt { place } => Part::Takes { place },
            _ => Part::Stays,
        }
    }

    /// Whether the seat's last call is one of the rig's.
    pub fn stays(&self) -> bool
        ensures { result ≡ is_stays self.now }
    {
        matches!(*self, Part::Stays)
    }

    /// Whether a call is under way that leaves or adopts.
    pub fn open(&self) -> bool
        ensures { result ≡ is_open self.now }
    {
        !matches!(*self, Part::Stays | Part::Over { .. })
    }

    /// Whether the seat has left.
    pub fn left(&self) -> bool
        ensures { result ≡ is_left self.now }
    {
        matches!(*self, Part::Over { left: true, .. })
    }
}
