// How many seats of a table have let go of it. Each is counted by the last step that it makes, so whoever finds all others counted has
// the table alone.
ghost use Rattle.std.specs.Arc.{arc_value};
ghost use Rattle.std.specs.Prelude.{◌∷◌, ◌≡◌};

use atomic_table::{Play, Seat, Table, TableRule};
use std::alloc::{AllocError, Global};
use std::marker::Model;
use std::sync::Arc;

/// What a member has found in its looks, the last first. Proofs alone speak of it, and no value is made.
#[derive(Drop)]
pub struct Looks;

impl Model for Looks {
    ghost use Rattle.std.specs.Prelude.{List, [], ℕ};

    ghost Value = { List ℕ };

    ghost view = { λ _. [] };
}

/// The word is how many were counted, and what each member has found was so.
pub struct CountRule;

impl TableRule<(), Looks, ()> for CountRule {
    ghost use Rattle.std.specs.Prelude.{[]};
    ghost use Rattle.wfe_c.specs.Tally.{IsCounted};

    ghost holds = { λ _. IsCounted };

    ghost first = { λ _. [] };
}

// A member comes, which has not looked.
struct Come;

impl Play<(), Looks> for Come {
    ghost use Rattle.wfe_c.specs.Tally.{comes};

    ghost then = { comes };
}

// A member looks.
struct Look;

impl Play<(), Looks> for Look {
    ghost use Rattle.wfe_c.specs.Tally.{finds};

    ghost then = { finds };
}

// A member is counted.
struct Count;

impl Play<(), Looks> for Count {
    ghost use Rattle.wfe_c.specs.Tally.{goes};

    ghost then = { goes };
}

/// The word, where all members find it.
pub type Tally = Table<(), Looks, (), CountRule, Global>;

/// A seat's part in the tally of its table.
#[derive(Drop)]
pub struct Member {
    pub(crate) tally: Arc<Tally, Global>,
    pub(crate) looks: Seat<(), Looks>,
    ghost one_word: { (arc_value tally).shared.table_id.words ≡ 1 },
    ghost seated: { looks.table_id ≡ (arc_value tally).shared.table_id },
}

impl Member {
    // The first one of a new tally, at which none was counted.
    pub(crate) fn new(alloc: Global) -> Result<Member, AllocError> {
        let (table, looks) = Table::of_words(alloc, &[0], &())?;
        let tally = Arc::new(alloc, table)?;
        Ok(Member { tally, looks })
    }

    // One more of the same tally.
    pub(crate) fn another(&self) -> Result<Member, AllocError> {
        let tally = Arc::try_clone(&self.tally)?;
        let (_, looks) = tally.shared.load_new_seat::<Come>(0);
        Ok(Member { tally, looks })
    }

    // How many were counted.
    pub(crate) fn look(&mut self) -> u64
        ensures tally { self.new.tally ≡ self.old.tally }
        ensures looks { self.new.looks.me.0 ≡ result ∷ self.old.looks.me.0 }
    {
        self.tally.shared.load::<Look>(&mut self.looks, 0)
    }

    // Is counted.
    pub(crate) fn count(self) {
        let Member { tally, mut looks } = self;
        tally.shared.fetch_add::<Count>(&mut looks, 0, 1);
    }
}
