// How far one seat's history is known, for another seat to hear: so that what a thread was told before it hands something over is
// known to whoever it is handed to.
ghost use Rattle.std.specs.Prelude.{◌≡◌};
ghost use Rattle.wfe_table.specs.Hearing.{IsAware};
ghost use Rattle.wfe_table.specs.Public.{IsOf};

use crate::seat::Seat;
use crate::shared::Shared;
use std::marker::Model;
use wfe_drive_rule::Handle;

/// How far the history of a table is known to one of its seats. It takes no bytes, and is handed over as anything else is: by a
/// value, through a channel, by the join of a thread.
#[derive(Drop)]
pub struct News {
    pub(crate) handle: Handle,
}

impl Model for News {
    ghost use Rattle.wfe_table.specs.Hearing.{IsNews, NewsNow};

    ghost Value = { NewsNow };

    ghost view = { λ n. record { table = n.handle.table_id; past = n.handle.me.0.heard } };

    ghost invariant = { λ n. IsNews n.handle.me };
}

impl Shared {
    /// How far the table's history is known to this seat: up to the last step of its last call. It is one step on the table, a
    /// load that changes nothing.
    pub fn news(&self, seat: &mut Seat) -> News
        requires of { IsOf seat.old self.now }
        ensures of { IsOf seat.new self.now }
        ensures same { seat.new ≡ seat.old }
        ensures news { (result.table ≡ self.now.table) × (result.past ≡ seat.old.track.past) }
    {
        News {
            handle: seat.tell(&self.ledger.shared),
        }
    }

    /// The seat hears these news: what they know, its next call finds no older. Its indexes and its list stay as they are. It is
    /// two steps on the table, loads that change nothing.
    pub fn hear(&self, seat: &mut Seat, news: News)
        requires of { IsOf seat.old self.now }
        requires news { news.table ≡ self.now.table }
        ensures of { IsOf seat.new self.now }
        ensures aware { IsAware self.now.layout seat.old seat.new news.past }
    {
        let News { handle } = news;
        seat.hear(&self.ledger.shared, handle);
    }
}
