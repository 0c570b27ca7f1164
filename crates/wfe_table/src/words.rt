// One seat's words on the shared table, for one call.
use wfe_core::Call;
use wfe_drive_call::{Located, Words};
use wfe_drive_rule::{Handle, Ledger, begin, step, step_on};

/// The table with a seat's handle on it. It lives for one call.
#[derive(Drop)]
pub(crate) struct TableWords<'a> {
    pub(crate) ledger: &'a Ledger,
    pub(crate) handle: &'a mut Handle,
    pub(crate) seat: u32,
    /// Whether the call has made no step yet.
    pub(crate) first: bool,
}

impl<'a> Words for TableWords<'a> {
    ghost use Rattle.std.specs.Prelude.{◌-◌, ◌≡◌, ◌^◌, None};
    ghost use Rattle.wfe_drive_rule.specs.Views.{call_in, standing};
    ghost use Rattle.wfe_table.specs.TableWords.{IsFit, IsLater, comes_by, later_on, later_self};

    ghost at = { λ w l. standing w.handle.now.me ≡ l };

    ghost stands = { λ _ _. Unit {0} };

    ghost rest = { λ w. 2 ^ 62 - (standing w.handle.now.me).post.steps };

    ghost valid = { λ w. IsFit w };

    ghost later = { λ w. call_in w.handle.now.me.1 ≡ None };

    ghost same = { IsLater };

    ghost same_self = { later_self };

    ghost same_on = { later_on };

    ghost comes = { comes_by };

    #[inline(always)]
    fn start(&mut self, call: Call) {
        self.first = true;
        begin(self.ledger, self.handle, self.seat, call);
    }

    #[inline(always)]
    fn perform(&mut self, op: Located) -> u64 {
        let first = self.first;
        self.first = false;
        step(self.ledger, self.handle, self.seat, op.op, op.spot, first)
    }

    #[inline(always)]
    fn perform_on(&mut self, op: Located) -> u64 {
        step_on(self.ledger, self.handle, self.seat, &op.op, op.spot)
    }
}
