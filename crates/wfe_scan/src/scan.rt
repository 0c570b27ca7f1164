// The steps of a scan, and the call that only scans.
ghost use Rattle.std.specs.Prelude.{◌≡◌, ◌≤◌, [], length};
ghost use Rattle.wfe_core.specs.CallReady.{scan_plausible, scan_ready};
ghost use Rattle.wfe_core.specs.Calls.{Counted, ReadGuard, Scans};
ghost use Rattle.wfe_core.specs.DeskHeld.{HasRoom, desk_of};
ghost use Rattle.wfe_core.specs.Memory.{numbered};
ghost use Rattle.wfe_core.specs.Scan.{scan_move, unmet_from};
ghost use Rattle.wfe_core.specs.Valid.{IsValid};
ghost use Rattle.wfe_scan.specs.Scans.{Leaves, giving, op_ready, scan_phase, scan_step, scans_at};

use super::guards::{guard_at, guard_count, guard_word, published};
use super::unmet::first_unmet;
use wfe_core::{Answer, CallMachine, Desk, Event, Layout, Op, Post, Told};

// The step to come. Places are places of the retire list, from 0.
#[derive(Clone, Copy)]
pub enum At {
    ReadGuard { number: u32 },
    GiveBack { place: usize, slot: u32 },
}

/// The steps of a scan, alone or as part of another call (Ramalhete and Correia 2017): it loads each
/// guard once, in order, and then clears the claim bit of each row of the list whose life nothing keeps
/// that was read.
#[derive(Clone, Copy)]
pub struct Scanner {
    at: At,
}

impl Scanner {
    /// A scan that has made no step.
    pub fn new() -> Scanner
        ensures { scans_at result ≡ ReadGuard 0 }
    {
        Scanner {
            at: At::ReadGuard { number: 0 },
        }
    }

    /// The operation that the scan asks for.
    #[tactic(auto, using(crate::proofs::There::guard_there), unfolding(wfe_words::specs::Place::claim_others))]
    pub fn next_op(&self, post: &Post) -> Op
        requires valid { IsValid post.now }
        requires ready { op_ready (scans_at self.now) post.now }
        ensures { result ≡ numbered post.now.layout (scan_move (scans_at self.now) post.now) }
    {
        match self.at {
            At::ReadGuard { number } => {
                let guard = guard_at(post.layout.config(), number);
                Op::Load {
                    word: guard_word(post.layout, guard),
                }
            }
            At::GiveBack { slot, .. } => Op::And {
                word: post.layout.claim(slot),
                bits: u64::MAX - post.layout.claim_mask(slot),
            },
        }
    }

    /// Takes what that operation found: it changes the report and the list, and tells an event.
    /// Whether the scan is over.
    pub fn take(&mut self, post: &Post, desk: &mut Desk, found: u64, told: &mut Told) -> bool
        requires valid { IsValid post.now }
        requires room { HasRoom desk.old post.now.layout }
        requires ready { scan_ready (scans_at self.old) post.now (desk_of desk.old) }
        requires plausible { scan_plausible (scans_at self.old) post.now found }
        requires empty { told.old ≡ [] }
        ensures desk { desk_of desk.new ≡ (scan_step (scans_at self.old) post.now (desk_of desk.old) found).desk }
        ensures told { told.new ≡ (scan_step (scans_at self.old) post.now (desk_of desk.old) found).told }
        ensures next { Leaves (scan_step (scans_at self.old) post.now (desk_of desk.old) found).next result (scans_at self.new) }
        ensures room { HasRoom desk.new post.now.layout }
        ensures few { length told.new ≤ 1 }
    {
        match self.at {
            At::ReadGuard { number } => {
                let config = post.layout.config();
                let guard = guard_at(config, number);
                let (shown, event) = published(post, guard, found);
                desk.report.note(number, guard, shown);
                told.push(event);
                if number + 1 < guard_count(config) {
                    self.at = At::ReadGuard { number: number + 1 };
                    return false;
                }
                self.pass(desk, 0)
            }
            At::GiveBack { place, slot } => {
                desk.list.remove(place);
                desk.report.back += 1;
                told.push(Event::Back { slot });
                self.pass(desk, place)
            }
        }
    }

    // Goes to the next row that may go back, or ends with the number of those that stay.
    fn pass(&mut self, desk: &mut Desk, from: usize) -> bool
        requires { desk.old.list.slots ≤ 65536 }
        ensures desk { desk_of desk.new ≡ (giving (desk_of desk.old) [] (unmet_from (desk_of desk.old) from)).desk }
        ensures next { Leaves (giving (desk_of desk.old) [] (unmet_from (desk_of desk.old) from)).next result (scans_at self.new) }
        ensures list { desk.new.list ≡ desk.old.list }
        ensures notes { desk.new.notes ≡ desk.old.notes }
        ensures room { desk.new.report.room ≡ desk.old.report.room }
    {
        match first_unmet(&desk.list, &desk.report.read, from) {
            Some((place, life)) => {
                self.at = At::GiveBack {
                    place,
                    slot: life.slot,
                };
                false
            }
            None => {
                desk.report.kept = desk.list.len() as u32;
                true
            }
        }
    }
}

/// The call that scans, and tells how many rows stay and how many went back. Its steps are one for
/// each guard and one for each row that goes back.
#[derive(Drop)]
pub struct Scan {
    steps: Scanner,
}

impl Scan {
    /// A scan of a table of this layout that has made no step. Which guards there are, each step reads
    /// from the post that it is given, which has the same layout.
    pub fn new(layout: Layout) -> Scan
        ensures { scan_phase result ≡ Scans Counted (ReadGuard 0) }
    {
        Scan {
            steps: Scanner::new(),
        }
    }
}

impl CallMachine for Scan {
    ghost use Rattle.wfe_scan.specs.Scans.{scan_phase};

    ghost suits = { λ _. Unit {0} };

    ghost phase = { λ m post. scan_phase m };

    fn next_op(&self, post: &Post, _desk: &Desk) -> Op {
        self.steps.next_op(post)
    }

    fn take(
        &mut self,
        post: &mut Post,
        desk: &mut Desk,
        found: u64,
        told: &mut Told,
    ) -> Option<Answer> {
        post.steps = post.steps.saturating_add(1);
        if !self.steps.take(post, desk, found, told) {
            desk.settle(post, told, None);
            return None;
        }
        let answer = Answer::Scanned {
            kept: desk.report.kept,
            back: desk.report.back,
        };
        desk.settle(post, told, Some(answer));
        Some(answer)
    }
}
